//! A painted text that edits and other syntaxes change.
ghost use Rattle.std.specs.Prelude.{◌≡◌, ◌≤◌, ◌<◌, ◌+◌, ◌++◌, ℕ, List as ListOf, All, [], get_or, length, IfOk, OnErr, OnOk};
ghost use Rattle.syn_base.specs.declared.places.Span.{Span as SpanOf};
ghost use Rattle.text_buffer.specs.TextOfBytes.{most_lines};
ghost use Rattle.edit_script.specs.Edits.{replaced};
ghost use Rattle.edit_session.specs.Ends.{IfKnown, files_between};
ghost use Rattle.edit_session.specs.Painter.{ComesTo, Edits, FitsIn, Library, Painter, TakesSyntax, syntax_costs};
ghost use Rattle.edit_session.specs.Steps.{IsTakingCaused};
ghost use Rattle.syn_base.specs.Outside.{FileMap};

use crate::changes::{Replacement, Substituted};
use std::alloc::Global;
use syn_base::{Files, Ledger, Lines, List, Memory, Steps};

/// Why a text wasn't changed.
#[derive(Drop)]
pub enum Unedited {
    /// The painting of the changed text is refused, or the command by pattern, for the cause that
    /// these bytes tell.
    Refused(List<u8>),
    Memory,
}

/// Why a syntax isn't put in force.
#[derive(Drop)]
pub enum Untaken {
    /// Its file is refused, or the painting of the text by it, for the cause that these bytes tell.
    Refused(List<u8>),
    /// Its file, or one that it includes, is too long, which these bytes tell.
    TooLong(List<u8>),
    /// A file couldn't be read, which these bytes tell, a line with its end.
    Unread(List<u8>),
    Memory,
}

/// A painted text that edits and other syntaxes change.
pub trait Document: Lines {
    /// By what it is painted and printed.
    ghost painter: { Self → Painter };

    /// What files say of the syntaxes that a script names.
    ghost library: { Self → FileMap → Library };

    /// The spans of each line.
    ghost shown: { Self → ListOf (ListOf SpanOf) };

    /// Appends the span lines of the line of this number, from 0. A line without spans is told too.
    fn print_line(&self, alloc: Global, out: &mut Vec<u8>, number: usize) -> Result<(), Memory>
        requires { number < length (Self.lines self.now) }
        ensures { OnOk result (out.new.items ≡ out.old.items
            ++ (painter self.now).line number (get_or (shown self.now) number [])) };

    /// The page of the text.
    fn page(&self, alloc: Global) -> Result<List<u8>, Memory>
        ensures { IfOk result (λ bytes.
            bytes ≡ (painter self.now).page (Self.lines self.now) (shown self.now)) };

    /// The folds of the text, a line for each.
    fn folds(&self, alloc: Global) -> Result<List<u8>, Memory>
        ensures { IfOk result (λ bytes. bytes ≡ (painter self.now).folds (Self.lines self.now)) };

    /// What a command by pattern (`:s`, `:g`, `:v`) comes to on lines `a` to `b - 1`. The text stays
    /// as it is.
    fn substitute(
        &self,
        alloc: Global,
        a: usize,
        b: usize,
        command: &[char],
    ) -> Result<Substituted, Unedited>
        requires ordered { a < b }
        requires within { b ≤ length (Self.lines self.now) }
        ensures comes { ComesTo
            ((painter self.now).substitute (Self.lines self.now) a b command.now) result }
        ensures fits { IfOk result (FitsIn (Self.lines self.now)) };

    /// Replaces the lines and paints the text, and answers the lines to tell, least first. On
    /// each refusal all is as it was.
    fn edit<L: Ledger>(
        &mut self,
        alloc: Global,
        replacement: Replacement,
        steps: &mut Steps<L>,
    ) -> Result<List<usize>, Unedited>
        requires ordered { replacement.a ≤ replacement.b }
        requires within { replacement.b ≤ length (Self.lines self.old) }
        requires some { 0 < length (replaced (Self.lines self.old) replacement) }
        requires few { length (replaced (Self.lines self.old) replacement) ≤ most_lines }
        ensures painter { painter self.new ≡ painter self.old }
        ensures library { library self.new ≡ library self.old }
        ensures edits { Edits (painter self.old) replacement
            (record { text = Self.lines self.old; spans = shown self.old })
            (record { text = Self.lines self.new; spans = shown self.new }) result }
        ensures within { IfOk result (All (λ number. number < length (Self.lines self.new))) }
        ensures steps { steps.new ≤ steps.old
            + (painter self.old).costs (Self.lines self.old) replacement };

    /// Reads the syntax file of this name and paints the text by it, which is in force from then on,
    /// and answers the lines to tell, least first. On each refusal all is as it was.
    fn take_syntax<F: Files, L: Ledger>(
        &mut self,
        alloc: Global,
        files: &mut F,
        name: &[char],
        steps: &mut Steps<L>,
    ) -> Result<List<usize>, Untaken>
        ensures kept { F.told files.new ≡ F.told files.old }
        ensures library { library self.new ≡ library self.old }
        ensures takes { IfKnown (F.told files.old) (λ known.
            TakesSyntax (library self.old known) name.now (painter self.old) (painter self.new)
            (record { text = Self.lines self.old; spans = shown self.old })
            (record { text = Self.lines self.new; spans = shown self.new }) result) }
        ensures text { Self.lines self.new ≡ Self.lines self.old }
        ensures unchanged { OnErr result ((painter self.new ≡ painter self.old)
            × (shown self.new ≡ shown self.old)) }
        ensures within { IfOk result (All (λ number. number < length (Self.lines self.new))) }
        ensures causes { IsTakingCaused
            (files_between F.told F.faults F.misses F.longs files.old files.new) result }
        ensures steps { IfKnown (F.told files.old) (λ known. steps.new ≤ steps.old
            + syntax_costs ((library self.old known).reads name.now) (Self.lines self.old)) };
}
