//! The commands of a session, one after the other.
ghost use Rattle.std.specs.Prelude.{◌≡◌, ◌≤◌, ◌<◌, ◌+◌, ◌-◌, ◌++◌, All, None, false, length, true, IfOk, OnOk};
ghost use Rattle.std.specs.List.{range_with_len};
ghost use Rattle.command_print.specs.CommandText.{head_text};
ghost use Rattle.text_buffer.specs.TextOfBytes.{most_lines};
ghost use Rattle.edit_script.specs.Edits.{replaced, resolved_of};
ghost use Rattle.edit_session.specs.Ends.{IfKnown, files_between, sink_between};
ghost use Rattle.edit_session.specs.Painter.{Painted, Painter, syntax_costs};
ghost use Rattle.edit_session.specs.Session.{answers, carries_out, change_by, change_costs, change_of, edits, entry_costs, lines_text, marked, obeys, prints, refuses, session, session_costs, syntax_named, takes_syntax, what_costs};
ghost use Rattle.edit_session.specs.Steps.{Answers, AreCaused, FitsText, GivesAnswer, GivesOrStops, IsAnswerCaused, KeepsHarm, standing};

use crate::causes::{fault_label, misfit_text};
use crate::changes::{Replacement, copied, moved, put_in_place};
use crate::document::{Document, Unedited, Untaken};
use crate::patterns::ex_text;
use crate::reading::End;
use byte_text::push_bytes;
use command_print::{head_text, refusal_text};
use edit_script::{EditCommand, Entry, Resolved, ScriptFault, Verb, resolve};
use std::alloc::Global;
use syn_base::{Files, Ledger, Lines, List, Memory, Sink, Steps, put_all};

/// What went wrong with the commands so far.
#[derive(Drop)]
pub(crate) struct Harm {
    /// One was refused.
    pub(crate) refused: bool,
    /// One named a syntax of which a file is too long.
    pub(crate) met_long: bool,
}

/// What stands between two commands: the text as it is, how many commands there were, and what
/// went wrong with them.
#[derive(Drop)]
pub(crate) struct Commands<D: Document + Drop> {
    pub(crate) document: D,
    pub(crate) number: usize,
    pub(crate) harm: Harm,
}

impl<D: Document + Drop> Commands<D> {
    /// Carries out the commands, and writes what each of them prints before the next one.
    pub(crate) fn answer_all<F: Files, O: Sink, L: Ledger>(
        &mut self,
        alloc: Global,
        entries: List<Entry>,
        files: &mut F,
        out: &mut O,
        steps: &mut Steps<L>,
    ) -> Result<(), End>
        ensures kept { F.told files.new ≡ F.told files.old }
        ensures library { D.library self.new.document ≡ D.library self.old.document }
        ensures answers { IfKnown (F.told files.old) (λ known.
            Answers (D.library self.old.document known)
            (session (D.library self.old.document known) (standing D.lines D.shown D.painter self.old) entries)
            (standing D.lines D.shown D.painter self.new) (sink_between O.written O.faults out.old out.new) result) }
        ensures steps { IfKnown (F.told files.old) (λ known. steps.new ≤ steps.old
            + session_costs (D.library self.old.document known) (standing D.lines D.shown D.painter self.old) entries) }
        ensures causes { AreCaused self.old.harm self.new.harm
            (files_between F.told F.faults F.misses F.longs files.old files.new)
            (sink_between O.written O.faults out.old out.new) result }
    {
        for entry in entries.into_vec() {
            self.answer_one(alloc, entry, files, out, steps)?;
        }
        Ok(())
    }

    /// Carries out one command, and writes what it prints.
    fn answer_one<F: Files, O: Sink, L: Ledger>(
        &mut self,
        alloc: Global,
        entry: Entry,
        files: &mut F,
        out: &mut O,
        steps: &mut Steps<L>,
    ) -> Result<(), End>
        ensures kept { F.told files.new ≡ F.told files.old }
        ensures library { D.library self.new.document ≡ D.library self.old.document }
        ensures answers { IfKnown (F.told files.old) (λ known.
            Answers (D.library self.old.document known)
            (answers (D.library self.old.document known) (standing D.lines D.shown D.painter self.old) entry.line entry.what)
            (standing D.lines D.shown D.painter self.new) (sink_between O.written O.faults out.old out.new) result) }
        ensures steps { IfKnown (F.told files.old) (λ known. steps.new ≤ steps.old
            + entry_costs (D.library self.old.document known) (standing D.lines D.shown D.painter self.old) entry) }
        ensures causes { AreCaused self.old.harm self.new.harm
            (files_between F.told F.faults F.misses F.longs files.old files.new)
            (sink_between O.written O.faults out.old out.new) result }
    {
        let text = self.answer(alloc, entry, files, steps)?;
        if put_all(out, text.as_slice()) {
            Ok(())
        } else {
            Err(End::Unwritten)
        }
    }

    /// What a command prints.
    fn answer<F: Files, L: Ledger>(
        &mut self,
        alloc: Global,
        entry: Entry,
        files: &mut F,
        steps: &mut Steps<L>,
    ) -> Result<List<u8>, End>
        ensures kept { F.told files.new ≡ F.told files.old }
        ensures library { D.library self.new.document ≡ D.library self.old.document }
        ensures answer { IfKnown (F.told files.old) (λ known.
            GivesOrStops (D.library self.old.document known) result (standing D.lines D.shown D.painter self.new)
            (answers (D.library self.old.document known) (standing D.lines D.shown D.painter self.old) entry.line entry.what)) }
        ensures steps { IfKnown (F.told files.old) (λ known. steps.new ≤ steps.old
            + what_costs (D.library self.old.document known) (standing D.lines D.shown D.painter self.old) entry.what) }
        ensures causes { IsAnswerCaused self.old.harm self.new.harm
            (files_between F.told F.faults F.misses F.longs files.old files.new) result }
    {
        let Entry { line, what } = entry;
        match what {
            Ok(command) => {
                if let Verb::Syntax(name) = &command.verb {
                    return self.take_syntax(alloc, line, name.as_slice(), files, steps);
                }
                Ok(self.obey(alloc, line, command, steps)?)
            }
            Err(fault) => Ok(self.refuse(alloc, line, fault_label(fault).as_bytes())?),
        }
    }

    /// Puts the syntax of this name in force, and tells the lines that show otherwise by it.
    fn take_syntax<F: Files, L: Ledger>(
        &mut self,
        alloc: Global,
        line: usize,
        name: &[char],
        files: &mut F,
        steps: &mut Steps<L>,
    ) -> Result<List<u8>, End>
        ensures kept { F.told files.new ≡ F.told files.old }
        ensures library { D.library self.new.document ≡ D.library self.old.document }
        ensures answer { IfKnown (F.told files.old) (λ known.
            GivesOrStops (D.library self.old.document known) result (standing D.lines D.shown D.painter self.new)
            (takes_syntax (D.library self.old.document known) (standing D.lines D.shown D.painter self.old) line name.now)) }
        ensures steps { IfKnown (F.told files.old) (λ known. steps.new ≤ steps.old
            + syntax_costs ((D.library self.old.document known).reads name.now)
            (D.lines self.old.document)) }
        ensures causes { IsAnswerCaused self.old.harm self.new.harm
            (files_between F.told F.faults F.misses F.longs files.old files.new) result }
    {
        match self.document.take_syntax(alloc, files, name, steps) {
            Ok(numbers) => Ok(self.print_lines(alloc, numbers.as_slice())?),
            Err(Untaken::Refused(cause)) => Ok(self.refuse(alloc, line, cause.as_slice())?),
            Err(Untaken::TooLong(cause)) => Ok(self.refuse_long(alloc, line, cause.as_slice())?),
            Err(Untaken::Unread(told)) => Err(End::Unfetched(told)),
            Err(Untaken::Memory) => Err(End::Memory),
        }
    }

    /// What a command prints that names no syntax.
    fn obey<L: Ledger>(
        &mut self,
        alloc: Global,
        line: usize,
        command: EditCommand,
        steps: &mut Steps<L>,
    ) -> Result<List<u8>, Memory>
        requires other { syntax_named command.verb ≡ None }
        ensures library { D.library self.new.document ≡ D.library self.old.document }
        ensures answer { GivesAnswer result (standing D.lines D.shown D.painter self.new)
            (obeys (standing D.lines D.shown D.painter self.old) line command
            (resolved_of command (length (D.lines self.old.document)))) }
        ensures unharmed { OnOk result (KeepsHarm self.old.harm self.new.harm) }
        ensures steps { steps.new ≤ steps.old
            + change_costs (D.painter self.old.document) (D.lines self.old.document)
            (change_of (D.painter self.old.document) (D.lines self.old.document) command) }
    {
        match resolve(&command, self.document.len()) {
            Ok(resolved) => self.carry_out(alloc, line, resolved, command, steps),
            Err(misfit) => {
                let cause = misfit_text(alloc, misfit)?;
                self.refuse(alloc, line, cause.as_slice())
            }
        }
    }

    /// What a command prints that fits the text.
    fn carry_out<L: Ledger>(
        &mut self,
        alloc: Global,
        line: usize,
        resolved: Resolved,
        command: EditCommand,
        steps: &mut Steps<L>,
    ) -> Result<List<u8>, Memory>
        requires some { 0 < length (D.lines self.old.document) }
        requires fits { FitsText (length (D.lines self.old.document)) (length command.lines) resolved }
        ensures library { D.library self.new.document ≡ D.library self.old.document }
        ensures answer { GivesAnswer result (standing D.lines D.shown D.painter self.new)
            (carries_out (standing D.lines D.shown D.painter self.old)
            line command resolved) }
        ensures steps { steps.new ≤ steps.old
            + change_costs (D.painter self.old.document) (D.lines self.old.document)
            (change_by (D.painter self.old.document) (D.lines self.old.document) command resolved) }
    {
        match resolved {
            Resolved::Replace { a, b } => {
                let made = put_in_place(alloc, &self.document, a, b, command.lines)?;
                self.edit(alloc, line, made, steps)
            }
            Resolved::Move { a, b, dest } => {
                let made = moved(alloc, &self.document, a, b, dest)?;
                self.edit(alloc, line, made, steps)
            }
            Resolved::CopyTo { a, b, dest } => {
                let made = copied(alloc, &self.document, a, b, dest)?;
                self.edit(alloc, line, made, steps)
            }
            Resolved::Print { a, b } => self.print_range(alloc, a, b),
            Resolved::Ex { a, b } => self.substitute(
                alloc,
                line,
                a,
                b,
                ex_text(&command.verb),
                steps,
            ),
            Resolved::Page => self.print_page(alloc),
            Resolved::Folds => self.print_folds(alloc),
            Resolved::Syntax => unreachable!(),
        }
    }

    /// Changes the text, and tells the lines that changed with it.
    pub(crate) fn edit<L: Ledger>(
        &mut self,
        alloc: Global,
        line: usize,
        replacement: Replacement,
        steps: &mut Steps<L>,
    ) -> Result<List<u8>, Memory>
        requires ordered { replacement.a ≤ replacement.b }
        requires within { replacement.b ≤ length (D.lines self.old.document) }
        requires some { 0 < length (replaced (D.lines self.old.document) replacement) }
        requires few { length (replaced (D.lines self.old.document) replacement) ≤ most_lines }
        ensures library { D.library self.new.document ≡ D.library self.old.document }
        ensures answer { GivesAnswer result (standing D.lines D.shown D.painter self.new)
            (edits (standing D.lines D.shown D.painter self.old)
            line replacement) }
        ensures steps { steps.new ≤ steps.old
            + (D.painter self.old.document).costs (D.lines self.old.document) replacement }
    {
        match self.document.edit(alloc, replacement, steps) {
            Ok(numbers) => self.print_lines(alloc, numbers.as_slice()),
            Err(Unedited::Refused(cause)) => self.refuse(alloc, line, cause.as_slice()),
            Err(Unedited::Memory) => Err(Memory),
        }
    }

    /// The refusal of a command.
    pub(crate) fn refuse(
        &mut self,
        alloc: Global,
        line: usize,
        cause: &[u8],
    ) -> Result<List<u8>, Memory>
        ensures document { self.new.document ≡ self.old.document }
        ensures answer { GivesAnswer result (standing D.lines D.shown D.painter self.new)
            (refuses (standing D.lines D.shown D.painter self.old) line cause.now) }
    {
        let number = one_more(self.number)?;
        if line == usize::MAX {
            return Err(Memory);
        }
        self.number = number;
        self.harm.refused = true;
        refusal_text(alloc, number, line, cause)
    }

    /// The refusal of a command that names a syntax of which a file is too long.
    fn refuse_long(&mut self, alloc: Global, line: usize, cause: &[u8]) -> Result<List<u8>, Memory>
        ensures document { self.new.document ≡ self.old.document }
        ensures answer { GivesAnswer result (standing D.lines D.shown D.painter self.new)
            (marked true (refuses (standing D.lines D.shown D.painter self.old) line cause.now)) }
    {
        let text = self.refuse(alloc, line, cause)?;
        self.harm.met_long = true;
        Ok(text)
    }

    /// The head of a command, and the span lines of these lines.
    fn print_lines(&mut self, alloc: Global, numbers: &[usize]) -> Result<List<u8>, Memory>
        requires { All (λ number. number < length (D.lines self.old.document)) numbers.now }
        ensures document { self.new.document ≡ self.old.document }
        ensures answer { GivesAnswer result (standing D.lines D.shown D.painter self.new)
            (prints (standing D.lines D.shown D.painter self.old) (standing D.lines D.shown D.painter self.old).painted
            (lines_text (D.painter self.old.document) (D.shown self.old.document) numbers.now)) }
    {
        let mut out = self.head(alloc)?;
        push_lines(alloc, &mut out, &self.document, numbers)?;
        Ok(List::from_vec(out))
    }

    /// The head of a command, and the span lines of lines `a` to `b - 1`.
    fn print_range(&mut self, alloc: Global, a: usize, b: usize) -> Result<List<u8>, Memory>
        requires ordered { a ≤ b }
        requires within { b ≤ length (D.lines self.old.document) }
        ensures document { self.new.document ≡ self.old.document }
        ensures answer { GivesAnswer result (standing D.lines D.shown D.painter self.new)
            (prints (standing D.lines D.shown D.painter self.old) (standing D.lines D.shown D.painter self.old).painted
            (lines_text (D.painter self.old.document) (D.shown self.old.document)
            (range_with_len a (b - a)))) }
    {
        let mut out = self.head(alloc)?;
        push_range(alloc, &mut out, &self.document, a, b)?;
        Ok(List::from_vec(out))
    }

    /// The head of a command, and the page.
    fn print_page(&mut self, alloc: Global) -> Result<List<u8>, Memory>
        ensures document { self.new.document ≡ self.old.document }
        ensures answer { GivesAnswer result (standing D.lines D.shown D.painter self.new)
            (prints (standing D.lines D.shown D.painter self.old) (standing D.lines D.shown D.painter self.old).painted
            ((D.painter self.old.document).page (D.lines self.old.document)
            (D.shown self.old.document))) }
    {
        let mut out = self.head(alloc)?;
        let page = self.document.page(alloc)?;
        push_bytes(&mut out, page.as_slice())?;
        Ok(List::from_vec(out))
    }

    /// The head of a command, and the folds.
    fn print_folds(&mut self, alloc: Global) -> Result<List<u8>, Memory>
        ensures document { self.new.document ≡ self.old.document }
        ensures answer { GivesAnswer result (standing D.lines D.shown D.painter self.new)
            (prints (standing D.lines D.shown D.painter self.old) (standing D.lines D.shown D.painter self.old).painted
            ((D.painter self.old.document).folds (D.lines self.old.document))) }
    {
        let mut out = self.head(alloc)?;
        let folds = self.document.folds(alloc)?;
        push_bytes(&mut out, folds.as_slice())?;
        Ok(List::from_vec(out))
    }

    /// The head of the next command.
    pub(crate) fn head(&mut self, alloc: Global) -> Result<Vec<u8>, Memory>
        ensures document { self.new.document ≡ self.old.document }
        ensures harm { self.new.harm ≡ self.old.harm }
        ensures number { OnOk result (self.new.number ≡ self.old.number + 1) }
        ensures head { IfOk result (λ out. out.items ≡ head_text (self.old.number + 1)) }
    {
        self.number = one_more(self.number)?;
        Ok(head_text(alloc, self.number)?.into_vec())
    }
}

/// The next number. A session with so many commands has no memory left long before.
fn one_more(number: usize) -> Result<usize, Memory>
    ensures { IfOk result (λ more. more ≡ number + 1) }
{
    number.checked_add(1).ok_or(Memory)
}

/// Appends the span lines of these lines.
fn push_lines<D: Document>(
    alloc: Global,
    out: &mut Vec<u8>,
    document: &D,
    numbers: &[usize],
) -> Result<(), Memory>
    requires { All (λ number. number < length (D.lines document.now)) numbers.now }
    ensures { OnOk result (out.new.items ≡ out.old.items
        ++ lines_text (D.painter document.now) (D.shown document.now) numbers.now) }
{
    for number in numbers {
        document.print_line(alloc, out, *number)?;
    }
    Ok(())
}

/// Appends the span lines of lines `a` to `b - 1`.
fn push_range<D: Document>(
    alloc: Global,
    out: &mut Vec<u8>,
    document: &D,
    a: usize,
    b: usize,
) -> Result<(), Memory>
    requires ordered { a ≤ b }
    requires within { b ≤ length (D.lines document.now) }
    ensures { OnOk result (out.new.items ≡ out.old.items
        ++ lines_text (D.painter document.now) (D.shown document.now) (range_with_len a (b - a))) }
{
    for number in a..b {
        document.print_line(alloc, out, number)?;
    }
    Ok(())
}
