//! A painted text as a session of edits changes and prints it.
ghost use Rattle.std.specs.Prelude.{◌≡◌, ◌≢◌, ◌++◌, codes, length, IfOk, OnOk};
ghost use Rattle.std.specs.List.{sum_by};
ghost use Rattle.cause_print.specs.PlaceWords.{place_words};
ghost use Rattle.vimsyn_cli.specs.Editing.{cause_words, painter_of};
ghost use Rattle.vimsyn_cli.specs.Refusal.{IsUnedited};
ghost use Rattle.vimsyn_cli.specs.Renewal.{library_of};

use crate::folds::folds_bytes;
use crate::html::page_bytes;
use crate::refusal::group_of;
use crate::renewal::{read_named, renew};
use crate::spans::spans_at;
use crate::substituting::substituted;
use byte_text::push_bytes;
use cause_print::push_place;
use edit_session::{Document, Replacement, Substituted, Unedited, Untaken};
use large_session::LargeDocument;
use program_words::PageWords;
use span_print::push_span_text;
use state_cache::{EditError, Painted, Repainted};
use std::alloc::{AllocError, Global};
use syn_base::{Files, Ledger, Lines, List, Memory, Steps};
use syn_reader::Syntax;

/// A painted text, and how its page is made.
#[derive(Drop)]
pub(crate) struct Sheet<'a> {
    pub(crate) painted: Painted,
    pub(crate) words: &'a PageWords<'a>,
}

impl<'a> Lines for Sheet<'a> {
    ghost lines = { λ s. s.painted.text };

    fn len(&self) -> usize {
        self.painted.len()
    }

    fn line(&self, i: usize) -> &[char] {
        self.painted.line(i)
    }
}

impl<'a> Document for Sheet<'a> {
    ghost painter = { λ s. painter_of s.words.now s.painted.syntax s.painted.budget };

    ghost library = { λ s known. library_of s.words.now s.painted.budget known };

    ghost shown = { λ s. s.painted.spans };

    fn print_line(&self, _alloc: Global, out: &mut Vec<u8>, number: usize) -> Result<(), Memory> {
        let syntax = self.painted.syntax();
        let spans = spans_at(&self.painted, number);
        push_span_text(out, number, spans, &syntax.groups, &syntax.links, true)?;
        Ok(())
    }

    fn page(&self, alloc: Global) -> Result<List<u8>, Memory> {
        page_bytes(alloc, self.words, &self.painted)
    }

    fn folds(&self, alloc: Global) -> Result<List<u8>, Memory> {
        folds_bytes(alloc, &self.painted)
    }

    fn substitute(
        &self,
        alloc: Global,
        a: usize,
        b: usize,
        command: &[char],
    ) -> Result<Substituted, Unedited> {
        substituted(alloc, &self.painted, a, b, self.painted.budget(), command)
    }

    fn edit<L: Ledger>(
        &mut self,
        alloc: Global,
        replacement: Replacement,
        steps: &mut Steps<L>,
    ) -> Result<List<usize>, Unedited> {
        let Replacement { a, b, new } = replacement;
        match self.painted.edit(a, b, new, steps) {
            Ok(Repainted { lines }) => Ok(told(&self.painted, lines)),
            Err(error) => Err(unedited(alloc, self.painted.syntax(), error)),
        }
    }

    fn take_syntax<F: Files, L: Ledger>(
        &mut self,
        alloc: Global,
        files: &mut F,
        name: &[char],
        steps: &mut Steps<L>,
    ) -> Result<List<usize>, Untaken> {
        match read_named(alloc, files, self.words.painting().syntax(), name) {
            Ok(syntax) => renew(alloc, &mut self.painted, syntax, steps),
            Err(why) => Err(why),
        }
    }
}

impl<'a> LargeDocument for Sheet<'a> {
    fn span_count(&self) -> Result<usize, Memory> {
        span_count(&self.painted)
    }
}

/// How many spans the lines have together.
fn span_count(painted: &Painted) -> Result<usize, Memory>
    ensures { IfOk result (λ count. count ≡ sum_by length painted.now.spans) }
{
    let _syntax = painted.syntax();
    let mut count = 0usize;
    for number in 0..painted.len() {
        let more = spans_at(painted, number).len();
        count = count.checked_add(more).ok_or(Memory)?;
    }
    Ok(count)
}

/// The lines to tell of a text each of whose lines has its spans.
pub(crate) fn told(painted: &Painted, lines: List<usize>) -> List<usize>
    ensures is { result ≡ lines }
    ensures counted { length painted.now.spans ≡ length painted.now.text }
{
    let _syntax = painted.syntax();
    lines
}

/// The words for a refusal of the painting.
fn unedited(alloc: Global, syntax: &Syntax, error: EditError) -> Unedited
    ensures { IsUnedited syntax.now error result }
{
    match cause_words(alloc, syntax, error) {
        Ok(words) => Unedited::Refused(words),
        Err(_) => Unedited::Memory,
    }
}

/// The words for a refusal.
pub(crate) fn cause_words(
    alloc: Global,
    syntax: &Syntax,
    error: EditError,
) -> Result<List<u8>, Memory>
    ensures { IfOk result (λ words. (error ≢ EditError.Memory)
        × (words ≡ cause_words syntax.now error)) }
{
    let mut out = Vec::new(alloc);
    push_cause(&mut out, syntax, error)?;
    Ok(List::from_vec(out))
}

/// Appends the words for a refusal.
fn push_cause(out: &mut Vec<u8>, syntax: &Syntax, error: EditError) -> Result<(), Memory>
    ensures known { OnOk result (error ≢ EditError.Memory) }
    ensures text { OnOk result (out.new.items ≡ out.old.items ++ cause_words syntax.now error) }
{
    match error {
        EditError::TooCostly { line, col, item } => {
            let group = group_of(&syntax.items, item);
            Ok(push_costly(out, line, col, syntax.groups.name(group))?)
        }
        EditError::TooDeep { line, col } => Ok(push_deep(out, line, col)?),
        EditError::Memory => Err(Memory),
    }
}

/// Appends the words for an attempt that is too costly, with the group of its item.
fn push_costly(out: &mut Vec<u8>, line: usize, col: usize, group: &str) -> Result<(), AllocError>
    ensures { OnOk result (out.new.items ≡ out.old.items ++ (codes "too costly "
        ++ place_words line col ++ codes ": " ++ group.now)) }
{
    push_bytes(out, b"too costly ")?;
    push_place(out, line, col)?;
    push_bytes(out, b": ")?;
    push_bytes(out, group.as_bytes())
}

/// Appends the words for too many frames.
fn push_deep(out: &mut Vec<u8>, line: usize, col: usize) -> Result<(), AllocError>
    ensures { OnOk result (out.new.items ≡ out.old.items ++ (codes "too deep "
        ++ place_words line col)) }
{
    push_bytes(out, b"too deep ")?;
    push_place(out, line, col)
}
