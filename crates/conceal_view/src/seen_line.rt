//! A line that is seen, as far as it is made.
ghost use Rattle.std.specs.Prelude.{◌≡◌, ◌<◌, ◌≤◌, ◌∷◌, ◌++◌, [], length, OnOk};
ghost use Rattle.conceal_view.specs.Cells.{goes_on, no_characters, with_run};
ghost use Rattle.conceal_view.specs.Seeing.{run_of, with_cells};

use std::alloc::Global;
use std::marker::Model;
use syn_base::{GroupId, Memory, Span};

/// The characters of a line, and its spans.
#[derive(Drop)]
pub(crate) struct SeenLine {
    chars: Vec<char>,
    spans: Vec<Span>,
}

impl Model for SeenLine {
    ghost use Rattle.conceal_view.specs.Cells as cells;

    ghost Value = { cells.SeenLine };

    ghost view = { λ a. record { chars = a.chars.items; spans = a.spans.items } };
}

impl SeenLine {
    /// A line without characters. It takes no memory.
    pub(crate) fn new(alloc: Global) -> SeenLine
        ensures { result ≡ no_characters }
    {
        SeenLine {
            chars: Vec::new(alloc),
            spans: Vec::new(alloc),
        }
    }

    pub(crate) fn chars(&self) -> &[char]
        ensures { result.now ≡ self.now.chars }
    {
        &self.chars
    }

    pub(crate) fn spans(&self) -> &[Span]
        ensures { result.now ≡ self.now.spans }
    {
        &self.spans
    }

    /// Puts characters at the end that all show one group, or none.
    pub(crate) fn push_run(&mut self, chars: &[char], group: Option<GroupId>) -> Result<(), Memory>
        ensures { OnOk result (self.new ≡ with_cells self.old (run_of group chars.now)) }
    {
        match group {
            Some(group) => self.push_spanned(chars, group),
            None => self.push_plain(chars),
        }
    }

    fn push_plain(&mut self, chars: &[char]) -> Result<(), Memory>
        ensures { OnOk result (self.new ≡ with_cells self.old (run_of None chars.now)) }
    {
        self.chars.extend_from_slice(chars)?;
        Ok(())
    }

    fn push_spanned(&mut self, chars: &[char], group: GroupId) -> Result<(), Memory>
        ensures { OnOk result (self.new ≡ with_cells self.old (run_of (Some group) chars.now)) }
    {
        if chars.is_empty() {
            return Ok(());
        }
        let first = self.chars.len();
        self.chars.extend_from_slice(chars)?;
        push_span(&mut self.spans, first, self.chars.len() - 1, group)
    }

    /// Puts one character at the end.
    pub(crate) fn push(&mut self, x: char, group: GroupId) -> Result<(), Memory>
        ensures { OnOk result (self.new ≡ with_cells self.old (run_of (Some group) (x ∷ []))) }
    {
        self.push_run(&[x], Some(group))
    }
}

/// Puts a run of one group behind spans.
fn push_span(spans: &mut Vec<Span>, first: usize, last: usize, group: GroupId) -> Result<(), Memory>
    ensures { OnOk result (spans.new.items ≡ with_run spans.old.items first last group) }
{
    let end = spans.len();
    if end > 0 && goes_on(spans[end - 1], first, group) {
        spans[end - 1].last = last;
        return Ok(());
    }
    spans.push(Span { first, last, group })?;
    Ok(())
}

/// Whether a run goes on with a span.
fn goes_on(span: Span, first: usize, group: GroupId) -> bool
    ensures { result ≡ goes_on span first group }
{
    span.last < first && first - span.last == 1 && span.group.0 == group.0
}
