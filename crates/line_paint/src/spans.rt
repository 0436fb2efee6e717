//! The spans of a line, from the left: those that are whole, and the one that may go on.
ghost use Rattle.std.specs.Prelude.{◌≡◌, ◌<◌, ◌-◌, ◌&&◌, [], List, suc, nat_eq, IfOk, None};
ghost use Rattle.line_paint.specs.Common.{Span, same_group, joined_run, chained, span_of};

use std::alloc::Global;
use syn_base::{GroupId, List, Memory, Span};

/// Spans from the left.
#[derive(Drop)]
pub(crate) struct Spans {
    pub done: List<Span>,
    pub growing: Option<Span>,
}

fn span_of(first: usize, last: usize, group: GroupId) -> Span
    ensures { result ≡ span_of first last group }
{
    Span { first, last, group }
}

/// Whether a character goes on with a span.
fn adjoins(span: Span, c: usize, group: GroupId) -> bool
    ensures { result ≡ (nat_eq c (suc span.last) && same_group group span.group) }
{
    if c == 0 {
        return false;
    }
    c - 1 == span.last && group.0 == span.group.0
}

impl Spans {
    pub(crate) fn new(alloc: Global) -> Spans
        ensures { result ≡ record { done = []; growing = None } }
    {
        Spans {
            done: List::new(alloc),
            growing: None,
        }
    }

    /// The characters from a column up to, and without, another, right of all before, show a group or
    /// none.
    pub(crate) fn show(
        &mut self,
        first: usize,
        end: usize,
        group: Option<GroupId>,
    ) -> Result<(), Memory>
        requires { first < end }
        ensures { IfOk result
            (λ _. (rest : List Span) → chained self.new rest
            ≡ chained self.old (joined_run (end - first) first group rest)) }
    {
        match group {
            None => Ok(()),
            Some(group) => match self.growing {
                None => {
                    self.growing = Some(span_of(first, end - 1, group));
                    Ok(())
                }
                Some(span) => {
                    if adjoins(span, first, group) {
                        self.growing = Some(span_of(span.first, end - 1, group));
                        return Ok(());
                    }
                    self.done.push(span)?;
                    self.growing = Some(span_of(first, end - 1, group));
                    Ok(())
                }
            },
        }
    }

    /// All spans, at the line's end.
    pub(crate) fn finish(self) -> Result<List<Span>, Memory>
        ensures { IfOk result (λ spans. spans ≡ chained self []) }
    {
        let Spans { done, growing } = self;
        let mut spans = done;
        match growing {
            None => Ok(spans),
            Some(span) => {
                spans.push(span)?;
                Ok(spans)
            }
        }
    }
}
