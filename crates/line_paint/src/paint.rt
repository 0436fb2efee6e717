//! Painting a line.
ghost use Rattle.std.specs.Prelude.{◌≡◌, ◌<◌, ◌≤◌, ◌+◌, ℕ, [], length, drop, reverse, pos, IfOk, Some};
ghost use Rattle.line_paint.specs.Common.{one_line, moved_by, IsFromColumn, this_line, line_start, at_col, painted_from, painted_line, standing_of, IsAt, at_of, ComesAs, Paints, PaintedAs, painted_rest, looked_first, IsQuiet, ShowsOver, Fits, StateFits, top_first};
ghost use Rattle.line_paint.specs.declared.paint.PaintError.TheVariants as cause;

use crate::frames::stack_or;
use crate::line_start::line_start;
use crate::shown::{Stretch, shown_from};
use crate::spans::Spans;
use crate::standing::Standing;
use crate::staying::quiet_until;
use crate::{Site, Stop};
use item_pick::PickMemory;
use state_stack::{Stack, State};
use std::alloc::Global;
use syn_base::{ItemId, List, Looked, Memory, Span};

/// Why a line is not painted, and the column where that came up.
#[derive(Clone, Copy, Debug, PartialEq, Eq)]
pub enum PaintError {
    /// An attempt of one of an item's patterns costs more than the budget.
    TooCostly { col: usize, item: ItemId },
    /// What starts would stand on as many frames as a stack may have.
    TooDeep { col: usize },
    Memory,
}

impl From<Memory> for PaintError {
    ghost from_gives = { λ _ e. e ≡ cause.Memory };

    fn from(_refused: Memory) -> PaintError {
        PaintError::Memory
    }
}

/// A painted line. Its spans stand from the left, each as long as it can be, and a character that
/// shows no group is in none.
#[derive(Drop)]
pub struct LineNote {
    pub before: State,
    pub spans: List<Span>,
    /// Counted from this line, as `before` is.
    pub after: State,
    /// Counted from this line, which has the number 0.
    pub looked: Looked,
}

pub(crate) fn at(stop: Stop, col: usize) -> PaintError
    ensures { result ≡ at_of stop col }
{
    match stop {
        Stop::TooCostly(item) => PaintError::TooCostly { col, item },
        Stop::TooDeep => PaintError::TooDeep { col },
        Stop::Memory => PaintError::Memory,
    }
}

/// The columns of a line, the first one first, and the characters that stand there; at the line's end
/// none does.
fn columns<S: Site>(
    site: &S,
    memory: &mut PickMemory,
    standing: &mut Standing,
) -> Result<List<Span>, PaintError>
    requires memory { S.stands site.now memory.old }
    requires at { IsAt (S.here site.now) 0 standing.old }
    ensures painted { Paints result standing.old standing.new
        (painted_from (S.here site.now) 0 (this_line (S.here site.now))
        (standing_of standing.old)) }
    ensures memory { S.stands site.now memory.new }
    ensures fits { IfOk result
        (λ _. StateFits (length (S.here site.now).rules.items) (top_first standing.new.state)) }
{
    let len = site.len();
    let mut spans = Spans::new(site.alloc());
    let mut c = 0;
    'columns: while c < len {
        standing.column(site, memory, c)?;
        let stretch = shown_from(site, c, &standing.state.stack);
        let next = c + 1;
        spans.show(c, next, stretch.group)?;
        standing.forget_tried(site.alloc());
        let to = quiet_until(site, memory, next, standing)?;
        show_quiet(site, standing, &mut spans, stretch, next, to)?;
        c = to;
    }
    standing.column(site, memory, c)?;
    Ok(spans.finish()?)
}

/// The characters of quiet columns, which show what stands open and change nothing else.
fn show_quiet<S: Site>(
    site: &S,
    standing: &Standing,
    spans: &mut Spans,
    stretch: Stretch,
    from: usize,
    to: usize,
) -> Result<(), Memory>
    requires order { from ≤ to }
    requires within { to ≤ length (this_line (S.here site.now)) }
    requires fits { Fits (length (S.here site.now).rules.items) (reverse standing.now.state.stack) }
    requires shows { ShowsOver (S.here site.now).rules (reverse standing.now.state.stack) from
        stretch }
    requires quiet { (d : ℕ) → from ≤ d → d < to
        → IsQuiet (S.here site.now) standing.now.looked d (standing_of standing.now) }
    ensures { IfOk result
        (λ _. looked_first (Some standing.now.looked)
        (painted_rest (S.here site.now) from (drop from (this_line (S.here site.now)))
        (standing_of standing.now) spans.old)
        ≡ looked_first (Some standing.now.looked)
        (painted_rest (S.here site.now) to (drop to (this_line (S.here site.now)))
        (standing_of standing.now) spans.new)) }
{
    let mut c = from;
    let mut stretch = stretch;
    'quiet: while c < to {
        stretch = stretch.at(site, c, &standing.state.stack);
        let end = to.min(stretch.until);
        spans.show(c, end, stretch.group)?;
        c = end;
    }
    Ok(())
}

/// The stack at the start of a line.
#[tactic(auto, using(crate::proofs::LineLaws::at_fails, crate::proofs::LineLaws::at_leads))]
fn first_stack<S: Site>(
    site: &S,
    memory: &mut PickMemory,
    stack: &Stack,
    looked: &mut Looked,
) -> Result<Stack, PaintError>
    requires memory { S.stands site.now memory.old }
    requires fits { Fits (length (S.here site.now).rules.items) (reverse stack.now) }
    ensures begins { ComesAs reverse result looked.old looked.new
        (at_col 0 (line_start (S.here site.now) (reverse stack.now))) }
    ensures fits { IfOk result (λ s. Fits (length (S.here site.now).rules.items) (reverse s)) }
    ensures memory { S.stands site.now memory.new }
{
    match line_start(site, memory, true, stack, looked) {
        Ok(anew) => Ok(stack_or(stack, anew)?),
        Err(stop) => Err(at(stop, 0)),
    }
}

/// The painted line alone.
fn own_line<S: Site>(site: &S) -> Looked
    ensures { result ≡ one_line (pos (S.here site.now).line) }
{
    Looked::one(site.line() as i64)
}

/// Paints a line from the state before it, by a memory of what starts.
pub(crate) fn painted_by<S: Site>(
    site: &S,
    memory: &mut PickMemory,
    before: &State,
) -> Result<LineNote, PaintError>
    requires memory { S.stands site.now memory.old }
    requires fits { StateFits (length (S.here site.now).rules.items) (top_first before.now) }
    ensures painted { PaintedAs result (S.here site.now).line before.now
        (painted_line (S.here site.now) (top_first before.now)) }
    ensures fits { IfOk result
        (λ note. StateFits (length (S.here site.now).rules.items) (top_first note.after)) }
    ensures spans { IfOk result
        (λ note. IsFromColumn 0 (length (this_line (S.here site.now))) note.spans) }
    ensures memory { S.stands site.now memory.new }
{
    let mut looked = own_line(site);
    let stack = first_stack(site, memory, &before.stack, &mut looked)?;
    let mut standing = Standing {
        state: State {
            stack,
            waiting: before.waiting,
        },
        floor: 0,
        tried: List::new(site.alloc()),
        is_over: false,
        looked,
    };
    let spans = columns(site, memory, &mut standing)?;
    let before = before.copy()?;
    let Standing { state, looked, .. } = standing;
    let looked = counted_here(site, looked)?;
    Ok(LineNote {
        before,
        spans,
        after: state,
        looked,
    })
}

/// The lines looked at, counted from the painted one. None of them is so far off that its number
/// leaves 64 bits, so this refuses nothing; it counts as want of memory, that nobody has to know.
fn counted_here<S: Site>(site: &S, looked: Looked) -> Result<Looked, Memory>
    ensures { IfOk result (λ here. looked ≡ moved_by here (pos (S.here site.now).line)) }
{
    let line = site.line() as i64;
    looked.low.checked_sub(line).ok_or(Memory)?;
    looked.high.checked_sub(line).ok_or(Memory)?;
    Ok(looked.moved(-line))
}
