//! The group that a character shows.
ghost use Rattle.std.specs.Prelude.{◌≡◌, ◌<◌, ◌≤◌, ◌^◌, ◌-◌, ℕ, None, length, reverse};
ghost use Rattle.line_paint.specs.Common.{At, is_clear, holds, is_reached, is_before, Fits, ShowsOver};

use crate::Site;
use crate::kinds::all_clear;
use crate::spots::is_reached;
use paint_rules::{Part, Spot};
use region_ends::is_before;
use state_stack::{Frame, Stack};
use syn_base::GroupId;

/// Whether a frame lets what lies below it show: a transparent body or keyword.
fn is_clear<S: Site>(site: &S, frame: &Frame) -> bool
    requires { (frame.now.item).0 < length (S.here site.now).rules.items }
    ensures { result ≡ is_clear (S.here site.now).rules frame.now frame.now.part }
{
    match frame.part {
        Part::StartArea => false,
        Part::EndArea => false,
        _ => site.item(frame.item).transparent,
    }
}

/// Whether a frame's highlight holds a place.
fn holds(place: Spot, frame: &Frame) -> bool
    ensures { result ≡ holds place frame.now }
{
    !is_before(place, frame.high_from) && !is_reached(place, frame.high_to)
}

/// What the characters of a stretch of columns show, from some column up to, and without, another.
#[derive(Clone, Copy)]
pub(crate) struct Stretch {
    pub group: Option<GroupId>,
    pub until: usize,
}

/// A column behind another one, up to which the same holds of a spot: whether it is before them.
fn next_change(c: usize, spot: Spot) -> usize
    requires { c < 2 ^ 64 - 1 }
    ensures behind { c < result }
    ensures same { (d : ℕ) → c ≤ d → d < result →
        is_before (At 0 d) spot ≡ is_before (At 0 c) spot }
{
    match spot {
        Spot::At { ahead: 0, col } if c < col => col,
        _ => usize::MAX,
    }
}

/// The same of an end: whether it is reached.
fn next_end(c: usize, end: Option<Spot>) -> usize
    requires { c < 2 ^ 64 - 1 }
    ensures behind { c < result }
    ensures same { (d : ℕ) → c ≤ d → d < result
        → is_reached (At 0 d) end ≡ is_reached (At 0 c) end }
{
    match end {
        None => usize::MAX,
        Some(spot) => next_change(c, spot),
    }
}

/// A column behind another one, up to which a frame's highlight holds what stands there as it does
/// at the first.
fn held_until(c: usize, frame: &Frame) -> usize
    requires { c < 2 ^ 64 - 1 }
    ensures behind { c < result }
    ensures same { (d : ℕ) → c ≤ d → d < result
        → holds (At 0 d) frame.now ≡ holds (At 0 c) frame.now }
{
    next_change(c, frame.high_from).min(next_end(c, frame.high_to))
}

/// What the characters from a column of the painted line on show, as far as it is the same and as
/// the frames say one by one.
fn stretch_among<S: Site>(site: &S, c: usize, stack: &Stack) -> Stretch
    requires column { c < 2 ^ 64 - 1 }
    requires fits { Fits (length (S.here site.now).rules.items) (reverse stack.now) }
    ensures behind { c < result.until }
    ensures shows { ShowsOver (S.here site.now).rules (reverse stack.now) c result }
{
    let place = Spot::At { ahead: 0, col: c };
    match stack.top_and_below() {
        None => shows_none(),
        Some((top, below)) => {
            if is_clear(site, top) {
                return stretch_among(site, c, below);
            }
            let until = held_until(c, top);
            if holds(place, top) {
                return Stretch {
                    group: Some(top.shows),
                    until,
                };
            }
            let rest = stretch_among(site, c, below);
            Stretch {
                group: rest.group,
                until: until.min(rest.until),
            }
        }
    }
}

/// Nothing is shown, from some column on.
fn shows_none() -> Stretch
    ensures { result ≡ record { group = None; until = 2 ^ 64 - 1 } }
{
    Stretch {
        group: None,
        until: usize::MAX,
    }
}

/// What those characters show. No frame is walked where their kinds say that each is clear.
#[tactic(auto, using(crate::proofs::KindLaws::clear_shows_none))]
pub(crate) fn shown_from<S: Site>(site: &S, c: usize, stack: &Stack) -> Stretch
    requires column { c < 2 ^ 64 - 1 }
    requires fits { Fits (length (S.here site.now).rules.items) (reverse stack.now) }
    ensures behind { c < result.until }
    ensures shows { ShowsOver (S.here site.now).rules (reverse stack.now) c result }
{
    if all_clear(site, stack) {
        return shows_none();
    }
    stretch_among(site, c, stack)
}

impl Stretch {
    /// The stretch that holds a column: this one, or one that begins there.
    pub(crate) fn at<S: Site>(self, site: &S, c: usize, stack: &Stack) -> Stretch
        requires column { c < 2 ^ 64 - 1 }
        requires fits { Fits (length (S.here site.now).rules.items) (reverse stack.now) }
        requires shows { ShowsOver (S.here site.now).rules (reverse stack.now) c self }
        ensures behind { c < result.until }
        ensures shows { ShowsOver (S.here site.now).rules (reverse stack.now) c result }
    {
        if c < self.until {
            self
        } else {
            shown_from(site, c, stack)
        }
    }
}
