//! The kept end of a frame (`:syn-keepend`, `:syn-extend`).
ghost use Rattle.std.specs.Prelude.{◌≡◌, ◌<◌, length, reverse};
ghost use Rattle.region_ends.specs.Common.{earlier_end, is_before, limit_of, limit_on, kept_end_over, item_of, Fits, keep_none, kept_end};

use paint_rules::{Part, Spot};
use state_stack::{Enders, Frame, Stack};
use syn_base::ItemId;
use syntax_set::{Item, ItemSet};

/// The item of a number, live or not.
pub fn item_of(items: &ItemSet, id: ItemId) -> &Item
    requires { id.0 < length items.now }
    ensures { result.now ≡ item_of items.now id }
{
    items.item(id)
}

/// The kept end of the frame at `i`, from the bottom: the first place where it ends, or a frame below
/// that keeps it in. None counts as later than every place.
pub fn kept_end(items: &ItemSet, stack: &Stack, i: usize) -> Option<Spot>
    requires within { i < length stack.now }
    requires fits { Fits (length items.now) (reverse stack.now) }
    ensures { result ≡ kept_end items.now stack.now i }
{
    match stack.top_and_below() {
        None => unreachable!(),
        Some((top, below)) => {
            if i == below.len() {
                kept_end_over(items, top, below)
            } else {
                kept_end(items, below, i)
            }
        }
    }
}

/// The kept end of a frame over these.
#[inline(always)]
pub fn kept_end_over(items: &ItemSet, top: &Frame, below: &Stack) -> Option<Spot>
    requires item { (top.now.item).0 < length items.now }
    requires fits { Fits (length items.now) (reverse below.now) }
    ensures { result ≡ kept_end_over items.now top.now (reverse below.now) }
{
    if item_of(items, top.item).extend {
        return earlier_end(top.known_end, None);
    }
    earlier_end(top.known_end, limit_on(items, below))
}

/// Whether an item has `keepend`; one that isn't there has none.
#[inline(always)]
fn keeps(items: &ItemSet, id: ItemId) -> bool
    ensures { result ≡ (item_of items.now id).keepend }
{
    (id.0 as usize) < items.added() && item_of(items, id).keepend
}

/// Whether none of the items of the frames with a known end has `keepend`.
#[inline(always)]
fn keep_none(items: &ItemSet, enders: Enders) -> bool
    ensures { result ≡ keep_none items.now enders }
{
    match enders {
        Enders::Nothing => true,
        Enders::One(a) => !keeps(items, a),
        Enders::Two(a, b) => !keeps(items, a) && !keeps(items, b),
        Enders::Three(a, b, c) => !keeps(items, a) && !keeps(items, b) && !keeps(items, c),
        Enders::Many => false,
    }
}

/// The end that the frames of a stack put to a frame above them. Mostly no item with `keepend` has a
/// frame with a known end among them, and then they aren't walked.
#[inline(always)]
#[tactic(auto, using(crate::proofs::LimitLaws::unkept_limits))]
fn limit_on(items: &ItemSet, stack: &Stack) -> Option<Spot>
    requires { Fits (length items.now) (reverse stack.now) }
    ensures { result ≡ limit_on items.now (reverse stack.now) }
{
    if keep_none(items, stack.enders()) {
        return None;
    }
    limit_by_frames(items, stack)
}

/// The same by a walk over the frames, down to where no item with `keepend` has one with a known end.
#[inline(never)]
#[tactic(auto, using(crate::proofs::LimitLaws::unkept_limits))]
fn limit_by_frames(items: &ItemSet, stack: &Stack) -> Option<Spot>
    requires { Fits (length items.now) (reverse stack.now) }
    ensures { result ≡ limit_on items.now (reverse stack.now) }
{
    if keep_none(items, stack.enders()) {
        return None;
    }
    match stack.top_and_below() {
        None => None,
        Some((top, below)) => {
            let limit = limit_of(items, top);
            if item_of(items, top.item).extend {
                return earlier_end(limit, None);
            }
            earlier_end(limit, limit_by_frames(items, below))
        }
    }
}

/// The end that a frame puts to the frames above it.
fn limit_of(items: &ItemSet, frame: &Frame) -> Option<Spot>
    requires { (frame.now.item).0 < length items.now }
    ensures { result ≡ limit_of items.now frame.now }
{
    if item_of(items, frame.item).keepend && frame.part != Part::StartArea {
        frame.known_end
    } else {
        None
    }
}

/// The earlier of two ends, where none counts as later than every place.
pub fn earlier_end(a: Option<Spot>, b: Option<Spot>) -> Option<Spot>
    ensures { result ≡ earlier_end a b }
{
    match a {
        None => b,
        Some(s) => match b {
            None => Some(s),
            Some(t) => Some(if is_before(t, s) { t } else { s }),
        },
    }
}

/// Whether a spot is before another one.
pub fn is_before(a: Spot, b: Spot) -> bool
    ensures { result ≡ is_before a b }
{
    match a {
        Spot::Past => match b {
            Spot::Past => false,
            Spot::At { ahead: _, col: _ } => true,
        },
        Spot::At { ahead, col } => match b {
            Spot::Past => false,
            Spot::At { ahead: k, col: c } => ahead < k || (ahead == k && col < c),
        },
    }
}
