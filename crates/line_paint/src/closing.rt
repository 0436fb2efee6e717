//! What becomes of the top frame at a place (`:syn-matchgroup`, `:syn-nextgroup`,
//! `:syn-excludenl`).
ghost use Rattle.std.specs.Prelude.{◌≡◌, ◌<◌, ◌∷◌, ◌&&◌, ◌||◌, false, length, reverse, IfOk, None};
ghost use Rattle.std.specs.List.{list_any};
ghost use Rattle.line_paint.specs.Common.{this_line, has_keepend, is_region_body, is_reached, goes_beyond, closing_of, closing_on, end_area_of, waiting_after, frames_after, line_end_counts, has_line_end, is_region_body_on, container_goes_on, closing, AnewComes, anew_if, Fits, WaitFits, FramesCome, MaySearch};

use crate::ends::{Occasion, is_region_body};
use crate::frames::top_searched;
use crate::kinds::{may_search, none_keeps};
use crate::spots::{goes_beyond, is_reached};
use crate::{Site, Stop};
use item_pick::PickMemory;
use paint_rules::{Part, Spot, Waiting};
use region_ends::{earlier_end, kept_end_over};
use state_stack::{Frame, Stack};
use std::alloc::Global;
use syn_base::{ItemId, Looked, Memory};
use syntax_set::{ItemKind, Pattern};

/// What becomes of the top frame at a place.
#[derive(Clone, Copy, Debug, PartialEq, Eq)]
pub(crate) enum Closing {
    Stays,
    BecomesArea,
    Leaves,
    LeavesArea,
}

fn becomes_area<S: Site>(site: &S, place: Spot, top: &Frame) -> bool
    requires { (top.now.item).0 < length (S.here site.now).rules.items }
    ensures { result ≡ (is_region_body (S.here site.now).rules top.now && is_reached place
        top.now.known_end && goes_beyond place top.now.area_end) }
{
    is_region_body(site, top)
        && is_reached(place, top.known_end)
        && goes_beyond(place, top.area_end)
}

/// What becomes of the top frame at a place.
fn closing_of<S: Site>(site: &S, place: Spot, top: &Frame, below: &Stack) -> Closing
    requires is_item { (top.now.item).0 < length (S.here site.now).rules.items }
    requires fits { Fits (length (S.here site.now).rules.items) (reverse below.now) }
    ensures { closing result
        ≡ closing_of (S.here site.now).rules place top.now (reverse below.now) }
{
    if !is_reached(place, kept_end_over(site.items(), top, below)) {
        return Closing::Stays;
    }
    if becomes_area(site, place, top) {
        return Closing::BecomesArea;
    }
    match top.part {
        Part::StartArea => Closing::LeavesArea,
        _ => Closing::Leaves,
    }
}

/// What becomes of the top frame of a stack at a column; it stays where closing is over for the line.
pub(crate) fn closing_on<S: Site>(site: &S, c: usize, is_over: bool, stack: &Stack) -> Closing
    requires { Fits (length (S.here site.now).rules.items) (reverse stack.now) }
    ensures { closing result ≡ closing_on (S.here site.now) c is_over (reverse stack.now) }
{
    if is_over {
        return Closing::Stays;
    }
    match stack.top_and_below() {
        None => Closing::Stays,
        Some((top, below)) => closing_of(site, Spot::At { ahead: 0, col: c }, top, below),
    }
}

/// The end area of a region body, from a place on, over what lies below.
pub(crate) fn area_on(
    alloc: Global,
    place: Spot,
    top: &Frame,
    below: &Stack,
) -> Result<Stack, Memory>
    requires { length below.now < 1000 }
    ensures { IfOk result (λ s. reverse s ≡ end_area_of place top.now ∷ reverse below.now) }
{
    let area = end_area_of(place, top)?;
    below.with_top(alloc, area)
}

fn end_area_of(place: Spot, body: &Frame) -> Result<Frame, Memory>
    ensures { IfOk result (λ f. f ≡ end_area_of place body.now) }
{
    let mut area = body.copied()?;
    area.part = Part::EndArea;
    area.shows = body.area_shows.unwrap_or(body.shows);
    area.known_end = body.area_end;
    area.high_from = place;
    area.high_to = earlier_end(body.area_high, body.area_end);
    Ok(area)
}

/// The wait for an item's nextgroup, if it has one and may go on.
pub(crate) fn waiting_after<S: Site>(site: &S, c: usize, item: ItemId) -> Option<Waiting>
    requires { item.0 < length (S.here site.now).rules.items }
    ensures is { result ≡ waiting_after (S.here site.now).rules (this_line (S.here site.now)) c
        item }
    ensures fits { WaitFits (length (S.here site.now).rules.items) result }
{
    let rules = site.item(item);
    if rules.nextgroup.is_some() && (c != site.len() || rules.skipnl || rules.skipempty) {
        Some(Waiting { item, fresh: true })
    } else {
        None
    }
}

/// What frames under one that was popped become, and whether the top is over a `keepend`; where it
/// isn't, all stay.
#[derive(Drop)]
struct Anew {
    frames: Option<Stack>,
    over: bool,
}

fn untouched() -> Anew
    ensures { result ≡ record { frames = None; over = false } }
{
    Anew {
        frames: None,
        over: false,
    }
}

/// Whether a frame is of an item with `keepend`, or something else holds.
fn keeps_or<S: Site>(site: &S, top: &Frame, other: bool) -> bool
    requires { (top.now.item).0 < length (S.here site.now).rules.items }
    ensures { result ≡ (other || has_keepend (S.here site.now).rules.items top.now) }
{
    other || site.item(top.item).keepend
}

/// The frames under one that was popped, if they are to search: from the last one with `extend` on,
/// those with `keepend` and those above such a one search anew, the bottom one first.
fn anew_over_keepend<S: Site>(
    site: &S,
    memory: &mut PickMemory,
    c: usize,
    wanted: bool,
    stack: &Stack,
    looked: &mut Looked,
) -> Result<Anew, Stop>
    requires may { MaySearch S.here S.stands site.now memory.old stack.now }
    ensures comes { AnewComes (reverse stack.now) result looked.old looked.new
        (anew_if (S.here site.now) c wanted (reverse stack.now)) }
    ensures stay { IfOk result (λ a. a.over ≡ false → a.frames ≡ None) }
    ensures memory { S.stands site.now memory.new }
{
    if !wanted {
        return Ok(untouched());
    }
    match stack.top_and_below() {
        None => Ok(untouched()),
        Some((top, below)) => {
            let wanted = !site.item(top.item).extend;
            let rest = anew_over_keepend(site, memory, c, wanted, below, looked)?;
            let over = keeps_or(site, top, rest.over);
            if !over {
                return Ok(untouched());
            }
            let on = Occasion::OverKeepend(c);
            let frames = top_searched(site, memory, on, stack, rest.frames, looked)?;
            Ok(Anew { frames, over })
        }
    }
}

/// What the frames become from which one was popped: the exposed one searches, unless it has
/// searched over a `keepend`. None where they stay.
pub(crate) fn frames_after<S: Site>(
    site: &S,
    memory: &mut PickMemory,
    c: usize,
    popped: &Frame,
    below: &Stack,
    looked: &mut Looked,
) -> Result<Option<Stack>, Stop>
    requires may { MaySearch S.here S.stands site.now memory.old below.now }
    requires is_item { (popped.now.item).0 < length (S.here site.now).rules.items }
    ensures comes { FramesCome (reverse below.now) result looked.old looked.new
        (frames_after (S.here site.now) c popped.now (reverse below.now)) }
    ensures memory { S.stands site.now memory.new }
{
    let wanted = may_search(site, site.item(popped.item).extend, below);
    if !wanted {
        return top_searched(site, memory, Occasion::Exposed(c), below, None, looked);
    }
    let anew = anew_over_keepend(site, memory, c, wanted, below, looked)?;
    if anew.over {
        return Ok(anew.frames);
    }
    top_searched(site, memory, Occasion::Exposed(c), below, None, looked)
}

fn line_end_counts(pattern: &Pattern) -> bool
    ensures { result ≡ line_end_counts pattern.now }
{
    pattern.tree.line_end && !pattern.excludenl
}

fn any_line_end(patterns: &[Pattern]) -> bool
    ensures { result ≡ list_any line_end_counts patterns.now }
{
    patterns.iter().any(|pattern| line_end_counts(pattern))
}

/// Whether a line end in one of an item's patterns counts.
fn has_line_end(kind: &ItemKind) -> bool
    ensures { result ≡ has_line_end kind.now }
{
    match kind {
        ItemKind::Keyword => false,
        ItemKind::Match(pattern) => line_end_counts(pattern),
        ItemKind::Region { ends, .. } => any_line_end(ends.as_slice()),
    }
}

/// Whether the item of some frame has `keepend`.
fn keepend_among<S: Site>(site: &S, stack: &Stack) -> bool
    requires { Fits (length (S.here site.now).rules.items) (reverse stack.now) }
    ensures { result ≡ list_any (has_keepend (S.here site.now).rules.items) (reverse stack.now) }
{
    match stack.top_and_below() {
        None => false,
        Some((top, below)) => site.item(top.item).keepend || keepend_among(site, below),
    }
}

fn is_region_body_on<S: Site>(site: &S, stack: &Stack) -> bool
    requires { Fits (length (S.here site.now).rules.items) (reverse stack.now) }
    ensures { result ≡ is_region_body_on (S.here site.now).rules (reverse stack.now) }
{
    match stack.top_and_below() {
        None => false,
        Some((top, _)) => is_region_body(site, top),
    }
}

/// Whether the container goes on past the line's end, so that closing is over for this line. No frame
/// is walked for `keepend` where their kinds rule it out.
#[tactic(auto, using(crate::proofs::KindLaws::unkept_none))]
pub(crate) fn container_goes_on<S: Site>(site: &S, c: usize, popped: &Frame, below: &Stack) -> bool
    requires is_item { (popped.now.item).0 < length (S.here site.now).rules.items }
    requires fits { Fits (length (S.here site.now).rules.items) (reverse below.now) }
    ensures { result ≡ container_goes_on (S.here site.now).rules (this_line (S.here site.now)) c
        popped.now (reverse below.now) }
{
    has_line_end(&site.item(popped.item).kind)
        && (none_keeps(site, below) || !keepend_among(site, below))
        && is_region_body_on(site, below)
        && c == site.len()
}
