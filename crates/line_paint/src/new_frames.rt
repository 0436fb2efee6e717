//! The frames that a start pushes.
ghost use Rattle.std.specs.Prelude.{◌≡◌, ◌<◌, ◌∷◌, length, reverse, IfOk};
ghost use Rattle.line_paint.specs.Common.{word_frame, between, match_frame, body_from, body_high, body_frame, area_frame, body_with_end, pushed, Gives, plain_frame, place_at, no_externals};

use crate::ends::put_end;
use crate::spots::spot_of;
use crate::{Site, Stop};
use paint_rules::{Part, RegionEnd, Spot, Which};
use pattern_match::Match;
use region_ends::{earlier_place, later_place};
use state_stack::{Frame, MOST_FRAMES, Stack};
use std::alloc::Global;
use std::rc::Rc;
use syn_base::{Externals, GroupId, ItemId, Memory, Place};
use syntax_set::Pattern;

/// The stack with a frame on top, or too deep.
pub(crate) fn pushed(alloc: Global, stack: &Stack, frame: Frame) -> Result<Stack, Stop>
    ensures frames { IfOk result (λ s. reverse s ≡ frame ∷ reverse stack.now) }
    ensures gives { Gives reverse result (pushed frame (reverse stack.now)) }
{
    if stack.len() == MOST_FRAMES {
        return Err(Stop::TooDeep);
    }
    Ok(stack.with_top(alloc, frame)?)
}

/// A frame of an item, with nothing known.
fn plain_frame<S: Site>(site: &S, item: ItemId) -> Result<Frame, Memory>
    requires { item.0 < length (S.here site.now).rules.items }
    ensures { IfOk result (λ f. f ≡ plain_frame (S.here site.now) item) }
{
    let externals = site.no_externals().clone()?;
    Ok(Frame {
        item,
        part: Part::Body,
        shows: site.item(item).group,
        known_end: None,
        high_from: Spot::Past,
        high_to: None,
        area_end: None,
        area_high: None,
        area_shows: None,
        search: Spot::Past,
        externals,
    })
}

/// The frame of a keyword up to its word's end.
pub(crate) fn word_frame<S: Site>(
    site: &S,
    c: usize,
    item: ItemId,
    end: usize,
) -> Result<Frame, Memory>
    requires { item.0 < length (S.here site.now).rules.items }
    ensures { IfOk result (λ f. f ≡ word_frame (S.here site.now) c item end) }
{
    let mut frame = plain_frame(site, item)?;
    frame.part = Part::Keyword;
    frame.known_end = Some(Spot::At { ahead: 0, col: end });
    frame.high_from = Spot::At { ahead: 0, col: c };
    frame.high_to = Some(Spot::At { ahead: 0, col: end });
    frame.search = Spot::At { ahead: 0, col: c };
    Ok(frame)
}

/// A pattern of an item that matched.
#[derive(Clone, Copy)]
pub(crate) struct Matched<'a> {
    pub item: ItemId,
    pub pattern: &'a Pattern,
    pub m: &'a Match,
}

/// A place kept within the body.
fn between(from: Place, to: Place, place: Place) -> Place
    ensures { result ≡ between from to place }
{
    earlier_place(later_place(place, from), to)
}

fn start_place<S: Site>(site: &S, c: usize) -> Place
    ensures { result ≡ place_at (S.here site.now).line c }
{
    Place {
        line: site.line(),
        col: c,
    }
}

/// The body of a match.
pub(crate) fn match_frame<S: Site>(site: &S, c: usize, by: &Matched) -> Result<Frame, Memory>
    requires { by.now.item.0 < length (S.here site.now).rules.items }
    ensures { IfOk result
        (λ f. f ≡ match_frame (S.here site.now) c by.now.item by.now.pattern.now by.now.m.now) }
{
    let start = start_place(site, c);
    let me = site.offset_place(by.m, by.pattern, Which::Me);
    let from = between(start, me, site.offset_place(by.m, by.pattern, Which::Hs));
    let to = between(start, me, site.offset_place(by.m, by.pattern, Which::He));
    let mut frame = plain_frame(site, by.item)?;
    frame.known_end = Some(spot_of(site, me));
    frame.high_from = spot_of(site, from);
    frame.high_to = Some(spot_of(site, to));
    frame.search = Spot::At { ahead: 0, col: c };
    Ok(frame)
}

/// Where a region's body begins.
fn body_from<S: Site>(site: &S, c: usize, by: &Matched) -> Place
    ensures { result ≡ body_from (S.here site.now) c by.now.pattern.now by.now.m.now }
{
    later_place(
        site.offset_place(by.m, by.pattern, Which::Rs),
        start_place(site, c),
    )
}

/// Where the highlight of a region's body begins.
fn body_high<S: Site>(site: &S, c: usize, by: &Matched) -> Place
    ensures { result ≡ body_high (S.here site.now) c by.now.pattern.now by.now.m.now }
{
    match by.pattern.matchgroup {
        Some(_) => body_from(site, c, by),
        None => later_place(
            site.offset_place(by.m, by.pattern, Which::Hs),
            start_place(site, c),
        ),
    }
}

/// The body of a region, before its end is known and its externals are set.
pub(crate) fn open_body<S: Site>(site: &S, c: usize, by: &Matched) -> Result<Frame, Memory>
    requires { by.now.item.0 < length (S.here site.now).rules.items }
    ensures { IfOk result
        (λ f. f ≡ record
        (body_frame (S.here site.now) c by.now.item by.now.pattern.now by.now.m.now)
        { externals = no_externals }) }
{
    let mut frame = plain_frame(site, by.item)?;
    frame.high_from = spot_of(site, body_high(site, c, by));
    frame.search = spot_of(site, by.m.to);
    Ok(frame)
}

/// The start area of a region, before its externals are set.
pub(crate) fn open_area<S: Site>(
    site: &S,
    c: usize,
    by: &Matched,
    group: GroupId,
) -> Result<Frame, Memory>
    requires { by.now.item.0 < length (S.here site.now).rules.items }
    ensures { IfOk result
        (λ f. f ≡ record
        (area_frame (S.here site.now) c by.now.item by.now.pattern.now by.now.m.now group)
        { externals = no_externals }) }
{
    let mut frame = plain_frame(site, by.item)?;
    frame.part = Part::StartArea;
    frame.shows = group;
    frame.known_end = Some(spot_of(site, body_from(site, c, by)));
    frame.high_from = spot_of(site, site.offset_place(by.m, by.pattern, Which::Hs));
    frame.search = spot_of(site, by.m.to);
    Ok(frame)
}

/// The externals of a match, for its frames to share: where it has none, those of the line.
pub(crate) fn shared<S: Site>(site: &S, m: Match) -> Result<Rc<Externals>, Memory>
    ensures { IfOk result (λ r. r.value ≡ m.externals) }
{
    let Match { externals, .. } = m;
    if externals.same(site.no_externals()) {
        return shared_again(site.no_externals());
    }
    Ok(Rc::new(site.alloc(), externals)?)
}

pub(crate) fn shared_again(externals: &Rc<Externals>) -> Result<Rc<Externals>, Memory>
    ensures { IfOk result (λ r. r.value ≡ externals.now.value) }
{
    Ok(externals.clone()?)
}

/// A frame with these externals.
pub(crate) fn with_externals(frame: Frame, externals: Rc<Externals>) -> Frame
    ensures { result ≡ record frame { externals = externals.value } }
{
    let mut frame = frame;
    frame.externals = externals;
    frame
}

/// A body with the end that its start has found.
pub(crate) fn body_ended<S: Site>(
    site: &S,
    body: Frame,
    end: Option<RegionEnd>,
) -> Result<Frame, Memory>
    requires { (body.item).0 < length (S.here site.now).rules.items }
    ensures is { IfOk result (λ f. f ≡ body_with_end (S.here site.now) body end) }
    ensures item { IfOk result (λ f. f.item ≡ body.item) }
{
    match end {
        None => Ok(body),
        Some(_) => {
            let mut ended = body;
            put_end(site, &mut ended, end);
            Ok(ended)
        }
    }
}
