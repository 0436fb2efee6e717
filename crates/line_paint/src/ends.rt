//! The searches of frames for their ends.
ghost use Rattle.std.specs.Prelude.{◌≡◌, ◌<◌, IfOk, IsTrue, None, Some, length, true};
ghost use Rattle.std.specs.Option.{option_map};
ghost use Rattle.line_paint.specs.Common.{is_region, is_region_body, with_end, SameEnds, search_col, is_open, line_end_if, search_column, searched, searched_from, searched_on, FrameComes, frame_or};

use crate::spots::spot_of;
use crate::{Site, Stop};
use item_pick::PickMemory;
use paint_rules::{Part, RegionEnd, Spot};
use region_ends::EndAnswer;
use state_stack::Frame;
use syn_base::{Looked, Memory};
use syntax_set::ItemKind;

/// Puts to a frame the end that its search found, or none.
pub(crate) fn put_end<S: Site>(site: &S, frame: &mut Frame, found: Option<RegionEnd>)
    requires { (frame.old.item).0 < length (S.here site.now).rules.items }
    ensures { frame.new ≡ with_end (S.here site.now) frame.old found }
{
    match found {
        Some(e) => {
            frame.known_end = Some(spot_of(site, e.end));
            frame.high_to = Some(spot_of(site, e.high_to));
            frame.area_end = e.area_end.map(|place| spot_of(site, place));
            frame.area_high = e.area_high.map(|place| spot_of(site, place));
            frame.area_shows = e.area_shows;
        }
        None => {
            frame.known_end = line_end_if(site, site.item(frame.item).oneline);
            frame.high_to = None;
            frame.area_end = None;
            frame.area_high = None;
            frame.area_shows = None;
        }
    }
}

fn line_end_if<S: Site>(site: &S, wanted: bool) -> Option<Spot>
    ensures { result ≡ line_end_if (S.here site.now) wanted }
{
    if wanted {
        Some(Spot::At {
            ahead: 0,
            col: site.len(),
        })
    } else {
        None
    }
}

/// Whether a frame is the body of a region.
pub(crate) fn is_region_body<S: Site>(site: &S, frame: &Frame) -> bool
    requires { (frame.now.item).0 < length (S.here site.now).rules.items }
    ensures { result ≡ is_region_body (S.here site.now).rules frame.now }
{
    frame.part == Part::Body && is_region(&site.item(frame.item).kind)
}

fn is_region(kind: &ItemKind) -> bool
    ensures { result ≡ is_region kind.now }
{
    match kind {
        ItemKind::Region { .. } => true,
        _ => false,
    }
}

/// Whether a search in vain leaves a frame as it is.
fn has_no_end<S: Site>(site: &S, frame: &Frame) -> bool
    requires { (frame.now.item).0 < length (S.here site.now).rules.items }
    ensures { IsTrue result → SameEnds frame.now (with_end (S.here site.now) frame.now None) }
{
    frame.high_to.is_none()
        && frame.area_end.is_none()
        && frame.area_high.is_none()
        && frame.area_shows.is_none()
        && frame.known_end == line_end_if(site, site.item(frame.item).oneline)
}

/// Whether a search that found an end leaves a frame as it is.
fn has_that_end<S: Site>(site: &S, frame: &Frame, e: RegionEnd) -> bool
    ensures { IsTrue result → SameEnds frame.now (with_end (S.here site.now) frame.now (Some e)) }
{
    frame.known_end == Some(spot_of(site, e.end))
        && frame.high_to == Some(spot_of(site, e.high_to))
        && frame.area_end == e.area_end.map(|place| spot_of(site, place))
        && frame.area_high == e.area_high.map(|place| spot_of(site, place))
        && frame.area_shows == e.area_shows
}

/// Whether a frame has the end that its search found, or none where it found none.
fn has_end<S: Site>(site: &S, frame: &Frame, found: Option<RegionEnd>) -> bool
    requires { (frame.now.item).0 < length (S.here site.now).rules.items }
    ensures { IsTrue result → SameEnds frame.now (with_end (S.here site.now) frame.now found) }
{
    match found {
        None => has_no_end(site, frame),
        Some(e) => has_that_end(site, frame, e),
    }
}

/// The frame with the end that its search found, or with none; none where it stays as it is. So a
/// stack in the midst of a long region stays from line to line.
#[tactic(auto, using(crate::proofs::SearchLaws::same_ends_stay))]
fn ended_anew<S: Site>(
    site: &S,
    frame: &Frame,
    found: Option<RegionEnd>,
) -> Result<Option<Box<Frame>>, Memory>
    requires { (frame.now.item).0 < length (S.here site.now).rules.items }
    ensures { IfOk result
        (λ f. frame_or frame.now (option_map (λ b. b.value) f)
        ≡ with_end (S.here site.now) frame.now found) }
{
    if has_end(site, frame, found) {
        return Ok(None);
    }
    let mut anew = frame.copied()?;
    put_end(site, &mut anew, found);
    Ok(Some(Box::new(site.alloc(), anew)?))
}

/// On which occasion a frame may search its end.
#[derive(Clone, Copy)]
pub(crate) enum Occasion {
    /// A line starts: the top searches, and those below it with `keepend`, where the end lies before
    /// the line or isn't known.
    LineStart { is_top: bool },
    /// The start area over a body was popped: it searches from its search place, where its end isn't
    /// known and that place lies in this line.
    UnderArea,
    /// A frame was popped at this column from over one with `keepend`, or from over frames above it.
    OverKeepend(usize),
    /// A frame was popped at this column: the exposed one searches where it has no `keepend`.
    Exposed(usize),
}

/// The column where a search begins: the frame's search place or this column, whichever is later;
/// none in a later line.
fn search_col(c: usize, search: Spot) -> Option<usize>
    ensures { result ≡ search_col c search }
{
    match search {
        Spot::Past => Some(c),
        Spot::At { ahead: 0, col } => Some(if c < col { col } else { c }),
        _ => None,
    }
}

/// The column from which a frame is to search on an occasion, if it is to.
fn search_column<S: Site>(site: &S, on: Occasion, frame: &Frame) -> Option<usize>
    requires { (frame.now.item).0 < length (S.here site.now).rules.items }
    ensures { result ≡ search_column (S.here site.now) on frame.now }
{
    match on {
        Occasion::LineStart { is_top } => {
            if (is_top || site.item(frame.item).keepend) && is_open(frame.known_end) {
                search_col(0, frame.search)
            } else {
                None
            }
        }
        Occasion::UnderArea => match (frame.known_end, frame.search) {
            (None, Spot::At { ahead: 0, col }) => Some(col),
            _ => None,
        },
        Occasion::OverKeepend(c) => search_col(c, frame.search),
        Occasion::Exposed(c) => {
            if site.item(frame.item).keepend {
                None
            } else {
                search_col(c, frame.search)
            }
        }
    }
}

/// The body of a region that searches its end in this line from a column; none where it stays.
#[inline(never)]
fn searched_at<S: Site>(
    site: &S,
    memory: &mut PickMemory,
    frame: &Frame,
    c: usize,
    looked: &mut Looked,
) -> Result<Option<Box<Frame>>, Stop>
    requires memory { S.stands site.now memory.old }
    requires is_item { (frame.now.item).0 < length (S.here site.now).rules.items }
    requires is_region { is_region_body (S.here site.now).rules frame.now ≡ true }
    ensures comes { FrameComes (λ b. b.value) frame.now result looked.old looked.new
        (searched (S.here site.now) frame.now c) }
    ensures memory { S.stands site.now memory.new }
{
    match site.find_end(memory, frame, c)? {
        EndAnswer::Ends(end, seen) => {
            *looked = looked.join(seen);
            Ok(ended_anew(site, frame, Some(end))?)
        }
        EndAnswer::NotHere(seen) => {
            *looked = looked.join(seen);
            Ok(ended_anew(site, frame, None)?)
        }
        EndAnswer::TooCostly => Err(Stop::TooCostly(frame.item)),
    }
}

/// A frame that searches its end in this line from a column, if there is one and it is the body of a
/// region; none where it stays.
fn searched_from<S: Site>(
    site: &S,
    memory: &mut PickMemory,
    frame: &Frame,
    from: Option<usize>,
    looked: &mut Looked,
) -> Result<Option<Box<Frame>>, Stop>
    requires memory { S.stands site.now memory.old }
    requires is_item { (frame.now.item).0 < length (S.here site.now).rules.items }
    ensures comes { FrameComes (λ b. b.value) frame.now result looked.old looked.new
        (searched_from (S.here site.now) frame.now from) }
    ensures memory { S.stands site.now memory.new }
{
    match from {
        Some(c) if is_region_body(site, frame) => searched_at(site, memory, frame, c, looked),
        _ => Ok(None),
    }
}

/// A frame that searches its end on an occasion, if it is to; none where it stays.
pub(crate) fn searched<S: Site>(
    site: &S,
    memory: &mut PickMemory,
    frame: &Frame,
    on: Occasion,
    looked: &mut Looked,
) -> Result<Option<Box<Frame>>, Stop>
    requires memory { S.stands site.now memory.old }
    requires is_item { (frame.now.item).0 < length (S.here site.now).rules.items }
    ensures comes { FrameComes (λ b. b.value) frame.now result looked.old looked.new
        (searched_on (S.here site.now) on frame.now) }
    ensures memory { S.stands site.now memory.new }
{
    let from = search_column(site, on, frame);
    searched_from(site, memory, frame, from, looked)
}

fn is_open(end: Option<Spot>) -> bool
    ensures { result ≡ is_open end }
{
    match end {
        Some(Spot::At { .. }) => false,
        _ => true,
    }
}
