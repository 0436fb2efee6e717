//! The match of a way that an attempt has found.
ghost use Rattle.std.specs.Prelude.{◌≡◌, List, map, replicate, None, IfOk, IsTrue};
ghost use Rattle.match_rules.specs.Ways.{Text, Capture, way_from};
ghost use Rattle.match_rules.specs.Attempt.{not_before, external_of, externals_of};
ghost use Rattle.pattern_match.specs.Ways.{found_way, way_noted};
ghost use Rattle.pattern_match.specs.Answers.{match_of};

use crate::answer::{Caps, GROUPS, Match};
use crate::walks::part_of_line;
use crate::ways::{FoundWay, Note, Ways, way_with};
use std::alloc::Global;
use syn_base::{Externals, Lines, List, Memory, Place};

/// The match of the present way, which was found from a start.
pub(crate) fn found_match<T: Lines, I: Copy>(
    alloc: Global,
    lines: &T,
    start: Place,
    ways: &Ways<I>,
) -> Result<Match, Memory>
    ensures { IfOk result (λ found. found ≡ match_of (T.lines lines.now) start ways.now.here.way) }
{
    if ways.has_no_notes() {
        plain_match(alloc, start, ways.place())
    } else {
        noted_match(alloc, lines, start, &ways.way())
    }
}

/// The match of a way that was seen from a start, with what was noted on it, the last note first.
pub(crate) fn seen_match<T: Lines>(
    alloc: Global,
    lines: &T,
    start: Place,
    at: Place,
    notes: &[Note],
) -> Result<Match, Memory>
    ensures { IfOk result (λ found. found ≡ match_of (T.lines lines.now) start
        (way_noted (way_from start) notes.now at)) }
{
    if notes.is_empty() {
        plain_match(alloc, start, at)
    } else {
        noted_match(alloc, lines, start, &way_with(at, notes))
    }
}

/// The match of a way that noted nothing. It takes no memory.
pub(crate) fn plain_match(alloc: Global, start: Place, at: Place) -> Result<Match, Memory>
    ensures { (t : Text) → IfOk result (λ found. found ≡ match_of t start (way_from at)) }
{
    Ok(Match {
        from: start,
        to: not_before(start, at),
        caps: Caps::none(),
        externals: Externals::none(alloc)?,
    })
}

/// The match of a way with all that it noted.
fn noted_match<T: Lines>(
    alloc: Global,
    lines: &T,
    start: Place,
    way: &FoundWay,
) -> Result<Match, Memory>
    ensures { IfOk result (λ found. found ≡ match_of (T.lines lines.now) start
        (found_way way.now)) }
{
    let from = way.start.unwrap_or(start);
    let to = not_before(from, way.stop.unwrap_or(way.at));
    Ok(Match {
        from,
        to,
        caps: caps_of(alloc, &way.captures)?,
        externals: externals_of(alloc, lines, &way.externals)?,
    })
}

/// The end of a match, or its beginning where that comes later.
fn not_before(from: Place, to: Place) -> Place
    ensures { result ≡ not_before from to }
{
    if to < from { from } else { to }
}

/// Whether no group matched.
fn are_none(groups: &[Option<(Place, Place)>; GROUPS]) -> bool
    ensures { IsTrue result → groups.now ≡ replicate 9 None }
{
    for group in groups {
        if group.is_some() {
            return false;
        }
    }
    true
}

/// The places of counted groups. It takes no memory where none matched.
fn caps_of(alloc: Global, groups: &[Option<(Place, Place)>; GROUPS]) -> Result<Caps, Memory>
    ensures { IfOk result (λ caps. caps ≡ groups.now) }
{
    if are_none(groups) {
        Ok(Caps::none())
    } else {
        Caps::new(alloc, *groups)
    }
}

/// The texts of external groups. It takes no memory where none matched.
fn externals_of<T: Lines>(
    alloc: Global,
    lines: &T,
    groups: &[Option<(Place, Place)>; GROUPS],
) -> Result<Externals, Memory>
    ensures { IfOk result (λ texts. texts ≡ map (external_of (T.lines lines.now)) groups.now) }
{
    if are_none(groups) {
        return Externals::none(alloc);
    }
    let mut texts = List::new(alloc);
    for group in groups {
        texts.push(external_of(alloc, lines, *group)?)?;
    }
    Ok(Externals::from_parts(texts))
}

/// The text of an external group: empty where it goes over a line end, or didn't match.
fn external_of<T: Lines>(
    alloc: Global,
    lines: &T,
    group: Option<(Place, Place)>,
) -> Result<List<char>, Memory>
    ensures { IfOk result (λ text. text ≡ external_of (T.lines lines.now) group) }
{
    match group {
        Some((from, to)) if from.line == to.line => {
            List::from_slice(alloc, part_of_line(lines, from, to.col))
        }
        _ => Ok(List::new(alloc)),
    }
}
