//! How many lines a text has with its matches replaced, before anything is made.
ghost use Rattle.std.specs.Prelude.{◌≡◌, ◌+◌, ◌∷◌, length, IfOk};
ghost use Rattle.match_rules.specs.Ways.{place};
ghost use Rattle.ex_substitute.specs.Glyphs.{between};
ghost use Rattle.ex_substitute.specs.LineCount as spec;

use crate::ExError;
use crate::limits::MOST_LINES;
use crate::pen::group_of;
use crate::string::Piece;
use pattern_match::Match;
use std::alloc::Global;
use syn_base::{Lines, List, Memory, Place};

/// How many groups a string can name, the whole match among them.
const GROUPS: u8 = 10;

/// How often a string has a break, and each of the groups that it can name.
#[derive(Drop)]
pub(crate) struct Tally {
    pub breaks: usize,
    pub groups: List<usize>,
}

fn is_break(piece: Piece) -> bool
    ensures { result ≡ spec.is_break piece }
{
    match piece {
        Piece::Break => true,
        _ => false,
    }
}

fn is_group(number: u8, piece: Piece) -> bool
    ensures { result ≡ spec.is_group number piece }
{
    match piece {
        Piece::Group(k) => k == number,
        _ => false,
    }
}

fn break_times(string: &[Piece]) -> usize
    ensures { result ≡ spec.break_times string.now }
{
    let mut times: usize = 0;
    for piece in string {
        if is_break(*piece) {
            times += 1;
        }
    }
    times
}

fn group_times(number: u8, string: &[Piece]) -> usize
    ensures { result ≡ spec.group_times number string.now }
{
    let mut times: usize = 0;
    for piece in string {
        if is_group(number, *piece) {
            times += 1;
        }
    }
    times
}

/// How often a string has a break, and each group.
pub(crate) fn tally_of(alloc: Global, string: &[Piece]) -> Result<Tally, Memory>
    ensures { IfOk result (spec.IsTallyOf string.now) }
{
    let mut groups = List::new(alloc);
    for number in 0..GROUPS {
        groups.push(group_times(number, string))?;
    }
    let breaks = break_times(string);
    Ok(Tally { breaks, groups })
}

/// A count with more, up to the most lines of a text.
fn added(count: usize, more: usize) -> Result<usize, ExError>
    ensures { spec.Sums result (count + more) }
{
    if count > MOST_LINES || more > MOST_LINES - count {
        return Err(ExError::TooManyLines);
    }
    Ok(count + more)
}

/// How many breaks stand between two places of a text.
fn breaks_between<T: Lines>(lines: &T, from: Place, to: Place) -> usize
    ensures { result ≡ spec.breaks (between (T.lines lines.now) from to) }
{
    // There is no break behind the last line.
    let last = lines.len() - 1;
    to.line.min(last).saturating_sub(from.line)
}

/// How many breaks the text of a group has.
fn group_breaks<T: Lines>(lines: &T, m: &Match, number: u8) -> usize
    ensures { result ≡ spec.group_breaks (T.lines lines.now) m.now number }
{
    match group_of(m, number) {
        None => 0,
        Some((from, to)) => breaks_between(lines, from, to),
    }
}

/// A count with the breaks that a string puts for a match.
fn with_string<T: Lines>(
    lines: &T,
    tally: &Tally,
    m: &Match,
    count: usize,
) -> Result<usize, ExError>
    requires { length tally.now.groups ≡ 10 }
    ensures { spec.Sums result (count + spec.breaks_by tally.now (T.lines lines.now) m.now) }
{
    let mut count = added(count, tally.breaks)?;
    for number in 0..GROUPS {
        let times = *tally.groups.get(number as usize);
        let breaks = group_breaks(lines, m, number);
        count = added(count, times.saturating_mul(breaks))?;
    }
    Ok(count)
}

/// A count with the breaks between a place and a match's end, as they are replaced.
fn with_match<T: Lines>(
    lines: &T,
    tally: &Tally,
    from: Place,
    m: &Match,
    count: usize,
) -> Result<usize, ExError>
    requires { length tally.now.groups ≡ 10 }
    ensures { spec.Sums result (count + (spec.breaks (between (T.lines lines.now) from m.now.from)
        + spec.breaks_by tally.now (T.lines lines.now) m.now)) }
{
    let count = added(count, breaks_between(lines, from, m.from))?;
    with_string(lines, tally, m, count)
}

/// A count with the breaks between two places, as the matches are replaced.
fn with_matches<T: Lines>(
    lines: &T,
    tally: &Tally,
    found: &[Match],
    from: Place,
    to: Place,
    count: usize,
) -> Result<usize, ExError>
    requires { length tally.now.groups ≡ 10 }
    ensures { spec.Sums result
        (count + spec.all_breaks tally.now (T.lines lines.now) from found.now to) }
{
    let mut count = count;
    let mut at = from;
    for m in found {
        count = with_match(lines, tally, at, m, count)?;
        at = m.to;
    }
    added(count, breaks_between(lines, at, to))
}

/// How many lines a text has, of which some are kept, and the others are made anew from the line of the
/// first match on up to a place.
pub(crate) fn count_lines<T: Lines>(
    lines: &T,
    tally: &Tally,
    first: &Match,
    rest: &[Match],
    to: Place,
    kept: usize,
) -> Result<usize, ExError>
    requires { length tally.now.groups ≡ 10 }
    ensures { spec.Sums result (kept + 1 + spec.all_breaks tally.now (T.lines lines.now)
        (place first.now.from.line 0) (first.now ∷ rest.now) to) }
{
    let from = Place {
        line: first.from.line,
        col: 0,
    };
    let count = added(kept, 1)?;
    let count = with_match(lines, tally, from, first, count)?;
    with_matches(lines, tally, rest, first.to, to, count)
}
