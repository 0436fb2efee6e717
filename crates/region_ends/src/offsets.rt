//! The places that offsets name (`:syn-pattern-offset`).
ghost use Rattle.std.specs.Prelude.{◌≡◌, ℤ, pos, negsuc, ◌+ℤ◌, ◌≤ℤ◌, length};
ghost use Rattle.region_ends.specs.Common.{line_at, within_line, moved_in_line, offset_from, offset_place, later_place, earlier_place};

use paint_rules::Which;
use pattern_match::Match;
use syn_base::{Lines, Place};
use syntax_set::{Offset, Pattern};

/// The place of a match that an offset of its pattern names, or the one that counts where the pattern
/// has no such offset. It stays in the line that it counts from.
pub fn offset_place<T: Lines>(lines: &T, m: &Match, pattern: &Pattern, which: Which) -> Place
    ensures { result ≡ offset_place (T.lines lines.now) m.now pattern.now which }
{
    match which {
        Which::Ms => offset_from(lines, m, pattern.ms, 0, -1, m.from),
        Which::Hs => offset_from(lines, m, pattern.hs, 0, -1, m.from),
        Which::Me => offset_from(lines, m, pattern.me, 1, 0, m.to),
        Which::He => offset_from(lines, m, pattern.he, 1, 0, m.to),
        Which::Rs => offset_from(lines, m, pattern.rs, 0, 0, m.to),
        Which::Re => offset_from(lines, m, pattern.re, 0, 0, m.from),
    }
}

/// The place that an offset names, which counts from so many characters behind the match's start or
/// end, or the one where none is given.
fn offset_from<T: Lines>(
    lines: &T,
    m: &Match,
    offset: Option<Offset>,
    from_start: i64,
    from_end: i64,
    absent: Place,
) -> Place
    requires start { negsuc 0 ≤ℤ from_start × from_start ≤ℤ pos 1 }
    requires end { negsuc 0 ≤ℤ from_end × from_end ≤ℤ pos 1 }
    ensures { result ≡ offset_from (T.lines lines.now) m.now offset from_start from_end absent }
{
    match offset {
        None => absent,
        Some(offset) => {
            let by = i64::from(offset.by);
            if offset.from_end {
                moved_in_line(lines, m.to, by + from_end)
            } else {
                moved_in_line(lines, m.from, by + from_start)
            }
        }
    }
}

/// The place so many columns on, in the same line.
fn moved_in_line<T: Lines>(lines: &T, place: Place, by: i64) -> Place
    ensures { result ≡ moved_in_line (T.lines lines.now) place by }
{
    Place {
        line: place.line,
        col: moved_column(place.col, by, length_of(lines, place.line)),
    }
}

/// How many characters a line has; none where it is absent.
fn length_of<T: Lines>(lines: &T, line: usize) -> usize
    ensures { result ≡ length (line_at (T.lines lines.now) line) }
{
    if line < lines.len() {
        lines.line(line).len()
    } else {
        0
    }
}

/// The column so many characters on, which stops at both ends of a line with so many characters.
#[inline]
pub fn moved_column(col: usize, by: i64, most: usize) -> usize
    ensures { result ≡ within_line most (pos col +ℤ by) }
{
    col.saturating_add_signed(by as isize).min(most)
}

/// The later of two places.
pub fn later_place(a: Place, b: Place) -> Place
    ensures { result ≡ later_place a b }
{
    if b < a { a } else { b }
}

/// The earlier of two places.
pub fn earlier_place(a: Place, b: Place) -> Place
    ensures { result ≡ earlier_place a b }
{
    if b < a { b } else { a }
}
