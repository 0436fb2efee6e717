//! What stands at a place of a text.
ghost use Rattle.std.specs.Prelude.{◌≡◌, IfSome};
ghost use Rattle.char_class.specs.Folds.{is_same};
ghost use Rattle.match_rules.specs.Ways.{IsPlaceOf, behind_line_end};
ghost use Rattle.match_rules.specs.Atoms.{behind_one, character_at, is_line_end, only_if};
ghost use Rattle.pattern_match.specs.Standing.{Stands};

use crate::cases::is_one;
use syn_base::{Lines, Place};

/// What stands at a place, and the place behind it.
#[derive(Clone, Copy)]
pub(crate) enum Standing {
    Character(char, Place),
    /// The end of a line that is there.
    LineEnd(Place),
    Nothing,
}

/// What stands at a place.
#[inline(always)]
pub(crate) fn standing_at<T: Lines>(lines: &T, at: Place) -> Standing
    requires { IsPlaceOf (T.lines lines.now) at }
    ensures { Stands (T.lines lines.now) at result }
{
    if at.line >= lines.len() {
        return Standing::Nothing;
    }
    match lines.line(at.line).get(at.col) {
        Some(c) => Standing::Character(
            *c,
            Place {
                line: at.line,
                col: at.col + 1,
            },
        ),
        None => Standing::LineEnd(Place {
            line: at.line + 1,
            col: 0,
        }),
    }
}

/// The place, if it is one.
#[inline(always)]
pub(crate) fn only_if(fits: bool, place: Place) -> Option<Place>
    ensures { result ≡ only_if fits place }
{
    if fits { Some(place) } else { None }
}

/// The place behind the character `c`, if it stands at a place.
#[inline(always)]
pub(crate) fn behind_character<T: Lines>(
    lines: &T,
    at: Place,
    c: char,
    ignore: bool,
) -> Option<Place>
    requires { IsPlaceOf (T.lines lines.now) at }
    ensures value { result ≡ behind_one (T.lines lines.now) (λ d. is_same c d ignore) at }
    ensures place { IfSome result (IsPlaceOf (T.lines lines.now)) }
{
    match standing_at(lines, at) {
        Standing::Character(d, behind) => only_if(is_one(c, d, ignore), behind),
        _ => None,
    }
}

/// The place behind the line end, if one stands at a place.
pub(crate) fn behind_line_end<T: Lines>(lines: &T, at: Place) -> Option<Place>
    requires { IsPlaceOf (T.lines lines.now) at }
    ensures value { result ≡ only_if (is_line_end (T.lines lines.now) at) (behind_line_end at) }
    ensures place { IfSome result (IsPlaceOf (T.lines lines.now)) }
{
    match standing_at(lines, at) {
        Standing::LineEnd(behind) => Some(behind),
        _ => None,
    }
}

/// The character that stands at a place, if there is one.
pub(crate) fn character_at<T: Lines>(lines: &T, at: Place) -> Option<char>
    ensures { result ≡ character_at (T.lines lines.now) at }
{
    if at.line < lines.len() {
        lines.line(at.line).get(at.col).copied()
    } else {
        None
    }
}
