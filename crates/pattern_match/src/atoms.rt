//! An atom at the place of the present way: where it leads, and which lines it looks at.
ghost use Rattle.std.specs.Prelude.{◌≡◌, ◌==◌, ◌≤◌, ◌+◌, ◌-ℤ◌, ◌&&◌, IfSome, true, false, pos, nat_eq, length};
ghost use Rattle.syn_base.specs.Looked.{hull_of, numbered_too, one_line};
ghost use Rattle.pattern_items.specs.GroupNumbers.{HasNumber, IsOneToNine};
ghost use Rattle.char_class.specs.Classes.{class_holds};
ghost use Rattle.match_rules.specs.Ways.{IsPlaceOf, Way, line_at};
ghost use Rattle.match_rules.specs.Collections.{collection_holds};
ghost use Rattle.match_rules.specs.Atoms.{behind_one_or_end, captured_text, characters, external_text, fits, line_behind, lines_from, lines_looked, number_of_line, only_if, stands, turned_round};
ghost use Rattle.pattern_match.specs.Contexts.{context_in};
ghost use Rattle.pattern_match.specs.Glance.{asks_for_group};
ghost use Rattle.pattern_match.specs.Steps.{atom_of};
ghost use Rattle.pattern_match.specs.Tried.{IsTriedOver};

use crate::Context;
use crate::collection::Collection;
use crate::standing::{
    Standing, behind_character, behind_line_end, character_at, only_if, standing_at,
};
use crate::step::Test;
use crate::walks::{Walked, line_at, part_of_line, walk_between, walk_characters};
use crate::ways::Ways;
use crate::words::{is_word_start, is_word_stop};
use char_class::{Sets, class_has};
use pattern_items::Compare;
use syn_base::{Class, Lines, Looked, Place};

/// Where an atom leads, and the lines that it looked at.
#[derive(Clone, Copy)]
pub(crate) struct Tried {
    /// The place behind it, if it fits.
    pub place: Option<Place>,
    pub looked: Looked,
}

/// Tries an atom at the place of the present way.
#[inline(always)]
pub(crate) fn try_atom<T: Lines, I: Copy>(
    lines: &T,
    context: &Context,
    ways: &Ways<I>,
    test: &Test,
) -> Tried
    requires on_text { IsPlaceOf (T.lines lines.now) ways.now.here.way.at }
    requires numbers { HasNumber (atom_of test.now) }
    ensures place { result.place ≡ fits (context_in (T.lines lines.now) context.now)
        ways.now.here.way (atom_of test.now) }
    ensures looked { result.looked ≡ lines_looked (context_in (T.lines lines.now) context.now)
        ways.now.here.way (atom_of test.now) }
    ensures on_text { IfSome result.place (IsPlaceOf (T.lines lines.now)) }
{
    let at = ways.place();
    match test {
        Test::Ref(number) => behind_group(lines, context, ways.capture(*number), at),
        Test::ExternalRef(number) => behind_external(lines, context, *number, at),
        test => try_plain(lines, context, at, test),
    }
}

/// Tries an atom that asks for no text of a group.
#[inline(always)]
pub(crate) fn try_plain<T: Lines>(lines: &T, context: &Context, at: Place, test: &Test) -> Tried
    requires { IsPlaceOf (T.lines lines.now) at }
    ensures place { (w : Way) → asks_for_group (atom_of test.now) ≡ false →
        result.place ≡ fits (context_in (T.lines lines.now) context.now)
        (record w { at = at }) (atom_of test.now) }
    ensures looked { (w : Way) → asks_for_group (atom_of test.now) ≡ false →
        result.looked ≡ lines_looked (context_in (T.lines lines.now) context.now)
        (record w { at = at }) (atom_of test.now) }
    ensures on_text { IfSome result.place (IsPlaceOf (T.lines lines.now)) }
{
    match test {
        Test::Char(c) => in_line(lines, at, behind_character(lines, at, *c, context.ignore)),
        Test::Any { line_end } => in_line(lines, at, behind_any(lines, at, *line_end)),
        Test::Is {
            class,
            not,
            line_end,
        } => {
            let place = behind_class(lines, context.sets, at, *class, *not, *line_end);
            in_line(lines, at, place)
        }
        Test::Set(collection) => {
            in_line(lines, at, behind_member(lines, context, at, collection))
        }
        Test::LineEnd => in_line(lines, at, behind_line_end(lines, at)),
        Test::LineStart => in_line(lines, at, only_if(at.col == 0, at)),
        Test::LineStop => in_line(lines, at, only_if(is_line_stop(lines, at), at)),
        Test::WordStart => in_line(lines, at, only_if(is_word_start(lines, context, at), at)),
        Test::WordStop => in_line(lines, at, only_if(is_word_stop(lines, context, at), at)),
        Test::FileStart => file_start(lines, at),
        Test::FileStop => file_stop(lines, at),
        Test::MatchStart | Test::MatchStop => in_line(lines, at, Some(at)),
        Test::LineNumber { how, number } => line_number(lines, at, *how, *number),
        Test::Ref(_) | Test::ExternalRef(_) => in_line(lines, at, None),
    }
}

/// A line's number, as those that are looked at have it.
#[inline(always)]
pub(crate) fn numbered<T: Lines>(lines: &T, line: usize) -> i64
    requires { line ≤ length (T.lines lines.now) }
    ensures { result ≡ pos line }
{
    // The proof needs the bounds that this call tells of the text.
    let _count = lines.len();
    line as i64
}

/// An atom that looked at its own line alone.
#[inline(always)]
fn in_line<T: Lines>(lines: &T, at: Place, place: Option<Place>) -> Tried
    requires { IsPlaceOf (T.lines lines.now) at }
    ensures place { result.place ≡ place }
    ensures looked { result.looked ≡ one_line (pos at.line) }
{
    Tried {
        place,
        looked: Looked::one(numbered(lines, at.line)),
    }
}

/// The lines from one to another.
#[inline(always)]
pub(crate) fn lines_from<T: Lines>(lines: &T, low: usize, high: usize) -> Looked
    requires low { low ≤ length (T.lines lines.now) }
    requires high { high ≤ length (T.lines lines.now) }
    ensures { result ≡ lines_from low high }
{
    Looked::one(numbered(lines, low)).join(Looked::one(numbered(lines, high)))
}

/// The place behind any character, or behind a line end where that is taken too.
fn behind_any<T: Lines>(lines: &T, at: Place, line_end: bool) -> Option<Place>
    requires { IsPlaceOf (T.lines lines.now) at }
    ensures value { result ≡ behind_one_or_end (T.lines lines.now) line_end (λ c. true) at }
    ensures within { IfSome result (IsPlaceOf (T.lines lines.now)) }
{
    match standing_at(lines, at) {
        Standing::Character(_, behind) => Some(behind),
        Standing::LineEnd(behind) => only_if(line_end, behind),
        Standing::Nothing => None,
    }
}

/// The place behind a character of a class, or of its opposite.
fn behind_class<T: Lines>(
    lines: &T,
    sets: &Sets,
    at: Place,
    class: Class,
    not: bool,
    line_end: bool,
) -> Option<Place>
    requires { IsPlaceOf (T.lines lines.now) at }
    ensures value { result ≡ behind_one_or_end (T.lines lines.now) line_end
        (λ c. turned_round not (class_holds class c sets.now)) at }
    ensures within { IfSome result (IsPlaceOf (T.lines lines.now)) }
{
    match standing_at(lines, at) {
        Standing::Character(c, behind) => only_if(class_has(class, c, sets) != not, behind),
        Standing::LineEnd(behind) => only_if(line_end, behind),
        Standing::Nothing => None,
    }
}

/// The place behind a character that a collection holds.
fn behind_member<T: Lines>(
    lines: &T,
    context: &Context,
    at: Place,
    collection: &Collection,
) -> Option<Place>
    requires { IsPlaceOf (T.lines lines.now) at }
    ensures value { result ≡ behind_one_or_end (T.lines lines.now) collection.now.line_end
        (λ c. collection_holds collection.now c context.now.sets.now context.now.ignore) at }
    ensures within { IfSome result (IsPlaceOf (T.lines lines.now)) }
{
    match standing_at(lines, at) {
        Standing::Character(c, behind) => {
            only_if(collection.has(c, context.sets, context.ignore), behind)
        }
        Standing::LineEnd(behind) => only_if(collection.takes_line_end(), behind),
        Standing::Nothing => None,
    }
}

/// Whether a place is the last one of its line.
fn is_line_stop<T: Lines>(lines: &T, at: Place) -> bool
    requires { IsPlaceOf (T.lines lines.now) at }
    ensures { result ≡ (at.col == length (line_at (T.lines lines.now) at.line)) }
{
    match character_at(lines, at) {
        Some(_) => false,
        None => true,
    }
}

/// The place, if it is the text's first one. The line before is looked at too.
fn file_start<T: Lines>(lines: &T, at: Place) -> Tried
    requires { IsPlaceOf (T.lines lines.now) at }
    ensures place { result.place ≡ only_if (nat_eq at.line 0 && nat_eq at.col 0) at }
    ensures looked { result.looked ≡ hull_of (one_line (pos at.line))
        (one_line (pos at.line -ℤ pos 1)) }
{
    let line = numbered(lines, at.line);
    Tried {
        place: only_if(at.line == 0 && at.col == 0, at),
        looked: Looked::one(line).join(Looked::one(line - 1)),
    }
}

/// The place, if it is the end of the text's last line. The line behind is looked at too.
fn file_stop<T: Lines>(lines: &T, at: Place) -> Tried
    requires { IsPlaceOf (T.lines lines.now) at }
    ensures place { result.place ≡ only_if
        (nat_eq (at.line + 1) (length (T.lines lines.now))
        && nat_eq at.col (length (line_at (T.lines lines.now) at.line))) at }
    ensures looked { result.looked ≡ lines_from at.line (line_behind (T.lines lines.now) at.line) }
{
    let count = lines.len();
    let is_last = at.line + 1 == count;
    let behind = if at.line < count {
        at.line + 1
    } else {
        at.line
    };
    Tried {
        place: only_if(is_last && is_line_stop(lines, at), at),
        looked: lines_from(lines, at.line, behind),
    }
}

/// The place, if its line is one that the number names. The line's own number is looked at too.
fn line_number<T: Lines>(lines: &T, at: Place, how: Compare, number: u32) -> Tried
    requires { IsPlaceOf (T.lines lines.now) at }
    ensures place { result.place ≡ only_if (stands how number (number_of_line at.line)) at }
    ensures looked { result.looked ≡ numbered_too (one_line (pos at.line)) }
{
    let line = numbered(lines, at.line);
    Tried {
        place: only_if(is_named(at.line + 1, how, number as usize), at),
        looked: Looked::one(line).with_number(),
    }
}

/// Whether a line is one that a number names; lines count from 1.
fn is_named(line: usize, how: Compare, number: usize) -> bool
    ensures { result ≡ stands how number line }
{
    match how {
        Compare::At => line == number,
        Compare::Before => line < number,
        Compare::After => number < line,
    }
}

/// The place behind the text of a group, which is empty where the group hasn't matched.
fn behind_group<T: Lines>(
    lines: &T,
    context: &Context,
    capture: Option<(Place, Place)>,
    at: Place,
) -> Tried
    requires { IsPlaceOf (T.lines lines.now) at }
    ensures { IsTriedOver (context_in (T.lines lines.now) context.now)
        (captured_text (T.lines lines.now) capture) at result }
{
    match capture {
        Some((from, to)) if to.line <= from.line => {
            behind_text(lines, context, part_of_line(lines, from, to.col), at)
        }
        Some((from, to)) => over(lines, at, walk_between(lines, context, from, to, at)),
        None => in_line(lines, at, Some(at)),
    }
}

/// The place behind the text of an external group.
fn behind_external<T: Lines>(lines: &T, context: &Context, number: u8, at: Place) -> Tried
    requires place { IsPlaceOf (T.lines lines.now) at }
    requires number { IsOneToNine number }
    ensures { IsTriedOver (context_in (T.lines lines.now) context.now)
        (external_text (context_in (T.lines lines.now) context.now) number) at result }
{
    let text = context.externals.part(usize::from(number) - 1);
    behind_text(lines, context, text, at)
}

/// The place behind characters. Where case isn't ignored, they are compared with the line at once,
/// and fail at once where too few are left.
fn behind_text<T: Lines>(lines: &T, context: &Context, text: &[char], at: Place) -> Tried
    requires { IsPlaceOf (T.lines lines.now) at }
    ensures { IsTriedOver (context_in (T.lines lines.now) context.now) (characters text.now) at
        result }
{
    if context.ignore {
        return over(lines, at, walk_characters(lines, context, text, at));
    }
    let line = line_at(lines, at.line);
    if !line[at.col..].starts_with(text) {
        return in_line(lines, at, None);
    }
    let behind = Place {
        line: at.line,
        col: at.col + text.len(),
    };
    in_line(lines, at, Some(behind))
}

/// An atom that is a text, which stands so far.
fn over<T: Lines>(lines: &T, at: Place, walked: Walked) -> Tried
    requires from { IsPlaceOf (T.lines lines.now) at }
    requires to { IsPlaceOf (T.lines lines.now) walked.at }
    ensures place { result.place ≡ only_if walked.whole walked.at }
    ensures looked { result.looked ≡ lines_from at.line walked.at.line }
{
    Tried {
        place: only_if(walked.whole, walked.at),
        looked: lines_from(lines, at.line, walked.at.line),
    }
}
