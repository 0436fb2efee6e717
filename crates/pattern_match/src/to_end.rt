//! A greedy count of any character or line end takes all that is left of the text. Where what follows it
//! begins with a character that stands nowhere there, all its turns and stops are tried in vain.
ghost use Rattle.std.specs.Prelude.{◌≡◌, ◌≤◌, ◌<◌, ◌+◌, ◌^◌, All, IfSome, IsFalse, IsTrue, None, drop, false, length, sum_by};
ghost use Rattle.char_class.specs.Folds.{is_same};
ghost use Rattle.match_rules.specs.Atoms.{behind_one};
ghost use Rattle.match_rules.specs.Counts.{places_behind};
ghost use Rattle.match_rules.specs.Marks.{followed};
ghost use Rattle.match_rules.specs.Ways.{Context as AnyContext, IsPlaceOf, Way};
ghost use Rattle.pattern_match.specs.Contexts.{context_in};
ghost use Rattle.pattern_match.specs.Glance.{GoesOn, IsSeen, Stands, marks_behind, turns_of};
ghost use Rattle.pattern_match.specs.ToEnd.{BeginsWith, IsEndless, IsNowhere};
ghost use Rattle.pattern_match.specs.declared.sight.Saw.TheVariants.{InVain};
ghost use Rattle.pattern_match.specs.declared.task.Turns.{Turns as AnyTurns};

use crate::atoms::lines_from;
use crate::cases::is_one;
use crate::context::Context;
use crate::sight::{Rest, Sight};
use crate::step::{Step, Test, first_test};
use crate::task::Turns;
use crate::walks::rest_of_line;
use syn_base::{Lines, Place};

/// Whether a character stands among others.
#[inline(always)]
fn has(characters: &[char], c: char, ignore: bool) -> bool
    ensures { IsFalse result → All (λ d. is_same c d ignore ≡ false) characters.now }
{
    for d in characters {
        if is_one(c, *d, ignore) {
            return true;
        }
    }
    false
}

/// How many places the lines from one on have, if a character stands in none of them, and there are no
/// more than so many.
#[inline(never)]
fn lines_without<T: Lines>(lines: &T, from: usize, c: char, ignore: bool, most: u64) -> Option<u64>
    requires inside { from ≤ length (T.lines lines.now) }
    requires few { most < 2 ^ 63 }
    ensures count { IfSome result (λ places. places ≡ sum_by (λ line. length line + 1)
        (drop from (T.lines lines.now))) }
    ensures within { IfSome result (λ places. places ≤ most) }
    ensures nowhere { IfSome result (λ _. (q : Place) → from ≤ q.line →
        behind_one (T.lines lines.now) (λ d. is_same c d ignore) q ≡ None) }
{
    let mut places = 0;
    for i in from..lines.len() {
        if places > most {
            return None;
        }
        let line = lines.line(i);
        if has(line, c, ignore) {
            return None;
        }
        places += line.len() as u64 + 1;
    }
    if places > most { None } else { Some(places) }
}

/// The same from a place on, up to the end of the text.
fn places_without<T: Lines>(lines: &T, at: Place, c: char, ignore: bool, most: u64) -> Option<u64>
    requires on_text { IsPlaceOf (T.lines lines.now) at }
    requires few { most < 2 ^ 63 }
    ensures count { IfSome result (λ places. places ≡ places_behind (T.lines lines.now) at) }
    ensures within { IfSome result (λ places. places ≤ most) }
    ensures nowhere { IfSome result (λ _. IsNowhere (T.lines lines.now) (λ d. is_same c d ignore)
        at) }
{
    if at.line >= lines.len() {
        return Some(0);
    }
    let rest = rest_of_line(lines, at);
    if has(rest, c, ignore) {
        return None;
    }
    let behind = lines_without(lines, at.line + 1, c, ignore, most)?;
    let places = rest.len() as u64 + 1 + behind;
    if places > most { None } else { Some(places) }
}

/// The character that what follows begins with, if it does with one.
fn first_character(rest: &Rest<'_>) -> Option<char>
    ensures { IfSome result (BeginsWith rest.now) }
{
    match *rest {
        Rest::Then(step, _) => match first_test(step) {
            Some(Test::Char(c)) => Some(*c),
            _ => None,
        },
        _ => None,
    }
}

/// Whether a count takes any character or line end, as often as it can.
#[inline(always)]
fn is_endless(turns: &Turns<'_>) -> bool
    ensures { IsTrue result → IsEndless turns.now }
{
    match turns.part {
        Step::One(Test::Any { line_end: true }) => turns.most.is_none(),
        _ => false,
    }
}

/// Whether the turns of a greedy count go on to the end of the text, and no stop is followed by a way.
/// Then their ticks are spent.
#[inline(always)]
pub(crate) fn is_vain_to_end<T: Lines>(
    lines: &T,
    context: &Context<'_>,
    turns: &Turns<'_>,
    rest: &Rest<'_>,
    sight: &mut Sight,
) -> bool
    requires stands { Stands (T.lines lines.now) sight.old }
    requires free { turns.now.least ≡ 0 }
    requires greedy { turns.now.lazy ≡ false }
    ensures vain { IsTrue result → (w : Way) → w.at ≡ sight.old.at →
        let x = context_in (T.lines lines.now) context.now in
        IsSeen w (followed (turns_of x turns.now w) (marks_behind x rest.now))
        sight.old sight.new InVain }
    ensures unchanged { IsFalse result → sight.new ≡ sight.old }
    ensures goes { GoesOn (T.lines lines.now) sight.old sight.new }
{
    is_endless(turns) && look_to_end(lines, context, rest, sight)
}

/// The same of a count that takes any character or line end.
#[inline(never)]
fn look_to_end<T: Lines>(
    lines: &T,
    context: &Context<'_>,
    rest: &Rest<'_>,
    sight: &mut Sight,
) -> bool
    requires { Stands (T.lines lines.now) sight.old }
    ensures vain { IsTrue result → (t : AnyTurns) → IsEndless t → t.least ≡ 0 → t.lazy ≡ false →
        (w : Way) → w.at ≡ sight.old.at →
        let x = context_in (T.lines lines.now) context.now in
        IsSeen w (followed (turns_of x t w) (marks_behind x rest.now)) sight.old sight.new InVain }
    ensures unchanged { IsFalse result → sight.new ≡ sight.old }
    ensures goes { GoesOn (T.lines lines.now) sight.old sight.new }
{
    let left = sight.spent.budget - sight.spent.cost;
    if left < 2 {
        return false;
    }
    let Some(c) = first_character(rest) else {
        return false;
    };
    let Some(places) = places_without(lines, sight.at, c, context.ignore, (left - 2) / 2) else {
        return false;
    };
    let looked = lines_from(lines, sight.at.line, lines.len());
    sight.spent.tick_times(2 * (places + 1), looked);
    true
}
