//! The turns of a greedy count in one line, made at once.
ghost use Rattle.std.specs.Prelude.{◌≡◌, ◌≤◌, ◌<◌, ◌+◌, ◌^◌, length, take, true, All, IsTrue, IfOk};
ghost use Rattle.pattern_screens.specs.PlainAtoms.{is_plain, plain_takes};
ghost use Rattle.match_rules.specs.Ways.{IsPlaceOf};
ghost use Rattle.match_rules.specs.Counts.{less_by};
ghost use Rattle.pattern_match.specs.Contexts.{context_in};
ghost use Rattle.pattern_match.specs.Steps.{atom_of};
ghost use Rattle.pattern_match.specs.Runs.{AreAllowed, HasRun, IsRun};

use crate::atoms::numbered;
use crate::context::Context;
use crate::screens::takes_if_plain;
use crate::spent::Spent;
use crate::step::Test;
use crate::task::Task;
use crate::walks::part_of_line;
use crate::ways::Ways;
use char_class::Sets;
use syn_base::{Lines, Looked, Memory, Place};

/// How many turns are allowed, after some of them.
pub(crate) fn less_by(most: Option<u32>, turns: usize) -> Option<u32>
    ensures { result ≡ less_by most turns }
{
    match most {
        None => None,
        Some(most) => Some((most as usize).saturating_sub(turns) as u32),
    }
}

/// How many turns a count and the budget allow.
fn turns_allowed(most: Option<u32>, left: u64) -> usize
    ensures count { AreAllowed most result }
    ensures budget { result ≤ left }
{
    match most {
        None => left as usize,
        Some(most) => left.min(u64::from(most)) as usize,
    }
}

/// Whether an atom is one of characters, and takes this one.
#[inline(always)]
fn takes(test: &Test, sets: &Sets, ignore: bool, c: char) -> bool
    ensures { IsTrue result → (is_plain (atom_of test.now) ≡ true)
        × IsTrue (plain_takes sets.now ignore (atom_of test.now) c) }
{
    match takes_if_plain(test, sets, ignore, c) {
        Some(takes) => takes,
        None => false,
    }
}

/// How many characters an atom takes one behind the other, from the first on.
fn characters_taken(test: &Test, sets: &Sets, ignore: bool, characters: &[char]) -> usize
    ensures plain { 0 < result → is_plain (atom_of test.now) ≡ true }
    ensures within { result ≤ length characters.now }
    ensures taken { All (λ c. IsTrue (plain_takes sets.now ignore (atom_of test.now) c))
        (take result characters.now) }
{
    let mut count = 0;
    for c in characters {
        if !takes(test, sets, ignore, *c) {
            return count;
        }
        count += 1;
    }
    count
}

/// How many turns of a count of an atom take a character of the line each, from a place on, as far as
/// the count and the ticks that are left allow.
pub(crate) fn run_length<T: Lines>(
    lines: &T,
    context: &Context<'_>,
    test: &Test,
    most: Option<u32>,
    at: Place,
    left: u64,
) -> usize
    requires { IsPlaceOf (T.lines lines.now) at }
    ensures run { IsRun (context_in (T.lines lines.now) context.now) (atom_of test.now) at result }
    ensures allowed { AreAllowed most result }
    ensures fits { at.col + result < 2 ^ 64 }
    ensures within { result ≤ left }
{
    let allowed = turns_allowed(most, left);
    let rest = part_of_line(lines, at, at.col.saturating_add(allowed));
    characters_taken(test, context.sets, context.ignore, rest)
}

/// Makes the turns of a greedy count of an atom that take a character of the line each, as far as the
/// budget allows. It answers how many turns more the count allows. However many these turns are, their
/// stops take one entry of the pending ways.
pub(crate) fn make_run<'p, T: Lines>(
    lines: &T,
    context: &Context<'_>,
    ways: &mut Ways<Task<'p>>,
    test: &Test,
    most: Option<u32>,
    spent: &mut Spent,
) -> Result<Option<u32>, Memory>
    requires on_text { IsPlaceOf (T.lines lines.now) ways.old.here.way.at }
    requires within { spent.old.cost ≤ spent.old.budget }
    ensures { IfOk result (λ left. HasRun (context_in (T.lines lines.now) context.now)
        (atom_of test.now) most left ways.old ways.new spent.old spent.new) }
{
    let at = ways.place();
    let count = run_length(lines, context, test, most, at, spent.budget - spent.cost);
    if count == 0 {
        return Ok(most);
    }
    ways.put_run_aside(count)?;
    spent.tick_times(count as u64, Looked::one(numbered(lines, at.line)));
    Ok(less_by(most, count))
}
