//! The turns of a count (`/multi`).
ghost use Rattle.std.specs.Prelude.{◌≡◌, ◌≤◌, ◌+◌, IfOk, OnOk, ◌∷◌, false};
ghost use Rattle.vim_pattern.specs.GroupNumbers.{HasNumbers};
ghost use Rattle.vim_pattern.specs.Shape.{one};
ghost use Rattle.match_rules.specs.Ways.{Context as AnyContext, IsPlaceOf, is_after};
ghost use Rattle.match_rules.specs.Counts.{one_less, is_spent};
ghost use Rattle.pattern_match.specs.Contexts.{context_in};
ghost use Rattle.pattern_match.specs.Steps.{atom_of, shape_of};
ghost use Rattle.pattern_match.specs.Glance.{AreTurnsLeft};
ghost use Rattle.pattern_match.specs.Heights.{height};
ghost use Rattle.pattern_match.specs.Search.{Leads, IsLed, IsStep, marks_first};

use crate::context::Context;
use crate::parts::fails_at_once;
use crate::runs::{less_by, make_run};
use crate::spent::Spent;
use crate::step::{Step, Test};
use crate::task::{Next, Task, Turns, Went};
use crate::tick::tick;
use crate::ways::Ways;
use pattern_screens::is_spent;
use syn_base::{Lines, Memory, Place};

/// Whether a place stands behind another.
pub(crate) fn is_after(p: Place, q: Place) -> bool
    ensures { result ≡ is_after p q }
{
    q.line < p.line || (q.line == p.line && q.col < p.col)
}

/// How many turns are allowed, after one of them.
pub(crate) fn one_less(most: Option<u32>) -> Option<u32>
    ensures { result ≡ one_less most }
{
    match most {
        None => None,
        Some(most) => Some(most.saturating_sub(1)),
    }
}

/// Puts a copy of the present way aside, on which one more thing is to be done first.
#[inline(always)]
pub(crate) fn put_aside_with<'p>(ways: &mut Ways<Task<'p>>, item: Task<'p>) -> Result<(), Memory>
    ensures { OnOk result (ways.new ≡ record ways.old {
      pending = record ways.old.here { todo = item.entry ∷ ways.old.here.todo }
          ∷ ways.old.pending;
    }) }
{
    ways.put_first(item)?;
    ways.put_aside()?;
    ways.take_first();
    Ok(())
}

/// The turns of a count that are left at a place, behind a turn that began at `from`; none where the
/// way ends.
pub(crate) fn next_turns<'p>(at: Place, turns: Turns<'p>, from: Place) -> Option<Turns<'p>>
    ensures { AreTurnsLeft turns.entry from at result }
{
    if is_after(at, from) {
        Some(Turns {
            least: turns.least.saturating_sub(1),
            most: one_less(turns.most),
            ..turns
        })
    } else if turns.least == 0 {
        None
    } else {
        Some(Turns {
            least: 0,
            most: less_by(turns.most, turns.least as usize),
            ..turns
        })
    }
}

/// Goes on with a count, behind a turn that began at `from`.
pub(crate) fn after_turn<'p>(ways: &Ways<Task<'p>>, turns: Turns<'p>, from: Place) -> Went<'p>
    requires { HasNumbers (shape_of turns.part.now) }
    ensures led { IsLed result }
    ensures leads { (x : AnyContext) → Leads x (height (shape_of turns.entry.part.now) + 1)
        (marks_first x (Task.AfterTurn turns.entry from) ways.now) ways.now ways.now result }
{
    match next_turns(ways.place(), turns, from) {
        None => Went::Ends,
        Some(turns) => Went::Does(Next::Count(turns)),
    }
}

/// Makes the next turn of a count. An atom is tried at once, so that a count of one atom leaves
/// nothing to be done on the ways that stop.
pub(crate) fn turn<'p, T: Lines>(
    lines: &T,
    context: &Context<'_>,
    ways: &mut Ways<Task<'p>>,
    turns: Turns<'p>,
    spent: &mut Spent,
) -> Result<Went<'p>, Memory>
    requires on_text { IsPlaceOf (T.lines lines.now) ways.old.here.way.at }
    requires numbers { HasNumbers (shape_of turns.part.now) }
    requires within { spent.old.cost ≤ spent.old.budget }
    ensures { let x = context_in (T.lines lines.now) context.now in
        IfOk result (IsStep x (height (shape_of turns.entry.part.now) + 1)
        (marks_first x (Task.Turn turns.entry) ways.old) ways.old ways.new spent.old spent.new) }
{
    let from = ways.place();
    match turns.part {
        Step::One(test) => match tick(lines, context, ways, test, spent)? {
            Went::GoesOn => Ok(after_turn(ways, turns, from)),
            went => Ok(went),
        },
        part => {
            ways.put_first(Task::AfterTurn { turns, from })?;
            Ok(Went::Does(Next::Visit(part)))
        }
    }
}

/// Makes the turns of a count that are left: the next one, with the stop behind it where the count
/// may stop; a lazy count stops first.
#[inline(always)]
pub(crate) fn count<'p, T: Lines>(
    lines: &T,
    context: &Context<'_>,
    ways: &mut Ways<Task<'p>>,
    turns: Turns<'p>,
    spent: &mut Spent,
) -> Result<Went<'p>, Memory>
    requires on_text { IsPlaceOf (T.lines lines.now) ways.old.here.way.at }
    requires numbers { HasNumbers (shape_of turns.part.now) }
    requires within { spent.old.cost ≤ spent.old.budget }
    ensures { let x = context_in (T.lines lines.now) context.now in
        IfOk result (IsStep x (height (shape_of turns.entry.part.now) + 1)
        (marks_first x (Task.Count turns.entry) ways.old) ways.old ways.new spent.old spent.new) }
{
    if is_spent(turns.most) {
        Ok(Went::GoesOn)
    } else if turns.least > 0 {
        turn(lines, context, ways, turns, spent)
    } else if turns.lazy {
        put_aside_with(ways, Task::Turn(turns))?;
        Ok(Went::GoesOn)
    } else if let Step::One(test) = turns.part {
        count_atom(lines, context, ways, test, turns, spent)
    } else {
        ways.put_aside()?;
        turn(lines, context, ways, turns, spent)
    }
}

/// Makes the turns of a greedy count of an atom. Where it doesn't fit at once, that is its one tick,
/// and no way is put aside.
#[inline(always)]
fn count_atom<'p, T: Lines>(
    lines: &T,
    context: &Context<'_>,
    ways: &mut Ways<Task<'p>>,
    test: &Test,
    turns: Turns<'p>,
    spent: &mut Spent,
) -> Result<Went<'p>, Memory>
    requires on_text { IsPlaceOf (T.lines lines.now) ways.old.here.way.at }
    requires numbers { HasNumbers (shape_of turns.part.now) }
    requires atom { shape_of turns.part.now ≡ one (atom_of test.now) }
    requires allowed { is_spent turns.most ≡ false }
    requires free { turns.least ≡ 0 }
    requires greedy { turns.lazy ≡ false }
    requires within { spent.old.cost ≤ spent.old.budget }
    ensures { let x = context_in (T.lines lines.now) context.now in
        IfOk result (IsStep x (height (shape_of turns.entry.part.now) + 1)
        (marks_first x (Task.Count turns.entry) ways.old) ways.old ways.new spent.old spent.new) }
{
    let Some(looked) = fails_at_once(lines, context, ways, turns.part) else {
        return count_atoms(lines, context, ways, test, turns, spent);
    };
    if spent.cost >= spent.budget {
        return Ok(Went::TooCostly);
    }
    spent.tick(looked);
    Ok(Went::GoesOn)
}

/// Makes the turns of a greedy count of an atom, with the stop behind each, as long as they go on:
/// those in a line at once, where the atom is of characters alone.
fn count_atoms<'p, T: Lines>(
    lines: &T,
    context: &Context<'_>,
    ways: &mut Ways<Task<'p>>,
    test: &Test,
    turns: Turns<'p>,
    spent: &mut Spent,
) -> Result<Went<'p>, Memory>
    requires on_text { IsPlaceOf (T.lines lines.now) ways.old.here.way.at }
    requires numbers { HasNumbers (shape_of turns.part.now) }
    requires atom { shape_of turns.part.now ≡ one (atom_of test.now) }
    requires free { turns.least ≡ 0 }
    requires greedy { turns.lazy ≡ false }
    requires within { spent.old.cost ≤ spent.old.budget }
    ensures { let x = context_in (T.lines lines.now) context.now in
        IfOk result (IsStep x (height (shape_of turns.entry.part.now) + 1)
        (marks_first x (Task.Count turns.entry) ways.old) ways.old ways.new spent.old spent.new) }
{
    let mut most = turns.most;
    // Each turn takes a character, so it ends long before; counted turns need no measure.
    for _ in 0..u64::MAX {
        most = make_run(lines, context, ways, test, most, spent)?;
        if is_spent(most) {
            return Ok(Went::GoesOn);
        }
        let from = ways.place();
        ways.put_aside()?;
        match tick(lines, context, ways, test, spent)? {
            Went::GoesOn if is_after(ways.place(), from) => most = one_less(most),
            Went::GoesOn => return Ok(Went::Ends),
            went => return Ok(went),
        }
    }
    Err(Memory)
}
