//! Ticks: one atom tried at one place.
ghost use Rattle.std.specs.Prelude.{◌≡◌, ◌≤◌, IfOk, OnOk};
ghost use Rattle.pattern_items.specs.GroupNumbers.{HasNumber};
ghost use Rattle.match_rules.specs.Ways.{IsPlaceOf};
ghost use Rattle.match_rules.specs.Atoms.{way_behind};
ghost use Rattle.pattern_match.specs.Contexts.{context_in};
ghost use Rattle.pattern_match.specs.Steps.{atom_of};
ghost use Rattle.pattern_match.specs.Search.{IsTick, moved};

use crate::atoms::try_atom;
use crate::context::Context;
use crate::spent::Spent;
use crate::step::Test;
use crate::task::{Task, Went};
use crate::ways::Ways;
use syn_base::{Lines, Memory, Place};

/// The present way behind an atom that fits and leads to a place.
fn pass<'p>(ways: &mut Ways<Task<'p>>, test: &Test, place: Place) -> Result<(), Memory>
    ensures { OnOk result (ways.new ≡ moved ways.old
        (way_behind ways.old.here.way place (atom_of test.now))) }
{
    match test {
        Test::MatchStart => ways.note_start(),
        Test::MatchStop => ways.note_stop(),
        _ => {
            ways.move_to(place);
            Ok(())
        }
    }
}

/// Tries an atom, if the budget allows one more tick. It takes no memory but for notes.
#[inline(always)]
pub(crate) fn tick<'p, T: Lines>(
    lines: &T,
    context: &Context<'_>,
    ways: &mut Ways<Task<'p>>,
    test: &Test,
    spent: &mut Spent,
) -> Result<Went<'p>, Memory>
    requires on_text { IsPlaceOf (T.lines lines.now) ways.old.here.way.at }
    requires numbers { HasNumber (atom_of test.now) }
    requires within { spent.old.cost ≤ spent.old.budget }
    ensures { IfOk result (IsTick (context_in (T.lines lines.now) context.now) (atom_of test.now)
        ways.old ways.new spent.old spent.new) }
{
    if spent.cost >= spent.budget {
        return Ok(Went::TooCostly);
    }
    let tried = try_atom(lines, context, ways, test);
    spent.tick(tried.looked);
    match tried.place {
        None => Ok(Went::Ends),
        Some(place) => {
            pass(ways, test, place)?;
            Ok(Went::GoesOn)
        }
    }
}
