//! Parts that ask for one character alone: any other one tells that they are tried in vain, and with how
//! many ticks.
ghost use Rattle.std.specs.Prelude.{◌≡◌, ◌≤◌, ℕ, Bool, false, IsFalse, IsTrue};
ghost use Rattle.char_class.specs.Folds.{is_same};
ghost use Rattle.match_rules.specs.Visits.{tried, visits};
ghost use Rattle.match_rules.specs.Ways.{IsPlaceOf};
ghost use Rattle.pattern_match.specs.Contexts.{context_in};
ghost use Rattle.pattern_match.specs.Others.{AreOthers, IsVainByOthers};
ghost use Rattle.pattern_match.specs.Steps.{atom_of, shape_of};
ghost use Rattle.pattern_match.specs.Vain.{IsRefused};

use crate::atoms::numbered;
use crate::cases::is_one;
use crate::context::Context;
use crate::spent::Spent;
use crate::standing::{Standing, standing_at};
use crate::step::{Step, Test};
use crate::vain::{Vain, is_free};
use syn_base::{Lines, Looked, Place};

/// A character, and how many atoms a part tries in vain where any other one stands.
#[derive(Clone, Copy)]
pub(crate) struct Others {
    but: char,
    ticks: u64,
}

/// The character that a node asks for, if each other one tells that it is tried in vain.
pub(crate) fn others_of(step: &Step) -> Option<Others>
    ensures { AreOthers (λ x. visits x (shape_of step.now)) result }
{
    let but = some_character(step)?;
    match vain_by_others(step, but) {
        Vain::Refused(ticks) => Some(Others { but, ticks }),
        _ => None,
    }
}

/// A character that a node asks for.
fn some_character(step: &Step) -> Option<char> {
    let mut rest = step;
    loop {
        match rest {
            Step::One(Test::Char(c)) => return Some(*c),
            Step::Seq(first, _) => rest = first,
            Step::Or(first, _) => rest = first,
            Step::Group(part, _) => rest = part,
            Step::Optional(part) => rest = part,
            Step::Repeat {
                part,
                least: _,
                most: _,
                lazy: _,
            } => rest = part,
            _ => return None,
        }
    }
}

/// What any character but one tells of an atom.
fn atom_by_others(test: &Test, but: char) -> Vain
    ensures { IsVainByOthers (λ x w. tried x w (atom_of test.now)) but result }
{
    match test {
        Test::Char(c) => if *c == but {
            Vain::Refused(1)
        } else {
            Vain::Unsure
        },
        _ => Vain::Unsure,
    }
}

/// What any character but one tells of a node.
#[cycle(others)]
fn vain_by_others(step: &Step, but: char) -> Vain
    ensures { IsVainByOthers (λ x. visits x (shape_of step.now)) but result }
{
    match step {
        Step::One(test) => atom_by_others(test, but),
        Step::Seq(first, second) => {
            let known = vain_by_others(first, but);
            known.then(vain_behind_others(known, second, but))
        }
        Step::Or(first, second) => {
            let known = vain_by_others(first, but);
            if known.is_refused() {
                known.or(vain_by_others(second, but))
            } else {
                Vain::Unsure
            }
        }
        Step::Group(part, _) => vain_by_others(part, but).then(Vain::Unsure),
        Step::Optional(part) => vain_by_others(part, but).left_out(),
        Step::Repeat {
            part,
            least,
            most,
            lazy,
        } => if is_free(*least, *most, *lazy) {
            vain_by_others(part, but).left_out()
        } else {
            Vain::Unsure
        },
        _ => Vain::Unsure,
    }
}

/// The same of the second part of two, where the first one doesn't decide. Of a longer sequence nothing
/// is told, so that it takes no stack.
#[cycle(others)]
fn vain_behind_others(first: Vain, second: &Step, but: char) -> Vain
    ensures { IsVainByOthers (λ x. visits x (shape_of second.now)) but result }
{
    match second {
        Step::Seq(_, _) => Vain::Unsure,
        second => if first.is_left_out() {
            vain_by_others(second, but)
        } else {
            Vain::Unsure
        },
    }
}

/// Whether another character stands at a place than a part asks for. Then its ticks are spent.
#[inline(always)]
pub(crate) fn other_refuses<T: Lines>(
    lines: &T,
    context: &Context<'_>,
    step: &Step,
    others: Option<Others>,
    start: Place,
    spent: &mut Spent,
) -> bool
    requires on_text { IsPlaceOf (T.lines lines.now) start }
    requires others { AreOthers (λ x. visits x (shape_of step.now)) others }
    requires within { spent.old.cost ≤ spent.old.budget }
    ensures refused { IsTrue result → IsRefused
        (visits (context_in (T.lines lines.now) context.now) (shape_of step.now)) start spent.old
        spent.new }
    ensures budget { spent.new.budget ≡ spent.old.budget }
    ensures within { spent.new.cost ≤ spent.new.budget }
    ensures unchanged { IsFalse result → spent.new ≡ spent.old }
{
    let Some(others) = others else {
        return false;
    };
    let Standing::Character(c, _) = standing_at(lines, start) else {
        return false;
    };
    if is_one(others.but, c, context.ignore) || others.ticks > spent.budget - spent.cost {
        return false;
    }
    spent.tick_times(others.ticks, Looked::one(numbered(lines, start.line)));
    true
}
