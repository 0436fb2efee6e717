//! Screens by first atoms, over nodes that are ready.
ghost use Rattle.std.specs.Prelude.{◌≡◌, IfSome, true};
ghost use Rattle.vim_pattern.specs.Shape.{one};
ghost use Rattle.pattern_screens.specs.FirstAtoms.{first_passes};
ghost use Rattle.pattern_screens.specs.PlainAtoms.{is_plain, plain_fits, plain_takes};
ghost use Rattle.pattern_match.specs.Steps.{atom_of, shape_of};

use crate::cases::is_one;
use crate::step::{Step, Test, is_forced};
use char_class::{Sets, class_has};

/// Whether one of the first atoms of a node fits what stands at a column, or they aren't all of
/// characters. Only first branches are walked by a call of their own, and those nest no deeper than
/// the levels of a pattern allow.
#[tactic(auto, using(crate::proofs::ScreenLaws::or_passes, crate::proofs::ScreenLaws::choice_passes))]
pub(crate) fn some_first_fits(step: &Step, sets: &Sets, ignore: bool, next: Option<char>) -> bool
    ensures { result ≡ first_passes sets.now ignore next (shape_of step.now) }
{
    let mut rest = step;
    loop {
        match rest {
            Step::One(test) => return test_passes(test, sets, ignore, next),
            Step::Seq(first, _) => rest = first,
            Step::Or(first, second) => {
                if some_first_fits(first, sets, ignore, next) {
                    return true;
                }
                rest = second;
            }
            Step::Group(part, _) => rest = part,
            Step::External(part, _) => rest = part,
            Step::Repeat {
                part,
                least,
                most,
                lazy: _,
            } => {
                if !is_forced(*least, *most) {
                    return true;
                }
                rest = part;
            }
            _ => return true,
        }
    }
}

/// Whether an atom of characters fits; any other is let through.
fn test_passes(test: &Test, sets: &Sets, ignore: bool, next: Option<char>) -> bool
    ensures { result ≡ first_passes sets.now ignore next (one (atom_of test.now)) }
{
    !is_plain(test) || plain_fits(test, sets, ignore, next)
}

/// Whether an atom is one of characters alone.
pub(crate) fn is_plain(test: &Test) -> bool
    ensures { result ≡ is_plain (atom_of test.now) }
{
    match test {
        Test::Char(_) => true,
        Test::Any { line_end } => !*line_end,
        Test::Is {
            class: _,
            not: _,
            line_end,
        } => !*line_end,
        Test::Set(collection) => !collection.takes_line_end(),
        _ => false,
    }
}

/// Whether an atom of characters takes what stands at a column, if anything does.
fn plain_fits(test: &Test, sets: &Sets, ignore: bool, next: Option<char>) -> bool
    ensures { result ≡ plain_fits sets.now ignore next (atom_of test.now) }
{
    match next {
        Some(c) => plain_takes(test, sets, ignore, c),
        None => false,
    }
}

/// Whether an atom of characters takes this one. Of any other atom nothing is told.
#[inline(always)]
pub(crate) fn takes_if_plain(test: &Test, sets: &Sets, ignore: bool, c: char) -> Option<bool>
    ensures { IfSome result (λ takes. (is_plain (atom_of test.now) ≡ true)
        × (takes ≡ plain_takes sets.now ignore (atom_of test.now) c)) }
{
    match test {
        Test::Char(d) => Some(is_one(*d, c, ignore)),
        Test::Is {
            class,
            not,
            line_end,
        } => {
            if *line_end {
                return None;
            }
            Some(class_has(*class, c, sets) != *not)
        }
        Test::Set(collection) => {
            if collection.takes_line_end() {
                return None;
            }
            Some(collection.has(c, sets, ignore))
        }
        Test::Any { line_end } => if *line_end { None } else { Some(true) },
        _ => None,
    }
}

/// Whether an atom of characters takes this one.
pub(crate) fn plain_takes(test: &Test, sets: &Sets, ignore: bool, c: char) -> bool
    ensures { result ≡ plain_takes sets.now ignore (atom_of test.now) c }
{
    match test {
        Test::Char(d) => is_one(*d, c, ignore),
        Test::Is {
            class,
            not,
            line_end: _,
        } => class_has(*class, c, sets) != *not,
        Test::Set(collection) => collection.has(c, sets, ignore),
        _ => true,
    }
}
