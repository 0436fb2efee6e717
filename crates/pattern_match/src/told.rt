//! What a character tells of an atom, without its being tried.
ghost use Rattle.std.specs.Prelude.{◌≡◌};
ghost use Rattle.match_rules.specs.Atoms.{turned_round};
ghost use Rattle.pattern_match.specs.Steps.{atom_of};
ghost use Rattle.pattern_match.specs.Told.{IsFit, stays_if, takes_if};

use crate::cases::is_one;
use crate::context::Context;
use crate::step::Test;
use char_class::class_has;

/// Whether a class holds, or its opposite.
#[inline(always)]
fn turned(holds: bool, not: bool) -> bool
    ensures { result ≡ turned_round not holds }
{
    holds != not
}

/// What a character tells of an atom that looks at its own line alone.
#[derive(Clone, Copy)]
pub(crate) enum Fit {
    /// The atom takes it.
    Takes,
    /// The atom fits before it, and takes nothing.
    Stays,
    /// It doesn't fit.
    Refuses,
    /// Nothing: the atom looks at more.
    Unsure,
}

impl Fit {
    /// That of an atom that takes a character, if it fits.
    fn takes_if(fits: bool) -> Fit
        ensures { result ≡ takes_if fits }
    {
        if fits { Fit::Takes } else { Fit::Refuses }
    }

    /// That of one that takes nothing.
    fn stays_if(fits: bool) -> Fit
        ensures { result ≡ stays_if fits }
    {
        if fits { Fit::Stays } else { Fit::Refuses }
    }
}

/// What a character tells of an atom, by whether it is the first of its line.
#[inline(always)]
pub(crate) fn fit_of(test: &Test, c: char, at_start: bool, context: &Context<'_>) -> Fit
    ensures { IsFit context.now (atom_of test.now) c at_start result }
{
    match test {
        Test::Char(d) => Fit::takes_if(is_one(*d, c, context.ignore)),
        Test::Any { line_end: _ } => Fit::Takes,
        Test::Is {
            class,
            not,
            line_end: _,
        } => Fit::takes_if(turned(class_has(*class, c, context.sets), *not)),
        Test::Set(collection) => Fit::takes_if(collection.has(c, context.sets, context.ignore)),
        Test::LineEnd => Fit::Refuses,
        Test::LineStop => Fit::Refuses,
        Test::LineStart => Fit::stays_if(at_start),
        Test::MatchStart => Fit::Stays,
        Test::MatchStop => Fit::Stays,
        _ => Fit::Unsure,
    }
}
