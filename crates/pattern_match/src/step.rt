//! Nodes and atoms of a pattern, made ready for the matcher.
ghost use Rattle.std.specs.Prelude.{◌≡◌, MatchOption, None, Some};
ghost use Rattle.pattern_match.specs.Fates.{stops_first};
ghost use Rattle.pattern_match.specs.FirstAtom.{first_atom, is_forced};
ghost use Rattle.pattern_match.specs.Steps.{atom_of, shape_of};
ghost use Rattle.pattern_match.specs.Glance.{notes_place};

use crate::collection::Collection;
use crate::runs::less_by;
use pattern_items::{Behind, Compare};
use pattern_screens::is_spent;
use syn_base::Class;

/// A node, with the names of `vim_pattern::Node`, and plainer ones that stand for some of them.
#[derive(Drop)]
pub(crate) enum Step {
    Empty,
    One(Test),
    Seq(Box<Step>, Box<Step>),
    Or(Box<Step>, Box<Step>),
    /// The one part or the other, where neither tries an atom, and each has a way.
    Choice(Box<Step>, Box<Step>),
    /// The part, or nothing.
    Optional(Box<Step>),
    And(Box<Step>, Box<Step>),
    Group(Box<Step>, u8),
    External(Box<Step>, u8),
    Repeat {
        part: Box<Step>,
        least: u32,
        most: Option<u32>,
        lazy: bool,
    },
    Ahead {
        part: Box<Step>,
        not: bool,
    },
    Before {
        part: Box<Step>,
        not: bool,
        limit: Behind,
    },
    Whole(Box<Step>),
    /// Has no way and tries no atom.
    Never,
}

/// An atom, with the names of `vim_pattern::Atom`.
#[derive(Drop)]
pub(crate) enum Test {
    Char(char),
    Any {
        line_end: bool,
    },
    Is {
        class: Class,
        not: bool,
        line_end: bool,
    },
    Set(Box<Collection>),
    LineEnd,
    LineStart,
    LineStop,
    WordStart,
    WordStop,
    FileStart,
    FileStop,
    MatchStart,
    MatchStop,
    LineNumber {
        how: Compare,
        number: u32,
    },
    Ref(u8),
    ExternalRef(u8),
}

/// The atom that every attempt of a node tries first, if there is one: where it doesn't fit, nothing
/// more is tried.
pub(crate) fn first_test(step: &Step) -> Option<&Test>
    ensures { MatchOption result (first_atom (shape_of step.now) ≡ None)
        (λ test. first_atom (shape_of step.now) ≡ Some (atom_of test.now)) }
{
    let mut rest = step;
    loop {
        match rest {
            Step::One(test) => return Some(test),
            Step::Seq(first, _) => rest = first,
            Step::Group(part, _) => rest = part,
            Step::External(part, _) => rest = part,
            Step::Repeat {
                part,
                least,
                most,
                lazy: _,
            } => {
                if !is_forced(*least, *most) {
                    return None;
                }
                rest = part;
            }
            _ => return None,
        }
    }
}

/// Whether a count has to take a turn.
pub(crate) fn is_forced(least: u32, most: Option<u32>) -> bool
    ensures { result ≡ is_forced least most }
{
    match most {
        Some(most) => least > 0 && most > 0,
        None => least > 0,
    }
}

/// Whether a count stops as soon as it may: a lazy one, and one that may take no turns but those that it
/// has to take.
pub(crate) fn stops_first(least: u32, most: Option<u32>, lazy: bool) -> bool
    ensures { result ≡ stops_first least most lazy }
{
    lazy || (is_forced(least, most) && is_spent(less_by(most, least as usize)))
}

/// Whether an atom notes its place.
pub(crate) fn notes_place(test: &Test) -> bool
    ensures { result ≡ notes_place (atom_of test.now) }
{
    match test {
        Test::MatchStart | Test::MatchStop => true,
        _ => false,
    }
}
