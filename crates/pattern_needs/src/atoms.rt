//! Atoms of characters, and what they take.
ghost use Rattle.std.specs.Prelude.{◌≡◌};
ghost use Rattle.std.specs.List.{list_any};
ghost use Rattle.match_rules.specs.Collections.{collection_holds, part_holds};
ghost use Rattle.pattern_needs.specs.Needs.{is_character};
ghost use Rattle.pattern_screens.specs.Lined.{is_lined_atom};
ghost use Rattle.pattern_screens.specs.PlainAtoms.{is_plain, plain_takes};

use crate::by::By;
use char_class::{class_has, same};
use pattern_items::{Atom, CharRanges, SetPart};
use pattern_screens::part_has;

/// Whether an atom is one of characters alone.
pub(crate) fn is_plain(atom: &Atom) -> bool
    ensures { result ≡ is_plain atom.now }
{
    match atom {
        Atom::Char(_) => true,
        Atom::Any { line_end } => !*line_end,
        Atom::Is {
            class: _,
            not: _,
            line_end,
        } => !*line_end,
        Atom::Set(ranges) => !ranges.line_end,
        _ => false,
    }
}

/// Whether it is a single character.
pub(crate) fn is_character(atom: &Atom) -> bool
    ensures { result ≡ is_character atom.now }
{
    matches!(atom, Atom::Char(_))
}

/// Whether an atom stays in its line and looks at it alone.
pub(crate) fn is_lined_atom(atom: &Atom) -> bool
    ensures { result ≡ is_lined_atom atom.now }
{
    match atom {
        Atom::LineStart
        | Atom::LineStop
        | Atom::WordStart
        | Atom::WordStop
        | Atom::MatchStart
        | Atom::MatchStop => true,
        _ => is_plain(atom),
    }
}

/// Whether an atom of characters takes this one.
pub(crate) fn plain_takes(atom: &Atom, by: &By, c: char) -> bool
    ensures { result ≡ plain_takes by.now.sets.now by.now.ignore atom.now c }
{
    match atom {
        Atom::Char(d) => same(*d, c, by.ignore),
        Atom::Is {
            class,
            not,
            line_end: _,
        } => class_has(*class, c, by.sets) != *not,
        Atom::Set(ranges) => collection_has(ranges, by, c),
        _ => true,
    }
}

fn collection_has(ranges: &CharRanges, by: &By, c: char) -> bool
    ensures { result ≡ collection_holds ranges.now c by.now.sets.now by.now.ignore }
{
    some_part_has(ranges.parts.as_slice(), by, c) != ranges.not
}

fn some_part_has(parts: &[SetPart], by: &By, c: char) -> bool
    ensures { result
        ≡ list_any (λ part. part_holds part c by.now.sets.now by.now.ignore) parts.now }
{
    for part in parts {
        if part_has(*part, c, by.sets, by.ignore) {
            return true;
        }
    }
    false
}
