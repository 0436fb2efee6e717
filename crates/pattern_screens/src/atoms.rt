//! Whether an atom takes a character.
ghost use Rattle.std.specs.Prelude.{◌≡◌};
ghost use Rattle.std.specs.List.{list_any};
ghost use Rattle.pattern_screens.specs.Common.{class_in_set, collection_holds, part_holds, is_plain, plain_takes, class_has_other, may_take, may_take_other, part_may_hold, takes_end};

use crate::key::Next;
use char_class::{Sets, class_has, range_has, same};
use pattern_items::{Atom, CharRanges, SetPart};
use syn_base::Class;

/// What atoms and screens go by, beside what stands there.
#[derive(Clone, Copy)]
pub(crate) struct By<'a> {
    /// The sets of the classes.
    pub(crate) sets: &'a Sets,
    /// Whether case is ignored.
    pub(crate) ignore: bool,
}

/// Whether an atom is one of characters alone.
pub(crate) fn is_plain(atom: &Atom) -> bool
    ensures { result ≡ is_plain atom.now }
{
    match atom {
        Atom::Char(_) => true,
        Atom::Any { line_end } => !*line_end,
        Atom::Is { line_end, .. } => !*line_end,
        Atom::Set(ranges) => !ranges.line_end,
        _ => false,
    }
}

/// Whether an atom of characters takes this one.
fn plain_takes(by: &By, atom: &Atom, c: char) -> bool
    ensures { result ≡ plain_takes by.now.sets.now by.now.ignore atom.now c }
{
    match atom {
        Atom::Char(d) => same(*d, c, by.ignore),
        Atom::Is { class, not, .. } => class_has(*class, c, by.sets) != *not,
        Atom::Set(ranges) => collection_has(ranges, c, by),
        _ => true,
    }
}

/// Whether an atom may take what stands at a column.
pub(crate) fn may_take(by: &By, atom: &Atom, next: Next) -> bool
    ensures { result ≡ may_take by.now.sets.now by.now.ignore atom.now next }
{
    match next {
        Next::Code(code) => plain_takes(by, atom, char::from(code)),
        Next::OtherKeyword => may_take_other(true, by.ignore, atom),
        Next::OtherCharacter => may_take_other(false, by.ignore, atom),
        Next::LineEnd => takes_end(atom),
    }
}

/// Whether it may take a character from 256 on, of which it is known alone whether it is a keyword
/// character.
fn may_take_other(keyword: bool, ignore: bool, atom: &Atom) -> bool
    ensures { result ≡ may_take_other keyword ignore atom.now }
{
    match atom {
        Atom::Char(c) => ignore || u32::from(*c) >= 256,
        Atom::Is { class, not, .. } => class_has_other(*class, keyword) != *not,
        Atom::Set(ranges) => {
            ranges.not || some_part_may_hold(keyword, ignore, ranges.parts.as_slice())
        }
        _ => true,
    }
}

fn some_part_may_hold(keyword: bool, ignore: bool, parts: &[SetPart]) -> bool
    ensures { result ≡ list_any (part_may_hold keyword ignore) parts.now }
{
    for part in parts {
        if part_may_hold(keyword, ignore, *part) {
            return true;
        }
    }
    false
}

/// Whether a part of a collection may hold such a character.
fn part_may_hold(keyword: bool, ignore: bool, part: SetPart) -> bool
    ensures { result ≡ part_may_hold keyword ignore part }
{
    match part {
        SetPart::Range(_, high) => ignore || u32::from(high) >= 256,
        SetPart::Of(class) => class_has_other(class, keyword),
        _ => false,
    }
}

/// Whether a class has such a character.
fn class_has_other(class: Class, keyword: bool) -> bool
    ensures { result ≡ class_has_other class keyword }
{
    match class {
        Class::Ident
        | Class::Keyword
        | Class::File
        | Class::IdentNoDigit
        | Class::KeywordNoDigit
        | Class::FileNoDigit => keyword,
        Class::Print | Class::PrintNoDigit => true,
        _ => false,
    }
}

/// Whether an atom takes a line end.
fn takes_end(atom: &Atom) -> bool
    ensures { result ≡ takes_end atom.now }
{
    match atom {
        Atom::Any { line_end } => *line_end,
        Atom::Is { line_end, .. } => *line_end,
        Atom::Set(ranges) => ranges.line_end,
        _ => false,
    }
}

fn collection_has(ranges: &CharRanges, c: char, by: &By) -> bool
    ensures { result ≡ collection_holds ranges.now c by.now.sets.now by.now.ignore }
{
    some_part_has(ranges.parts.as_slice(), c, by) != ranges.not
}

fn some_part_has(parts: &[SetPart], c: char, by: &By) -> bool
    ensures { result
        ≡ list_any (λ part. part_holds part c by.now.sets.now by.now.ignore) parts.now }
{
    for part in parts {
        if part_has(*part, c, by.sets, by.ignore) {
            return true;
        }
    }
    false
}

/// Whether a part of a collection holds a character (`/collection`).
pub fn part_has(part: SetPart, c: char, sets: &Sets, ignore: bool) -> bool
    ensures { result ≡ part_holds part c sets.now ignore }
{
    match part {
        SetPart::Range(low, high) => range_has(low, high, c, ignore),
        SetPart::Of(class) => class_in_set(class, c, sets, ignore),
        SetPart::Punct => c.is_ascii_punctuation(),
        SetPart::Cntrl => c.is_ascii_control(),
        SetPart::Graph => ('!'..='~').contains(&c),
        SetPart::Space => ('\t'..='\r').contains(&c) || c == ' ',
    }
}

/// Whether a class of a collection holds a character: where case is ignored, small letters and
/// capitals are each all letters.
fn class_in_set(class: Class, c: char, sets: &Sets, ignore: bool) -> bool
    ensures { result ≡ class_in_set class c sets.now ignore }
{
    match class {
        Class::Lower | Class::Upper if ignore => c.is_ascii_alphabetic(),
        _ => class_has(class, c, sets),
    }
}
