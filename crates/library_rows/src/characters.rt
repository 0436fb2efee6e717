//! Calls of `char_class`.
//!
//!     fold C               the fold of a character
//!     same C D             whether two characters are one; with a third argument, where case is ignored
//!     range A Z C          whether a range has a character; with a fourth argument, where case is ignored
//!     class k TEXT         the characters of the text that the class has, which a pattern names by its letter
//!     option VALUE TEXT    the characters of the text that are in the set of an option's value, or the place
//!                          of its fault, from 0

use crate::answer::add_whether;
use crate::fault::{Fault, character_of};
use char_class::{CharSet, Sets, class_has, fold, range_has, same};
use syn_base::Class;

pub(crate) fn fold_case(arguments: &[&str], answer: &mut String) -> Result<(), Fault> {
    let [c] = arguments else {
        return Err(Fault::BadCase);
    };
    answer.push(fold(character_of(c)?))?;
    Ok(())
}

pub(crate) fn are_same(arguments: &[&str], answer: &mut String) -> Result<(), Fault> {
    let [c, d, ignoring @ ..] = arguments else {
        return Err(Fault::BadCase);
    };
    let holds = same(character_of(c)?, character_of(d)?, !ignoring.is_empty());
    add_whether(answer, holds)
}

pub(crate) fn is_in_range(arguments: &[&str], answer: &mut String) -> Result<(), Fault> {
    let [low, high, c, ignoring @ ..] = arguments else {
        return Err(Fault::BadCase);
    };
    let (low, high) = (character_of(low)?, character_of(high)?);
    let holds = range_has(low, high, character_of(c)?, !ignoring.is_empty());
    add_whether(answer, holds)
}

pub(crate) fn in_class(arguments: &[&str], members: &mut String) -> Result<(), Fault> {
    let [letter, text] = arguments else {
        return Err(Fault::BadCase);
    };
    let class = class_of(letter)?;
    let sets = Sets::usual();
    for c in text.chars() {
        if class_has(class, c, &sets) {
            members.push(c)?;
        }
    }
    Ok(())
}

/// The class of a letter.
fn class_of(letter: &str) -> Result<Class, Fault> {
    Ok(match letter {
        "s" => Class::White,
        "d" => Class::Digit,
        "x" => Class::Hex,
        "o" => Class::Octal,
        "w" => Class::Word,
        "h" => Class::Head,
        "a" => Class::Alpha,
        "l" => Class::Lower,
        "u" => Class::Upper,
        "i" => Class::Ident,
        "k" => Class::Keyword,
        "f" => Class::File,
        "p" => Class::Print,
        "I" => Class::IdentNoDigit,
        "K" => Class::KeywordNoDigit,
        "F" => Class::FileNoDigit,
        "P" => Class::PrintNoDigit,
        _ => return Err(Fault::BadCase),
    })
}

pub(crate) fn in_option(arguments: &[&str], answer: &mut String) -> Result<(), Fault> {
    let [value, text] = arguments else {
        return Err(Fault::BadCase);
    };
    match CharSet::from_option(value) {
        Ok(set) => write_members(answer, &set, text),
        Err(bad) => {
            let at = bad.at;
            write!(answer, "bad at {at}")?;
            Ok(())
        }
    }
}

/// Writes the characters of a text that a set has.
fn write_members(members: &mut String, set: &CharSet, text: &str) -> Result<(), Fault> {
    for c in text.chars() {
        if set.has(c) {
            members.push(c)?;
        }
    }
    Ok(())
}
