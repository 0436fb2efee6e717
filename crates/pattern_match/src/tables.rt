//! The tables of a collection: which characters below 256 its parts hold.
ghost use Rattle.std.specs.Prelude.{◌≡◌, ◌==◌, ◌&&◌, ◌||◌, ℕ, ◌<◌, not, IsOk, codes, Ok};
ghost use Rattle.std.specs.List.{list_any};
ghost use Rattle.std.specs.Str.{chars};
ghost use Rattle.char_class.specs.Bits.{has_code};
ghost use Rattle.char_class.specs.OptionValue.{set_of};
ghost use Rattle.match_rules.specs.Collections.{part_holds};
ghost use Rattle.pattern_match.specs.ReadyParts.{IsTableOf, is_optional, is_optional_class, some_fixed_holds, some_optional_holds, some_part_holds};

use crate::bounds::{CodeRange, bounds};
use char_class::{CharSet, Codes, Sets};
use pattern_items::SetPart;
use pattern_screens::part_has;
use syn_base::Class;

/// The table of the parts on which no option's set decides.
pub(crate) fn table_of(parts: &[SetPart], ignore: bool) -> Codes
    ensures { IsTableOf parts.now ignore result }
{
    let sets = some_sets();
    codes_of(parts, &sets, ignore)
}

/// Sets that the parts of a table don't go by.
fn some_sets() -> Sets {
    Sets {
        ident: some_set(),
        keyword: some_set(),
        file: some_set(),
    }
}

fn some_set() -> CharSet {
    match CharSet::from_option("_") {
        Ok(set) => set,
        Err(_) => unreachable!(),
    }
}

fn codes_of(parts: &[SetPart], sets: &Sets, ignore: bool) -> Codes
    ensures { (c : ℕ) → c < 256 → has_code result c ≡ some_fixed_holds parts.now c sets.now ignore }
{
    let mut codes = Codes::none();
    for part in parts {
        if !is_optional(*part) {
            add_part(&mut codes, *part, sets, ignore);
        }
    }
    codes
}

/// Puts the characters of a part in.
fn add_part(codes: &mut Codes, part: SetPart, sets: &Sets, ignore: bool)
    ensures { (c : ℕ) → c < 256 → has_code codes.new c
        ≡ (part_holds part c sets.now ignore || has_code codes.old c) }
{
    let CodeRange { low, high } = bounds(part, ignore);
    for code in low..=high {
        add_code(codes, code, part_has(part, char::from(code), sets, ignore));
    }
}

/// Puts a character in where it is to be.
fn add_code(codes: &mut Codes, code: u8, wanted: bool)
    ensures { (c : ℕ) → has_code codes.new c ≡ (wanted && c == code || has_code codes.old c) }
{
    if wanted {
        codes.set(code, true);
    }
}

/// Whether one of the parts holds a character.
pub(crate) fn some_part_has(parts: &[SetPart], c: char, sets: &Sets, ignore: bool) -> bool
    ensures { result ≡ some_part_holds parts.now c sets.now ignore }
{
    for part in parts {
        if part_has(*part, c, sets, ignore) {
            return true;
        }
    }
    false
}

/// Whether one of the parts on which an option's set decides holds a character.
pub(crate) fn some_optional_has(parts: &[SetPart], c: char, sets: &Sets, ignore: bool) -> bool
    ensures { result ≡ some_optional_holds parts.now c sets.now ignore }
{
    for part in parts {
        if is_optional(*part) && part_has(*part, c, sets, ignore) {
            return true;
        }
    }
    false
}

/// Whether an option's set decides on one of the parts.
pub(crate) fn some_is_optional(parts: &[SetPart]) -> bool
    ensures { result ≡ list_any is_optional parts.now }
{
    for part in parts {
        if is_optional(*part) {
            return true;
        }
    }
    false
}

fn is_optional(part: SetPart) -> bool
    ensures { result ≡ is_optional part }
{
    match part {
        SetPart::Of(class) => is_optional_class(class),
        _ => false,
    }
}

fn is_optional_class(class: Class) -> bool
    ensures { result ≡ is_optional_class class }
{
    matches!(
        class,
        Class::Ident
            | Class::Keyword
            | Class::File
            | Class::IdentNoDigit
            | Class::KeywordNoDigit
            | Class::FileNoDigit
    )
}
