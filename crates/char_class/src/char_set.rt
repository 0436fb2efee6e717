//! A set of characters, as a bit set of its members below 256.
ghost use Rattle.std.specs.Prelude.{◌≡◌, ◌==◌, ◌&&◌, ◌||◌, ℕ, not, [], if◌then◌else◌};
ghost use Rattle.std.specs.Str.{chars};
ghost use Rattle.unicode.specs.Binary.{is_alphabetic};
ghost use Rattle.char_class.specs.Bits.{has_code};
ghost use Rattle.char_class.specs.CharSet.{is_member, is_numeric, set_has, set_where};
ghost use Rattle.char_class.specs.OptionValue.{is_named, set_of, with_part};

use crate::option_value::{Part, Reader};
use crate::{BadOption, Codes};
use std::marker::Model;
use unicode::properties::{GeneralCategory, GeneralCategoryGroup, is_alphabetic};

/// A set of characters, by the value of an option such as 'iskeyword'. A contract sees the list of
/// its members below 256, least first.
#[derive(Drop)]
pub struct CharSet {
    codes: Codes,
}

impl Model for CharSet {
    ghost use Rattle.std.specs.Prelude.{ℕ, List};
    ghost use Rattle.char_class.specs.Bits.{members_of};

    ghost Value = { List ℕ };

    ghost view = { λ s. members_of s.codes };
}

impl CharSet {
    /// The set of an option's value (`'isfname'`): parts with commas between, taken from left to
    /// right. `BadOption` tells the first part that has no reading.
    ///
    /// This profile's own: the letters of `@` are the alphabetic codes; a number is a code, so `64`
    /// is the character `@`; a comma is a part of its own alone, never an end of a range; a blank
    /// is a character like any other; an empty value has no reading.
    pub fn from_option(text: &str) -> Result<CharSet, BadOption>
        ensures { result ≡ set_of (chars text.now) }
    {
        let mut reader = Reader::new();
        for c in text.chars() {
            reader.take(c)?;
        }
        reader.end()
    }

    /// Whether the set has `c`. Which characters it has from 256 on is this profile's.
    #[inline(always)]
    #[tactic(auto, unfolding(crate::specs::CharSet::set_has))]
    pub fn has(&self, c: char) -> bool
        ensures { result ≡ set_has self.now c }
    {
        match u8::try_from(c) {
            Ok(code) => self.has_code(code),
            Err(_) => is_other_member(c),
        }
    }

    fn has_code(&self, code: u8) -> bool
        ensures { result ≡ is_member self.now code }
    {
        self.codes.have(code)
    }

    pub(crate) fn new() -> CharSet
        ensures { result ≡ [] }
    {
        CharSet {
            codes: Codes::none(),
        }
    }

    /// Puts what the part names in, or takes it out.
    pub(crate) fn apply(&mut self, part: Part)
        ensures { self.new ≡ with_part self.old part }
    {
        let (low, high) = part.members.bounds();
        for code in low..=high {
            apply_to(&mut self.codes, part, code);
        }
    }
}

/// Puts one code in or takes it out, where the part names it.
fn apply_to(codes: &mut Codes, part: Part, code: u8)
    ensures { (c : ℕ) → has_code codes.new c ≡
        (if is_named part.members c && c == code then not part.taken_out
        else has_code codes.old c) }
{
    if part.members.have(code) {
        codes.set(code, !part.taken_out);
    }
}

/// Whether a set has the character, which isn't below 256.
#[inline(never)]
fn is_other_member(c: char) -> bool
    ensures { result ≡ (is_alphabetic c || is_numeric c) }
{
    is_alphabetic(c) || is_number(c)
}

fn is_number(c: char) -> bool
    ensures { result ≡ is_numeric c }
{
    GeneralCategoryGroup::Number.contains(GeneralCategory::for_char(c))
}
