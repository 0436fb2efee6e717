//! Characters of which a line must have one.
ghost use Rattle.std.specs.Prelude.{◌≡◌, ◌≤◌, ℕ, IsTrue, Some, true, false};
ghost use Rattle.pattern_needs.specs.Characters.{holds};

use crate::characters::Characters;

/// Characters of which a line must have one, at a place of its own, so that a pattern has a way in
/// it: so far as the line has at most so many characters, in which attempts in vain are within the
/// budget.
#[derive(Clone, Copy)]
pub(crate) struct OneOf {
    pub(crate) characters: Characters,
    pub(crate) most: u64,
}

impl OneOf {
    /// Any character.
    pub(crate) fn untold() -> OneOf
        ensures { (c : ℕ) → holds result.characters c ≡ true }
    {
        OneOf {
            characters: Characters::all(),
            most: 0,
        }
    }

    /// What is needed by each of two.
    pub(crate) fn or(&self, other: &OneOf) -> OneOf
        ensures most { (result.most ≤ self.now.most) × (result.most ≤ other.now.most) }
        ensures one { (c : ℕ) → holds self.now.characters c ≡ true →
            holds result.characters c ≡ true }
        ensures other { (c : ℕ) → holds other.now.characters c ≡ true →
            holds result.characters c ≡ true }
    {
        OneOf {
            characters: self.characters.with(&other.characters),
            most: self.most.min(other.most),
        }
    }

    /// Whether a line of at most so many characters, all of which are among some, has none of them.
    pub(crate) fn are_missed(&self, among: &Characters, many: usize) -> bool
        ensures { IsTrue result → (many ≤ self.now.most) × ((c : ℕ) →
            holds among.now c ≡ true → holds self.now.characters c ≡ false) }
    {
        many as u64 <= self.most && !among.meets(&self.characters)
    }

    /// Whether a character of a line of at most so many, if it is there, is none of them.
    pub(crate) fn is_missed(&self, character: Option<char>, many: usize) -> bool
        ensures { IsTrue result → (many ≤ self.now.most) ×
            ((c : ℕ) × ((character ≡ Some c) × (holds self.now.characters c ≡ false))) }
    {
        match character {
            Some(c) => many as u64 <= self.most && !self.characters.has(c),
            None => false,
        }
    }
}
