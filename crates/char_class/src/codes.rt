//! A set of the characters below 256.
ghost use Rattle.std.specs.Prelude.{◌≡◌, ◌==◌, ℕ, [], false, if◌then◌else◌};
ghost use Rattle.char_class.specs.Bits.{has_bit, has_code, members_of};

/// A set of the characters below 256, as its bits. A set of characters by an option's value is one,
/// and so is the table of a pattern's collection.
#[derive(Clone, Copy)]
pub struct Codes {
    words: [u64; 4],
}

impl Codes {
    /// The empty set.
    pub fn none() -> Codes
        ensures each { (c : ℕ) → has_code result c ≡ false }
        ensures all { members_of result ≡ [] }
    {
        Codes { words: [0; 4] }
    }

    /// Whether the character of this code is in the set.
    pub fn have(&self, code: u8) -> bool
        ensures { result ≡ has_code self.now code }
    {
        self.words[usize::from(code / 64)] >> (code % 64) & 1 == 1
    }

    /// Puts the character of this code in, or takes it out.
    pub fn set(&mut self, code: u8, member: bool)
        ensures { (c : ℕ) → has_code self.new c
            ≡ (if c == code then member else has_code self.old c) }
    {
        put(&mut self.words, code, member);
    }
}

fn put(words: &mut [u64; 4], code: u8, member: bool)
    ensures { (c : ℕ) → has_bit words.new c ≡ (if c == code then member else has_bit words.old c) }
{
    let at = usize::from(code / 64);
    let bit: u64 = 1 << (code % 64);
    let word = words[at];
    words[at] = if member { word | bit } else { word & !bit };
}
