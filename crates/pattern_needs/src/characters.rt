//! Some characters.
ghost use Rattle.std.specs.Prelude.{◌≡◌, ◌==◌, ◌<◌, ◌||◌, ℕ, true, false, nat_le, if◌then◌else◌};
ghost use Rattle.std.specs.List.{All};
ghost use Rattle.char_class.specs.Bits.{has_bit};
ghost use Rattle.pattern_needs.specs.Characters.{holds};

/// Some characters: those below 256 one by one, and all others together.
#[derive(Clone, Copy)]
pub(crate) struct Characters {
    words: [u64; 4],
    others: bool,
}

impl Characters {
    /// No character.
    pub(crate) fn none() -> Characters
        ensures { (c : ℕ) → holds result c ≡ false }
    {
        Characters {
            words: [0; 4],
            others: false,
        }
    }

    /// All characters from 256 on.
    pub(crate) fn others() -> Characters
        ensures { (c : ℕ) → holds result c ≡ nat_le 256 c }
    {
        Characters {
            words: [0; 4],
            others: true,
        }
    }

    /// The characters of a line.
    pub(crate) fn of(line: &[char]) -> Characters
        ensures { All (λ c. holds result c ≡ true) line.now }
    {
        let mut held = Characters::none();
        for c in line {
            held.add(*c);
        }
        held
    }

    /// Adds a character.
    fn add(&mut self, c: char)
        ensures here { holds self.new c ≡ true }
        ensures kept { (d : ℕ) → holds self.old d ≡ true → holds self.new d ≡ true }
    {
        match u8::try_from(c) {
            Ok(code) => self.add_code(code),
            Err(_) => self.others = true,
        }
    }

    /// Adds the character of a code.
    pub(crate) fn add_code(&mut self, code: u8)
        ensures { (c : ℕ) → holds self.new c ≡ (if c == code then true else holds self.old c) }
    {
        put(&mut self.words, code);
    }

    /// All characters.
    pub(crate) fn all() -> Characters
        ensures { (c : ℕ) → holds result c ≡ true }
    {
        Characters {
            words: [u64::MAX; 4],
            others: true,
        }
    }

    /// Whether a character is among them.
    pub(crate) fn has(&self, c: char) -> bool
        ensures { result ≡ holds self.now c }
    {
        match u8::try_from(c) {
            Ok(code) => is_in(&self.words, code),
            Err(_) => self.others,
        }
    }

    /// The characters of both.
    pub(crate) fn with(&self, other: &Characters) -> Characters
        ensures { (c : ℕ) → holds result c ≡ (holds self.now c || holds other.now c) }
    {
        Characters {
            words: joined(&self.words, &other.words),
            others: self.others | other.others,
        }
    }

    /// Whether each character is among them.
    pub(crate) fn are_all(&self) -> bool {
        self.words == [u64::MAX; 4] && self.others
    }

    /// Whether a character may be in both.
    pub(crate) fn meets(&self, other: &Characters) -> bool
        ensures { result ≡ false → (c : ℕ) → holds self.now c ≡ true → holds other.now c ≡ false }
    {
        have_common(&self.words, &other.words) | (self.others & other.others)
    }
}

/// Whether a code is in them.
fn is_in(words: &[u64; 4], code: u8) -> bool
    ensures { result ≡ has_bit words.now code }
{
    words[usize::from(code / 64)] >> (code % 64) & 1 == 1
}

/// Puts a code in.
fn put(words: &mut [u64; 4], code: u8)
    ensures { (c : ℕ) → has_bit words.new c ≡ (if c == code then true else has_bit words.old c) }
{
    let at = usize::from(code / 64);
    let bit: u64 = 1 << (code % 64);
    let word = words[at];
    words[at] = word | bit;
}

/// The codes of both.
fn joined(a: &[u64; 4], b: &[u64; 4]) -> [u64; 4]
    ensures { (c : ℕ) → c < 256 → has_bit result c ≡ (has_bit a.now c || has_bit b.now c) }
{
    [a[0] | b[0], a[1] | b[1], a[2] | b[2], a[3] | b[3]]
}

/// Whether a code is in both.
fn have_common(a: &[u64; 4], b: &[u64; 4]) -> bool
    ensures { result ≡ false → (c : ℕ) → c < 256 → has_bit a.now c ≡ true →
        has_bit b.now c ≡ false }
{
    a[0] & b[0] | a[1] & b[1] | a[2] & b[2] | a[3] & b[3] != 0
}
