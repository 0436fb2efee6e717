//! Going along a line of characters: the first one and what follows, blanks, letters and digits.
//!
//! Each reader of lines, of words and of patterns goes along its text by these, so that a blank or
//! a digit is the same everywhere. A rest is a slice: nothing is copied.
#![tactic(auto)]

ghost use Rattle.std.specs.Prelude.{◌≡◌, [], ◌∷◌, MatchOption};
ghost use Rattle.text_scan.specs.Characters as spec;

mod numbers;

pub use numbers::{Number, digits};

/// The first element and what follows it, or nothing of an empty text.
pub fn front<T: Copy>(text: &[T]) -> Option<(T, &[T])>
    ensures { MatchOption result (text.now ≡ []) (λ p. text.now ≡ p.0 ∷ p.1.now) }
{
    let (first, rest) = text.split_first()?;
    Some((*first, rest))
}

/// Whether the character is a space or a tab. CR is no blank.
pub fn is_blank(c: char) -> bool
    ensures { result ≡ spec.is_blank c }
{
    c == ' ' || c == '\t'
}

/// Whether the character is an ASCII letter.
pub fn is_letter(c: char) -> bool
    ensures { result ≡ spec.is_letter c }
{
    ('A' <= c && c <= 'Z') || ('a' <= c && c <= 'z')
}

/// Whether the character is an ASCII digit.
pub fn is_digit(c: char) -> bool
    ensures { result ≡ spec.is_digit c }
{
    '0' <= c && c <= '9'
}

/// What follows the blanks at the front of a text.
pub fn past_blanks(text: &[char]) -> &[char]
    ensures { result.now ≡ spec.past_blanks text.now }
{
    let mut rest = text;
    while let Some((c, more)) = front(rest) {
        if !is_blank(c) {
            break;
        }
        rest = more;
    }
    rest
}
