//! Keys of a style, and colours.
ghost use Rattle.std.specs.Prelude.{◌≡◌, ◌≤◌, IfSome};
ghost use Rattle.word_values.specs.StyleWords as spec;

use text_scan::front;
use word_reader::is_word;

/// A key of a style (`highlight-args`).
#[derive(Clone, Copy, Debug, PartialEq, Eq)]
pub enum StyleKey {
    /// `guifg`.
    FrontColour,
    /// `guibg`.
    BackColour,
    /// `gui`.
    Shapes,
    /// One without effect.
    NoEffect,
}

fn has_no_effect(key: &[char]) -> bool
    ensures { result ≡ spec.has_no_effect key.now }
{
    is_word(key, "term")
        || is_word(key, "cterm")
        || is_word(key, "ctermfg")
        || is_word(key, "ctermbg")
        || is_word(key, "ctermul")
        || is_word(key, "ctermfont")
        || is_word(key, "start")
        || is_word(key, "stop")
        || is_word(key, "font")
        || is_word(key, "guisp")
}

/// The key that a word spells.
pub fn style_key(key: &[char]) -> Option<StyleKey>
    ensures { result ≡ spec.style_key key.now }
{
    if is_word(key, "guifg") {
        Some(StyleKey::FrontColour)
    } else if is_word(key, "guibg") {
        Some(StyleKey::BackColour)
    } else if is_word(key, "gui") {
        Some(StyleKey::Shapes)
    } else if has_no_effect(key) {
        Some(StyleKey::NoEffect)
    } else {
        None
    }
}

/// A number with one hexadecimal digit more.
fn with_hex(n: u32, c: char) -> Option<u32>
    requires { n ≤ 16777215 }
    ensures value { result ≡ spec.with_hex n c }
    ensures small { IfSome result (λ m. m ≤ 16777215) }
{
    let longer = n * 16 + c.to_digit(16)?;
    if longer <= 0xFFFFFF {
        Some(longer)
    } else {
        None
    }
}

/// Six hexadecimal digits as a number.
pub fn rgb(digits: &[char]) -> Option<u32>
    ensures { result ≡ spec.rgb digits.now }
{
    if digits.len() != 6 {
        return None;
    }
    let mut n = 0;
    let mut rest = digits;
    while let Some((c, more)) = front(rest) {
        n = with_hex(n, c)?;
        rest = more;
    }
    Some(n)
}
