//! The character classes of patterns.

/// A class of characters, as a pattern names it by a letter (`/character-classes`). The four last
/// ones are those before them without the digits `0` to `9`.
#[derive(Clone, Copy, Debug, PartialEq, Eq)]
pub enum Class {
    /// Space and tab, `\s`.
    White,
    /// `\d`.
    Digit,
    /// `\x`.
    Hex,
    /// `\o`.
    Octal,
    /// Letters, digits and `_`, `\w`.
    Word,
    /// Letters and `_`, `\h`.
    Head,
    /// Letters, `\a`.
    Alpha,
    /// `\l`.
    Lower,
    /// `\u`.
    Upper,
    /// Identifier characters, `\i`.
    Ident,
    /// Keyword characters, `\k`.
    Keyword,
    /// File name characters, `\f`.
    File,
    /// Printable characters, `\p`.
    Print,
    /// `\I`.
    IdentNoDigit,
    /// `\K`.
    KeywordNoDigit,
    /// `\F`.
    FileNoDigit,
    /// `\P`.
    PrintNoDigit,
}
