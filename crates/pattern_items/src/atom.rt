//! Atoms, and what a collection holds.
use syn_base::{Class, List};

/// A part of a collection (`/[]`).
#[derive(Clone, Copy, Debug, PartialEq, Eq)]
pub enum SetPart {
    /// The characters from the first to the second, both included.
    Range(char, char),
    Of(Class),
    Punct,
    Cntrl,
    Graph,
    Space,
}

/// A collection (`/[]`): what it holds, whether it is turned round by `^`, and whether it also
/// takes a line end.
#[derive(Drop)]
pub struct CharRanges {
    pub not: bool,
    pub line_end: bool,
    pub parts: List<SetPart>,
}

/// Which lines a line number in a pattern names (`/\%l`).
#[derive(Clone, Copy, Debug, PartialEq, Eq)]
pub enum Compare {
    /// The line of that number (`/\%23l`).
    At,
    /// Each line before it (`/\%<23l`).
    Before,
    /// Each line after it (`/\%>23l`).
    After,
}

/// What is tried at one place (`pattern-atoms`).
#[derive(Drop)]
pub enum Atom {
    Char(char),
    /// Any character (`/.`), or a line end too (`/\_.`).
    Any {
        line_end: bool,
    },
    /// A class letter (`/character-classes`), or its opposite, or a line end too (`/\_`).
    Is {
        class: Class,
        not: bool,
        line_end: bool,
    },
    Set(CharRanges),
    /// `/\n`.
    LineEnd,
    /// `/^`, `/\_^`.
    LineStart,
    /// `/$`, `/\_$`.
    LineStop,
    /// `/\<`.
    WordStart,
    /// `/\>`.
    WordStop,
    /// `/\%^`.
    FileStart,
    /// `/\%$`.
    FileStop,
    /// `/\zs`.
    MatchStart,
    /// `/\ze`.
    MatchStop,
    /// A place in the line of a number, or in one before or after it (`/\%l`). Lines count from 1
    /// here, and the absent line behind the last has the next number.
    LineNumber {
        how: Compare,
        number: u32,
    },
    /// The text of a group, from 1 to 9 (`/\1`).
    Ref(u8),
    /// A text of the start match, from 1 to 9 (`/\z1`).
    ExternalRef(u8),
}
