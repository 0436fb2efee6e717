//! Items, as they are spelled and in their places.
use crate::{Atom, PatternCause};

/// A level of magic (`/magic`).
#[derive(Clone, Copy, Debug, PartialEq, Eq)]
pub enum Level {
    /// `\V`.
    VeryNo,
    /// `\M`.
    No,
    /// `\m`, at which a pattern starts.
    Usual,
    /// `\v`.
    Very,
}

/// What a pattern is for: it decides which external items may stand in it (`/\z(`).
#[derive(Clone, Copy, Debug, PartialEq, Eq)]
pub enum PatternUse {
    Match,
    Start,
    SkipOrEnd,
    /// A pattern of group names.
    Names,
}

/// How many characters a look-behind goes back (`/\@<=`).
#[derive(Clone, Copy, Debug, PartialEq, Eq)]
pub enum Behind {
    Any,
    Most(u32),
}

/// How often, and whether fewer turns come first.
#[derive(Clone, Copy)]
pub struct Times {
    pub least: u32,
    pub most: Option<u32>,
    pub lazy: bool,
}

/// What stands behind an atom and is about it (`/multi`).
#[derive(Clone, Copy)]
pub enum Multi {
    Count(Times),
    /// `/\@=`, `/\@!`.
    Ahead { not: bool },
    /// `/\@<=`, `/\@<!`.
    Before { not: bool, limit: Behind },
    /// `/\@>`.
    Whole,
}

/// What an opening item opens.
#[derive(Clone, Copy)]
pub enum Kind {
    /// `/\(`, with the group's number.
    Counted(u8),
    /// `/\%(`.
    Plain,
    /// `/\z(`, with the external's number.
    External(u8),
    /// `/\%[`.
    Optional,
}

/// An item as it is spelled, before its neighbours are asked.
#[derive(Drop)]
pub enum Raw {
    /// An atom wherever it stands.
    Atom(Atom),
    Caret,
    Dollar,
    Star,
    /// A collection, and how many characters stand before its bracket.
    Collection { line_end: bool, before: u8 },
    /// A bracket that nothing closes, which is a character.
    LoneBracket,
    Multi(Multi),
    Group,
    Plain,
    External,
    Optional,
    Close,
    /// A bare `]`.
    Square,
    Bar,
    Also,
    Magic(Level),
    /// `/\c`, `/\C`.
    Case { ignore: bool },
    /// `/\%#=`.
    Engine,
    Reference(u8),
    ExternalReference(u8),
    LeftOut,
    Wrong(PatternCause),
}

/// An item as it is spelled, and how many characters spell it.
#[derive(Drop)]
pub struct Spelled {
    pub raw: Raw,
    pub len: usize,
}

/// What an item is, in its place.
#[derive(Drop)]
pub enum Sign {
    Atom(Atom),
    Multi(Multi),
    Open(Kind),
    Close,
    /// A bare `]`, which ends an optional list.
    Square,
    Bar,
    Also,
    /// An item that takes no room, and the case that it asks for.
    Quiet { ignore: Option<bool> },
    /// A fault, and how many characters of the item stand before the offending one.
    Wrong { before: u8, cause: PatternCause },
}

/// What stands before an item, for the items that ask.
#[derive(Clone, Copy)]
pub enum Before {
    /// Nothing, in the pattern, a group, a branch or a concat.
    Begin,
    LineStart,
    LineEnd,
    Within,
}

/// What the items before leave.
#[derive(Clone, Copy)]
pub struct Surroundings {
    pub usage: PatternUse,
    pub level: Level,
    pub before: Before,
    /// How many counted groups have opened.
    pub groups: u8,
    /// How many external groups have opened.
    pub externals: u8,
    /// No character stands before.
    pub first: bool,
}

/// An item in its place, how many characters it takes, and what it leaves.
#[derive(Drop)]
pub struct Placed {
    pub sign: Sign,
    pub len: usize,
    pub next: Surroundings,
}
