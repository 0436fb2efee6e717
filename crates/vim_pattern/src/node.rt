//! The nodes of a tree.
use crate::{Atom, Behind};

/// A node of a pattern's tree. `Seq`, `Or` and `And` lean to the right: the second part holds the
/// rest.
#[derive(Drop)]
pub enum Node {
    /// A concat without pieces.
    Empty,
    One(Atom),
    /// One piece and those behind it.
    Seq(Box<Node>, Box<Node>),
    /// One branch and those behind it (`/\|`).
    Or(Box<Node>, Box<Node>),
    /// One concat and those behind it (`/\&`).
    And(Box<Node>, Box<Node>),
    /// A counted group and its number, from 1 to 9 (`/\(`).
    Group(Box<Node>, u8),
    /// An external group and its number, from 1 to 9 (`/\z(`).
    External(Box<Node>, u8),
    /// A count; `lazy` where fewer turns come first (`/\{-`).
    Repeat {
        part: Box<Node>,
        least: u32,
        most: Option<u32>,
        lazy: bool,
    },
    /// A look ahead (`/\@=`, `/\@!`).
    Ahead {
        part: Box<Node>,
        not: bool,
    },
    /// A look behind (`/\@<=`, `/\@<!`).
    Before {
        part: Box<Node>,
        not: bool,
        limit: Behind,
    },
    /// An atom of which only the first way is taken (`/\@>`).
    Whole(Box<Node>),
}
