//! A node, parted from its children.
ghost use Rattle.std.specs.Prelude.{◌≡◌};
ghost use Rattle.vim_pattern.specs.Parted.{AreSmaller, shape_parted};
ghost use Rattle.vim_pattern.specs.Shape.{bare};

use crate::{Atom, Behind, Node};

/// What a node is of its two children.
#[derive(Clone, Copy, Debug, PartialEq, Eq)]
pub enum Pair {
    Seq,
    Or,
    And,
}

/// What a node is of its only child.
#[derive(Clone, Copy, Debug, PartialEq, Eq)]
pub enum Wrap {
    Group(u8),
    External(u8),
    Repeat {
        least: u32,
        most: Option<u32>,
        lazy: bool,
    },
    Ahead {
        not: bool,
    },
    Before {
        not: bool,
        limit: Behind,
    },
    Whole,
}

/// A node, parted from its children.
#[derive(Clone, Copy)]
pub enum Parted<'n> {
    Empty,
    One(&'n Atom),
    /// Of the two children the first nests no deeper than the levels of a pattern allow; the last one
    /// holds the rest.
    Two(Pair, &'n Node, &'n Node),
    Under(Wrap, &'n Node),
}

impl Node {
    /// The node, parted from its children. It takes no memory.
    pub fn parted(&self) -> Parted<'_>
        ensures is { shape_parted result ≡ bare self.now }
        ensures smaller { AreSmaller result (bare self.now) }
    {
        match self {
            Node::Empty => Parted::Empty,
            Node::One(atom) => Parted::One(atom),
            Node::Seq(a, b) => Parted::Two(Pair::Seq, a, b),
            Node::Or(a, b) => Parted::Two(Pair::Or, a, b),
            Node::And(a, b) => Parted::Two(Pair::And, a, b),
            Node::Group(part, number) => Parted::Under(Wrap::Group(*number), part),
            Node::External(part, number) => Parted::Under(Wrap::External(*number), part),
            Node::Repeat {
                part,
                least,
                most,
                lazy,
            } => Parted::Under(
                Wrap::Repeat {
                    least: *least,
                    most: *most,
                    lazy: *lazy,
                },
                part,
            ),
            Node::Ahead { part, not } => Parted::Under(Wrap::Ahead { not: *not }, part),
            Node::Before { part, not, limit } => Parted::Under(
                Wrap::Before {
                    not: *not,
                    limit: *limit,
                },
                part,
            ),
            Node::Whole(part) => Parted::Under(Wrap::Whole, part),
        }
    }
}
