//! Copies of trees.
ghost use Rattle.std.specs.Prelude.{◌≡◌, IfOk};
ghost use Rattle.vim_pattern.specs.Shape.{bare};
ghost use Rattle.vim_pattern.specs.Copied as spec;

use crate::{Atom, CharRanges, Node, Pair, Parted, Tree, Wrap};
use std::alloc::Global;
use syn_base::{List, Memory};

fn copied_atom(alloc: Global, atom: &Atom) -> Result<Atom, Memory>
    ensures { IfOk result (λ a. a ≡ atom.now) }
{
    match atom {
        Atom::Char(c) => Ok(Atom::Char(*c)),
        Atom::Any { line_end } => Ok(Atom::Any {
            line_end: *line_end,
        }),
        Atom::Is {
            class,
            not,
            line_end,
        } => Ok(Atom::Is {
            class: *class,
            not: *not,
            line_end: *line_end,
        }),
        Atom::Set(ranges) => Ok(Atom::Set(CharRanges {
            not: ranges.not,
            line_end: ranges.line_end,
            parts: List::from_slice(alloc, ranges.parts.as_slice())?,
        })),
        Atom::LineEnd => Ok(Atom::LineEnd),
        Atom::LineStart => Ok(Atom::LineStart),
        Atom::LineStop => Ok(Atom::LineStop),
        Atom::WordStart => Ok(Atom::WordStart),
        Atom::WordStop => Ok(Atom::WordStop),
        Atom::FileStart => Ok(Atom::FileStart),
        Atom::FileStop => Ok(Atom::FileStop),
        Atom::MatchStart => Ok(Atom::MatchStart),
        Atom::MatchStop => Ok(Atom::MatchStop),
        Atom::LineNumber { how, number } => Ok(Atom::LineNumber {
            how: *how,
            number: *number,
        }),
        Atom::Ref(number) => Ok(Atom::Ref(*number)),
        Atom::ExternalRef(number) => Ok(Atom::ExternalRef(*number)),
    }
}

/// A node's parts but for its last child.
#[derive(Drop)]
pub enum Above {
    /// The first of two children, copied.
    Two(Pair, Box<Node>),
    One(Wrap),
}

/// The node of these parts and this last child.
fn put_over(above: Above, part: Box<Node>) -> Node
    ensures { bare result ≡ spec.over above (bare part.value) }
{
    match above {
        Above::Two(Pair::Seq, first) => Node::Seq(first, part),
        Above::Two(Pair::Or, first) => Node::Or(first, part),
        Above::Two(Pair::And, first) => Node::And(first, part),
        Above::One(Wrap::Group(number)) => Node::Group(part, number),
        Above::One(Wrap::External(number)) => Node::External(part, number),
        Above::One(Wrap::Repeat { least, most, lazy }) => Node::Repeat {
            part,
            least,
            most,
            lazy,
        },
        Above::One(Wrap::Ahead { not }) => Node::Ahead { part, not },
        Above::One(Wrap::Before { not, limit }) => Node::Before { part, not, limit },
        Above::One(Wrap::Whole) => Node::Whole(part),
    }
}

/// The node of all these, the uppermost first, over this one.
#[tactic(auto, using(crate::proofs::CopyLaws::over_last))]
fn put_all_over(alloc: Global, all: Vec<Above>, node: Node) -> Result<Node, Memory>
    ensures { IfOk result (λ n. bare n ≡ spec.all_over all.items (bare node)) }
{
    let mut all = all;
    let mut node = node;
    while let Some(above) = all.pop() {
        node = put_over(above, Box::new(alloc, node)?);
    }
    Ok(node)
}

/// Copies a node. Only first children are copied by a call of its own, and those nest no deeper
/// than the levels of a pattern allow.
#[tactic(auto, using(crate::proofs::CopyLaws::over_last))]
fn copied(alloc: Global, node: &Node) -> Result<Node, Memory>
    ensures { IfOk result (λ n. bare n ≡ bare node.now) }
{
    let mut all = Vec::new(alloc);
    let mut rest = node;
    loop {
        match rest.parted() {
            Parted::Empty => return put_all_over(alloc, all, Node::Empty),
            Parted::One(atom) => {
                let leaf = Node::One(copied_atom(alloc, atom)?);
                return put_all_over(alloc, all, leaf);
            }
            Parted::Two(pair, a, b) => {
                let first = copied(alloc, a)?;
                all.push(Above::Two(pair, Box::new(alloc, first)?))?;
                rest = b;
            }
            Parted::Under(wrap, part) => {
                all.push(Above::One(wrap))?;
                rest = part;
            }
        }
    }
}

impl Tree {
    /// An equal tree.
    pub fn copy(&self, alloc: Global) -> Result<Tree, Memory>
        ensures { IfOk result (λ t. t ≡ self.now) }
    {
        let node = copied(alloc, &self.node)?;
        Ok(Tree {
            node,
            case: self.case,
            groups: self.groups,
            externals: self.externals,
            moves_start: self.moves_start,
            line_end: self.line_end,
        })
    }
}
