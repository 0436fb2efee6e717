//! What has been built of a tree.
ghost use Rattle.std.specs.Prelude.{◌≡◌, [], ◌∷◌, ◌++◌, ◌<◌, length, IfOk};
ghost use Rattle.vim_pattern.specs.Shape.{bare, joined, optional_of};
ghost use Rattle.vim_pattern.specs.Shape as shape;
ghost use Rattle.vim_pattern.specs.Built as built;
ghost use Rattle.vim_pattern.specs.Built.{bares, pair_of, part_of};
ghost use Rattle.vim_pattern.specs.Read as read;

use crate::Node;
use pattern_items::{Kind, Multi};
use std::alloc::{AllocError, Global};

/// What joins parts.
#[derive(Clone, Copy)]
pub enum Join {
    Pieces,
    Concats,
    Branches,
}

/// What stands directly before.
#[derive(Drop)]
pub enum LastNode {
    Nothing,
    Loose(Node),
    Fixed(Node),
}

/// A pattern of which a part has been read.
#[derive(Drop)]
pub struct Built {
    pub branches: Vec<Node>,
    pub concats: Vec<Node>,
    pub pieces: Vec<Node>,
    pub last: LastNode,
}

/// An item that is open, and what had been read before it.
#[derive(Drop)]
pub struct OpenItem {
    pub at: usize,
    pub kind: Kind,
    pub part: Built,
}

fn pair(alloc: Global, how: Join, a: Node, b: Node) -> Result<Node, AllocError>
    ensures { IfOk result (λ n. bare n ≡ pair_of how (bare a) (bare b)) }
{
    let first = Box::new(alloc, a)?;
    let second = Box::new(alloc, b)?;
    match how {
        Join::Pieces => Ok(Node::Seq(first, second)),
        Join::Concats => Ok(Node::And(first, second)),
        Join::Branches => Ok(Node::Or(first, second)),
    }
}

/// The nodes, joined to the right.
#[tactic(auto, using(crate::proofs::Joined::joined_pair))]
fn joined(alloc: Global, how: Join, nodes: Vec<Node>) -> Result<Node, AllocError>
    ensures { IfOk result (λ n. bare n ≡ joined (pair_of how) (bares nodes.items)) }
{
    let mut nodes = nodes;
    let Some(mut node) = nodes.pop() else {
        return Ok(Node::Empty);
    };
    while let Some(before) = nodes.pop() {
        node = pair(alloc, how, before, node)?;
    }
    Ok(node)
}

/// What stands last, with a multi.
fn last_repeated(alloc: Global, last: LastNode, multi: Multi) -> Result<LastNode, AllocError>
    ensures { IfOk result (λ l. built.last_of l ≡ read.repeated multi (built.last_of last)) }
{
    match last {
        LastNode::Loose(node) => Ok(LastNode::Fixed(with_multi(alloc, multi, node)?)),
        LastNode::Nothing | LastNode::Fixed(_) => Ok(last),
    }
}

/// The part whose last node has a multi.
pub fn repeated(alloc: Global, part: Built, multi: Multi) -> Result<Built, AllocError>
    ensures { IfOk result (λ b. part_of b ≡ read.with_repeated multi (part_of part)) }
{
    Ok(Built {
        branches: part.branches,
        concats: part.concats,
        pieces: part.pieces,
        last: last_repeated(alloc, part.last, multi)?,
    })
}

fn at_most_once(alloc: Global, node: Node) -> Result<Node, AllocError>
    ensures { IfOk result (λ n. bare n ≡ shape.at_most_once (bare node)) }
{
    Ok(Node::Repeat {
        part: Box::new(alloc, node)?,
        least: 0,
        most: Some(1),
        lazy: false,
    })
}

/// An atom with its multi.
pub fn with_multi(alloc: Global, multi: Multi, node: Node) -> Result<Node, AllocError>
    ensures { IfOk result (λ n. bare n ≡ shape.with_multi multi (bare node)) }
{
    let part = Box::new(alloc, node)?;
    match multi {
        Multi::Count(times) => Ok(Node::Repeat {
            part,
            least: times.least,
            most: times.most,
            lazy: times.lazy,
        }),
        Multi::Ahead { not } => Ok(Node::Ahead { part, not }),
        Multi::Before { not, limit } => Ok(Node::Before { part, not, limit }),
        Multi::Whole => Ok(Node::Whole(part)),
    }
}

/// The node of an optional list.
#[tactic(auto, using(crate::proofs::Joined::optional_last, crate::proofs::Joined::optional_next))]
fn optional(alloc: Global, nodes: Vec<Node>) -> Result<Node, AllocError>
    ensures { IfOk result (λ n. bare n ≡ optional_of (bares nodes.items)) }
{
    let mut nodes = nodes;
    let Some(last) = nodes.pop() else {
        return Ok(Node::Empty);
    };
    let mut node = at_most_once(alloc, last)?;
    while let Some(before) = nodes.pop() {
        node = at_most_once(alloc, pair(alloc, Join::Pieces, before, node)?)?;
    }
    Ok(node)
}

pub fn new_part(alloc: Global) -> Built
    ensures { part_of result ≡ read.new_part }
{
    Built {
        branches: Vec::new(alloc),
        concats: Vec::new(alloc),
        pieces: Vec::new(alloc),
        last: LastNode::Nothing,
    }
}

/// The pieces, with the last one.
fn settled(pieces: Vec<Node>, last: LastNode) -> Result<Vec<Node>, AllocError>
    ensures { IfOk result (λ v.
        bares v.items ≡ bares pieces.items ++ read.shapes_of (built.last_of last)) }
{
    let mut pieces = pieces;
    match last {
        LastNode::Nothing => {}
        LastNode::Loose(node) | LastNode::Fixed(node) => pieces.push(node)?,
    }
    Ok(pieces)
}

pub fn put(part: Built, node: Node) -> Result<Built, AllocError>
    ensures { IfOk result (λ b. part_of b ≡ read.put (bare node) (part_of part)) }
{
    Ok(Built {
        branches: part.branches,
        concats: part.concats,
        pieces: settled(part.pieces, part.last)?,
        last: LastNode::Loose(node),
    })
}

pub fn ended(part: Built) -> Result<Built, AllocError>
    ensures { IfOk result (λ b. part_of b ≡ read.ended (part_of part)) }
{
    Ok(Built {
        branches: part.branches,
        concats: part.concats,
        pieces: settled(part.pieces, part.last)?,
        last: LastNode::Nothing,
    })
}

pub fn with_also(alloc: Global, part: Built) -> Result<Built, AllocError>
    ensures { IfOk result (λ b. part_of b ≡ read.with_also (part_of part)) }
{
    let mut concats = part.concats;
    concats.push(joined(alloc, Join::Pieces, settled(part.pieces, part.last)?)?)?;
    Ok(Built {
        branches: part.branches,
        concats,
        pieces: Vec::new(alloc),
        last: LastNode::Nothing,
    })
}

fn branch_of(alloc: Global, concats: Vec<Node>, pieces: Vec<Node>) -> Result<Node, AllocError>
    ensures { IfOk result (λ n.
        bare n ≡ shape.and_of (bares concats.items ++ (shape.seq_of (bares pieces.items) ∷ []))) }
{
    let mut concats = concats;
    concats.push(joined(alloc, Join::Pieces, pieces)?)?;
    joined(alloc, Join::Concats, concats)
}

pub fn with_bar(alloc: Global, part: Built) -> Result<Built, AllocError>
    ensures { IfOk result (λ b. part_of b ≡ read.with_bar (part_of part)) }
{
    let pieces = settled(part.pieces, part.last)?;
    let mut branches = part.branches;
    branches.push(branch_of(alloc, part.concats, pieces)?)?;
    Ok(Built {
        branches,
        concats: Vec::new(alloc),
        pieces: Vec::new(alloc),
        last: LastNode::Nothing,
    })
}

pub fn pattern_of(alloc: Global, part: Built) -> Result<Node, AllocError>
    ensures { IfOk result (λ n. bare n ≡ read.pattern_of (part_of part)) }
{
    let pieces = settled(part.pieces, part.last)?;
    let mut branches = part.branches;
    branches.push(branch_of(alloc, part.concats, pieces)?)?;
    joined(alloc, Join::Branches, branches)
}

/// The node of a group that holds this part.
pub fn group_of(alloc: Global, kind: Kind, part: Built) -> Result<Node, AllocError>
    ensures { IfOk result (λ n. bare n ≡ built.group_of kind (read.pattern_of (part_of part))) }
{
    let node = pattern_of(alloc, part)?;
    match kind {
        Kind::Counted(number) => Ok(Node::Group(Box::new(alloc, node)?, number)),
        Kind::External(number) => Ok(Node::External(Box::new(alloc, node)?, number)),
        Kind::Plain | Kind::Optional => Ok(node),
    }
}

/// The optional list that has been read, and none where it has no atom.
pub fn list_of(alloc: Global, part: Built) -> Result<Option<Node>, AllocError>
    ensures { IfOk result (λ o. built.IsList (read.settled (part_of part)) o) }
{
    let pieces = settled(part.pieces, part.last)?;
    if pieces.len() == 0 {
        Ok(None)
    } else {
        Ok(Some(optional(alloc, pieces)?))
    }
}
