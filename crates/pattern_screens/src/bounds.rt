//! How much an attempt costs at most where the screen of its pattern fails.
ghost use Rattle.std.specs.Prelude.{◌≡◌, ◌+◌, ◌*◌, ◌<◌, IfSome};
ghost use Rattle.pattern_screens.specs.Common.{bare, atom_ways, bound_of, chain_of, count_bound, failing_cost, first_bound, most_cost, one_turn_more, or_bound, then_bound, turn_bound, most_turns};

use crate::lined::{is_lined, is_spent};
use pattern_items::Atom;
use vim_pattern::{Node, Tree};

/// How many ways and ticks a part has at most.
#[derive(Clone, Copy)]
pub(crate) struct Bound {
    pub(crate) ways: u64,
    pub(crate) cost: u64,
}

/// One way, at no cost.
pub(crate) const ONE_WAY: Bound = Bound { ways: 1, cost: 0 };

impl Bound {
    /// A part, and another behind each of its ways.
    pub(crate) fn then(self, behind: Bound) -> Option<Bound>
        ensures { IfSome result (λ bound. bound ≡ then_bound self behind) }
    {
        Some(Bound {
            ways: self.ways.checked_mul(behind.ways)?,
            cost: self.cost.checked_add(self.ways.checked_mul(behind.cost)?)?,
        })
    }

    /// One part or another.
    pub(crate) fn or(self, other: Bound) -> Option<Bound>
        ensures { IfSome result (λ bound. bound ≡ or_bound self other) }
    {
        Some(Bound {
            ways: self.ways.checked_add(other.ways)?,
            cost: self.cost.checked_add(other.cost)?,
        })
    }

    /// What is tried up to the first way.
    pub(crate) fn first(self) -> Bound
        ensures { result ≡ first_bound self }
    {
        Bound {
            ways: 1,
            cost: self.cost,
        }
    }

    /// So many turns that take something, and the stop behind each.
    pub(crate) fn chain(self, turns: u64) -> Option<Bound>
        ensures { IfSome result (λ bound. bound ≡ chain_of self turns) }
    {
        let mut all = self.first();
        for turn in 0..turns {
            all = self.one_turn_more(all)?;
        }
        Some(all)
    }

    /// One turn more, before the others, and the stop.
    fn one_turn_more(self, all: Bound) -> Option<Bound>
        ensures { IfSome result (λ bound. bound ≡ one_turn_more self all) }
    {
        let more = self.then(all)?;
        Some(Bound {
            ways: more.ways.checked_add(1)?,
            cost: more.cost,
        })
    }

    /// A count that takes nothing.
    fn turn(self, least: u32) -> Option<Bound>
        ensures { IfSome result (λ bound. bound ≡ turn_bound least self) }
    {
        if least == 0 {
            return Some(self.first());
        }
        Some(Bound {
            ways: self.ways,
            cost: self.cost.checked_add(self.ways.checked_mul(self.cost)?)?,
        })
    }

    /// A count, by whether its part may take something.
    fn count(self, taking: bool, least: u32, most: Option<u32>) -> Option<Bound>
        ensures { IfSome result (λ bound. bound ≡ count_bound taking least most self) }
    {
        if taking {
            self.chain(most_turns(most) + 1)
        } else if is_spent(most) {
            Some(ONE_WAY)
        } else {
            self.turn(least)
        }
    }
}

/// What an attempt costs at most where the screen of its pattern doesn't pass, in ticks; none where
/// that number is too large.
pub fn failing_cost(tree: &Tree) -> Option<u64>
    ensures { IfSome result (λ cost. cost ≡ failing_cost tree.now) }
{
    most_cost(&tree.node)
}

/// The same of a node.
pub(crate) fn most_cost(node: &Node) -> Option<u64>
    ensures { IfSome result (λ cost. cost ≡ most_cost (bare node.now)) }
{
    Some(bound_of(node, false)?.cost)
}

/// The bound of a part that takes nothing, or of one that may take something and stays in its line.
#[cycle(bound_of)]
fn bound_of(node: &Node, taking: bool) -> Option<Bound>
    ensures { IfSome result (λ bound. bound ≡ bound_of taking (bare node.now)) }
{
    match node {
        Node::Empty | Node::Before { .. } => Some(ONE_WAY),
        Node::One(atom) => Some(Bound {
            ways: atom_ways(taking, atom),
            cost: 1,
        }),
        Node::Seq(a, b) => {
            let first = bound_of(a, taking)?;
            bound_behind(first, b, taking)
        }
        Node::Or(a, b) => {
            let one = bound_of(a, taking)?;
            bound_either(one, b, taking)
        }
        Node::And(a, b) => {
            let first = bound_of(a, taking || is_lined(a))?.first();
            bound_behind(first, b, taking)
        }
        Node::Group(a, _) | Node::External(a, _) => bound_of(a, taking),
        Node::Repeat {
            part,
            least,
            most,
            ..
        } => bound_of(part, taking)?.count(taking, *least, *most),
        Node::Ahead { part, not: _ } => Some(bound_of(part, taking || is_lined(part))?.first()),
        Node::Whole(a) => Some(bound_of(a, taking)?.first()),
    }
}

/// The bound of a part and of a node behind it, piece by piece. Behind a part without a way nothing
/// is tried.
#[cycle(bound_of)]
#[tactic(auto, using(crate::proofs::BoundLaws::turns))]
fn bound_behind(first: Bound, node: &Node, taking: bool) -> Option<Bound>
    ensures { IfSome result (λ bound. bound ≡ then_bound first (bound_of taking (bare node.now))) }
{
    let mut known = first;
    let mut rest = node;
    while known.ways > 0 {
        match rest {
            Node::Seq(a, b) => {
                known = known.then(bound_of(a, taking)?)?;
                rest = b;
            }
            Node::And(a, b) => {
                known = known.then(bound_of(a, taking || is_lined(a))?.first())?;
                rest = b;
            }
            _ => return known.then(bound_of(rest, taking)?),
        }
    }
    Some(known)
}

/// The bound of one part or else a node, branch by branch.
#[cycle(bound_of)]
#[tactic(auto, using(crate::proofs::BoundLaws::eithers))]
fn bound_either(one: Bound, node: &Node, taking: bool) -> Option<Bound>
    ensures { IfSome result (λ bound. bound ≡ or_bound one (bound_of taking (bare node.now))) }
{
    let (mut known, mut rest) = (one, node);
    while let Node::Or(a, b) = rest {
        known = known.or(bound_of(a, taking)?)?;
        rest = b;
    }
    known.or(bound_of(rest, taking)?)
}

/// How many ways an atom has that takes nothing, or may take something.
fn atom_ways(taking: bool, atom: &Atom) -> u64
    ensures { result ≡ atom_ways taking atom.now }
{
    match atom {
        Atom::Char(_) | Atom::Any { .. } | Atom::Is { .. } | Atom::Set(_) | Atom::LineEnd => {
            u64::from(taking)
        }
        _ => 1,
    }
}

/// So many turns at most can take something.
fn most_turns(most: Option<u32>) -> u64
    ensures is { result ≡ most_turns most }
    ensures below { result < 4294967296 }
{
    match most {
        Some(most) => u64::from(most),
        None => 0,
    }
}
