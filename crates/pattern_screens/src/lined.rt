//! Parts that stay in their line.
ghost use Rattle.std.specs.Prelude.{◌≡◌};
ghost use Rattle.pattern_screens.specs.Common.{bare, is_spent, is_few, is_lined, is_lined_atom, tries_first};

use crate::atoms::is_plain;
use pattern_items::Atom;
use vim_pattern::Node;

/// Whether a part stays in its line and takes few turns, whatever it takes.
#[cycle(lined)]
pub(crate) fn is_lined(node: &Node) -> bool
    ensures { result ≡ is_lined (bare node.now) }
{
    match node {
        Node::Empty => true,
        Node::One(atom) => is_lined_atom(atom),
        Node::Seq(a, b) | Node::Or(a, b) | Node::And(a, b) => is_lined(a) && are_lined(b),
        Node::Group(a, _) | Node::External(a, _) | Node::Whole(a) => is_lined(a),
        Node::Repeat { part, most, .. } => is_few(*most) && is_lined(part),
        Node::Ahead { part, not: _ } => is_lined(part),
        Node::Before { .. } => false,
    }
}

/// The same, part by part.
#[cycle(lined)]
fn are_lined(node: &Node) -> bool
    ensures { result ≡ is_lined (bare node.now) }
{
    let mut rest = node;
    while let Node::Seq(a, b) | Node::Or(a, b) | Node::And(a, b) = rest {
        if !is_lined(a) {
            return false;
        }
        rest = b;
    }
    is_lined(rest)
}

/// Whether an atom stays in its line.
pub(crate) fn is_lined_atom(atom: &Atom) -> bool
    ensures { result ≡ is_lined_atom atom.now }
{
    match atom {
        Atom::LineStart
        | Atom::LineStop
        | Atom::WordStart
        | Atom::WordStop
        | Atom::MatchStart
        | Atom::MatchStop => true,
        _ => is_plain(atom),
    }
}

/// Whether a count takes few turns at most.
pub(crate) fn is_few(most: Option<u32>) -> bool
    ensures { result ≡ is_few most }
{
    matches!(most, Some(most) if most <= 1000)
}

/// Whether a count takes no turn.
pub fn is_spent(most: Option<u32>) -> bool
    ensures { result ≡ is_spent most }
{
    matches!(most, Some(0))
}

/// Whether a part tries an atom before its first way.
pub(crate) fn tries_first(node: &Node) -> bool
    ensures { result ≡ tries_first (bare node.now) }
{
    match node {
        Node::Empty | Node::Before { .. } => false,
        Node::One(_) => true,
        Node::Seq(a, _) | Node::Or(a, _) | Node::And(a, _) => tries_first(a),
        Node::Group(a, _) | Node::External(a, _) | Node::Whole(a) => tries_first(a),
        Node::Repeat {
            part,
            least,
            most,
            lazy,
        } => { !is_spent(*most) && !(*least == 0 && *lazy) && tries_first(part) }
        Node::Ahead { part, not: _ } => tries_first(part),
    }
}
