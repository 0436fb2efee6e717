//! Patterns that begin with an atom of one character, or one of two, at columns behind which what
//! follows it fails.
ghost use Rattle.std.specs.Prelude.{◌≡◌, ◌+◌, ◌*◌, IfSome, IsTrue, true};
ghost use Rattle.pattern_screens.specs.Common.{bare, fails_after, takes_first, takes_leaf, takes_piece};

use crate::atoms::is_plain;
use crate::rest::rest_cost;
use char_class::Sets;
use pattern_items::Atom;
use vim_pattern::{Node, Tree};

/// Whether a piece is such an atom, or a line start, where something stands before it.
fn takes_leaf(later: bool, piece: &Node) -> bool
    ensures { IsTrue result → takes_leaf later (bare piece.now) ≡ true }
{
    match piece {
        Node::One(Atom::LineStart) => later,
        Node::One(atom) => is_plain(atom),
        _ => false,
    }
}

/// Whether a piece is such a one, or one of two.
fn takes_piece(later: bool, piece: &Node) -> bool
    ensures { IsTrue result → takes_piece later (bare piece.now) ≡ true }
{
    match piece {
        Node::One(_) => takes_leaf(later, piece),
        Node::Or(one, other) => takes_leaf(later, one) && takes_leaf(later, other),
        _ => false,
    }
}

/// Whether a pattern begins with such a piece. `later` says that it is asked of a column that isn't
/// its line's first.
pub fn takes_first(tree: &Tree, later: bool) -> bool
    ensures { IsTrue result → takes_first later tree.now.node ≡ true }
{
    match &tree.node {
        Node::Seq(first, _) => takes_piece(later, first),
        _ => false,
    }
}

/// What two attempts cost of an atom and what follows it, which costs so much.
fn cost_of_two(rest: u64) -> Option<u64>
    ensures { IfSome result (λ cost. cost ≡ 2 * (rest + 1)) }
{
    rest.checked_add(1)?.checked_mul(2)
}

/// Whether an attempt of a pattern that begins with such a piece is known to have no way, to look at
/// its line alone and to cost no more than a budget, one column before one whose key has this number.
pub fn fails_after(tree: &Tree, sets: &Sets, ignore: bool, number: u16, budget: u64) -> bool
    ensures { IsTrue result → fails_after sets.now budget ignore number tree.now ≡ true }
{
    let Some(rest) = rest_cost(tree, sets, ignore, number) else {
        return false;
    };
    match cost_of_two(rest) {
        Some(cost) => cost <= budget,
        None => false,
    }
}
