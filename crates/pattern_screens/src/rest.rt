//! What follows the first piece of a pattern.
ghost use Rattle.std.specs.Prelude.{◌≡◌, IfSome, IsTrue, true};
ghost use Rattle.pattern_screens.specs.Common.{bare, failing_cost, rest_fails, rest_tree, second_of};

use crate::atoms::By;
use crate::bounds::most_cost;
use crate::futile::is_dead;
use crate::key::{KEYS, Key};
use char_class::Sets;
use vim_pattern::{Node, Tree};

/// What follows the first piece.
fn second_of(node: &Node) -> Option<&Node>
    ensures { IfSome result (λ rest. bare rest.now ≡ second_of (bare node.now)) }
{
    match node {
        Node::Seq(_, rest) => Some(rest),
        _ => None,
    }
}

/// What an attempt at what follows costs at most, where it is known to fail.
pub(crate) fn failing_rest_cost(tree: &Tree) -> Option<u64>
    ensures { IfSome result (λ cost. cost ≡ failing_cost (rest_tree tree.now)) }
{
    most_cost(second_of(&tree.node)?)
}

/// Whether an attempt at what follows is known to have no way, and to look at its line alone, at a
/// column whose key has this number.
pub fn rest_fails(tree: &Tree, sets: &Sets, ignore: bool, number: u16) -> bool
    ensures { IsTrue result → rest_fails sets.now ignore number tree.now ≡ true }
{
    if number >= KEYS {
        return false;
    }
    let Some(rest) = second_of(&tree.node) else {
        return false;
    };
    let by = By {
        sets,
        ignore: tree.case.unwrap_or(ignore),
    };
    is_dead(rest, &by, Key::numbered(number))
}

/// What it costs at most where it fails so.
pub(crate) fn rest_cost(tree: &Tree, sets: &Sets, ignore: bool, number: u16) -> Option<u64>
    ensures fails { IfSome result (λ _. rest_fails sets.now ignore number tree.now ≡ true) }
    ensures cost { IfSome result (λ cost. cost ≡ failing_cost (rest_tree tree.now)) }
{
    if rest_fails(tree, sets, ignore, number) {
        failing_rest_cost(tree)
    } else {
        None
    }
}
