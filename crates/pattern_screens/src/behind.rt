//! Patterns that begin with a look behind without a limit, at columns where what follows it fails.
ghost use Rattle.std.specs.Prelude.{◌≡◌, Some, IfSome, IsTrue, true};
ghost use Rattle.pattern_screens.specs.Common.{bare, behind_cost, is_cheap_behind, is_within, piece_cost};

use crate::lined::tries_first;
use crate::rest::failing_rest_cost;
use crate::rooms::room_of;
use pattern_items::Behind;
use vim_pattern::{Node, Tree};

/// How often the length of lines is halved that is too long for a pattern.
const HALVINGS: u32 = 16;

/// Whether a pattern begins with a look behind.
pub fn begins_behind(tree: &Tree) -> bool {
    match &tree.node {
        Node::Seq(first, _) => is_behind(first),
        _ => false,
    }
}

/// Whether a piece is one.
fn is_behind(piece: &Node) -> bool {
    matches!(piece, Node::Before { .. })
}

/// What a look behind without a limit costs at most, where its line and the one before have so many
/// characters together: its part is tried from each column of both.
fn piece_cost(most: u64, piece: &Node) -> Option<u64>
    ensures { IfSome result (λ cost. piece_cost most (bare piece.now) ≡ Some cost) }
{
    match piece {
        Node::Before {
            part,
            not: _,
            limit: Behind::Any,
        } => {
            if tries_first(part) {
                room_of(most, part)?.cost.checked_mul(most.checked_add(2)?)
            } else {
                None
            }
        }
        _ => None,
    }
}

/// What the look behind costs at most with which a pattern begins.
fn behind_cost(most: u64, node: &Node) -> Option<u64>
    ensures { IfSome result (λ cost. behind_cost most (bare node.now) ≡ Some cost) }
{
    match node {
        Node::Seq(first, _) => piece_cost(most, first),
        _ => None,
    }
}

/// Whether the look and what follows it, which costs so much, are within a budget in lines of at most
/// so many characters together.
fn is_cheap(tree: &Tree, budget: u64, most: u64, rest: u64) -> bool
    ensures { IsTrue result → is_within budget (behind_cost most tree.now.node) rest ≡ true }
{
    let Some(behind) = behind_cost(most, &tree.node) else {
        return false;
    };
    match behind.checked_add(rest) {
        Some(all) => all <= budget,
        None => false,
    }
}

/// Of how many characters a line and the one before may be together, so that an attempt of a pattern
/// that begins with a look behind costs no more than a budget at each column at which what follows the
/// look fails: a length that is near to the greatest. None where the pattern doesn't begin so, or costs
/// more even in short lines.
pub fn longest_behind(tree: &Tree, budget: u64) -> Option<u64>
    ensures { IfSome result (λ most. is_cheap_behind budget most tree.now ≡ true) }
{
    let rest = failing_rest_cost(tree)?;
    let mut most = budget - budget / 32;
    for _ in 0..HALVINGS {
        if is_cheap(tree, budget, most, rest) {
            return Some(most);
        }
        most /= 2;
    }
    None
}
