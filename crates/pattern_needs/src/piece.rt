//! The piece of a pattern that tells what it needs.
ghost use Rattle.std.specs.Prelude.{◌≡◌, ◌≤◌, ◌+◌};
ghost use Rattle.vim_pattern.specs.Parted.{node_count};
ghost use Rattle.vim_pattern.specs.Shape.{bare};
ghost use Rattle.pattern_needs.specs.Asking.{asked_of, comes_first};
ghost use Rattle.pattern_needs.specs.Fronts.{piece_upto};
ghost use Rattle.pattern_needs.specs.Needs.{needed, rather};

use crate::asked::{ask, comes_first};
use crate::by::By;
use vim_pattern::Node;

/// A piece of a pattern that is needed, and its number where it is one of several.
#[derive(Clone, Copy)]
pub(crate) struct Telling<'a> {
    pub(crate) part: &'a Node,
    pub(crate) upto: Option<usize>,
}

/// Which character is asked for doesn't matter here.
const SOME: char = ' ';

/// A piece that needs the same as a node: of a sequence one of its pieces, else the node itself.
pub(crate) fn telling_piece<'a>(node: &'a Node, by: &By) -> &'a Node
    ensures { needed (bare result.now) ≡ needed (bare node.now) }
{
    match node {
        Node::Seq(a, b) => piece_behind(a, b, by),
        Node::And(a, b) => piece_behind(a, b, by),
        _ => node,
    }
}

/// The same of a part, and a node behind it, piece by piece.
pub(crate) fn piece_behind<'a>(first: &'a Node, node: &'a Node, by: &By) -> &'a Node
    ensures needed { needed (bare result.now)
        ≡ rather (needed (bare first.now)) (needed (bare node.now)) }
    ensures within { node_count (bare result.now)
        ≤ node_count (bare first.now) + node_count (bare node.now) }
{
    let mut best = first;
    let mut rest = node;
    loop {
        match rest {
            Node::Seq(a, b) => {
                best = better(best, a, by);
                rest = b;
            }
            Node::And(a, b) => {
                best = better(best, a, by);
                rest = b;
            }
            _ => return better(best, rest, by),
        }
    }
}

/// Of two parts the one whose needs are looked for.
#[tactic(auto, using(crate::proofs::AskingLaws::choices))]
fn better<'a>(first: &'a Node, second: &'a Node, by: &By) -> &'a Node
    ensures needed { needed (bare result.now)
        ≡ rather (needed (bare first.now)) (needed (bare second.now)) }
    ensures within { node_count (bare result.now)
        ≤ node_count (bare first.now) + node_count (bare second.now) }
{
    if is_kept(first, second, by) {
        first
    } else {
        second
    }
}

/// Whether of two parts the first is the one whose needs are looked for.
fn is_kept(first: &Node, second: &Node, by: &By) -> bool
    ensures { result ≡ comes_first
        (asked_of by.now.sets.now by.now.ignore SOME (needed (bare first.now)))
        (asked_of by.now.sets.now by.now.ignore SOME (needed (bare second.now))) }
{
    comes_first(ask(first, by, SOME), ask(second, by, SOME))
}

/// Of the pieces of a pattern the one whose needs are looked for, and where it stands. All of the
/// pattern where that is the last one, or where it isn't known what they need.
pub(crate) fn telling_front<'a>(node: &'a Node, by: &By) -> Telling<'a>
    ensures { bare result.part.now ≡ piece_upto result.upto (bare node.now) }
{
    let whole = Telling {
        part: node,
        upto: None,
    };
    let Node::Seq(first, behind) = node else {
        return whole;
    };
    let mut best = Telling {
        part: first,
        upto: Some(0),
    };
    let mut rest: &Node = behind;
    let mut number: usize = 1;
    while let Node::Seq(a, b) = rest {
        if !is_kept(best.part, a, by) {
            best = Telling {
                part: a,
                upto: Some(number),
            };
        }
        let Some(next) = number.checked_add(1) else {
            return whole;
        };
        number = next;
        rest = b;
    }
    if is_kept(best.part, rest, by) {
        best
    } else {
        whole
    }
}
