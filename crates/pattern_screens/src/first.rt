//! How many first atoms a pattern has.
ghost use Rattle.std.specs.Prelude.{◌≡◌, length, IfOk};
ghost use Rattle.std.specs.Option.{option_map};
ghost use Rattle.pattern_screens.specs.Common.{bare, first_atoms, first_cost, is_forced};

use crate::atoms::is_plain;
use crate::lined::is_spent;
use syn_base::Memory;
use vim_pattern::{Node, Tree};

/// What an attempt costs at most where its screen fails.
pub fn screen_cost(tree: &Tree) -> Result<u64, Memory>
    ensures { IfOk result (λ cost. cost ≡ first_cost tree.now.node) }
{
    Ok(count_first(&tree.node)?.unwrap_or(1))
}

/// How many first atoms there are; none where they aren't all of characters. A number that doesn't
/// fit counts as want of memory.
fn count_first(node: &Node) -> Result<Option<u64>, Memory>
    ensures { IfOk result (λ count. count ≡ option_map length (first_atoms (bare node.now))) }
{
    match node {
        Node::One(atom) => Ok(if is_plain(atom) { Some(1) } else { None }),
        Node::Seq(a, _) => count_first(a),
        Node::Or(a, b) => {
            let one = count_first(a)?;
            let other = count_first(b)?;
            match (one, other) {
                (Some(one), Some(other)) => match one.checked_add(other) {
                    Some(sum) => Ok(Some(sum)),
                    None => Err(Memory),
                },
                _ => Ok(None),
            }
        }
        Node::Group(a, _) | Node::External(a, _) => count_first(a),
        Node::Repeat {
            part,
            least,
            most,
            ..
        } => {
            if is_forced(*least, *most) {
                count_first(part)
            } else {
                Ok(None)
            }
        }
        _ => Ok(None),
    }
}

/// Whether a count has to take a turn.
fn is_forced(least: u32, most: Option<u32>) -> bool
    ensures { result ≡ is_forced least most }
{
    least > 0 && !is_spent(most)
}
