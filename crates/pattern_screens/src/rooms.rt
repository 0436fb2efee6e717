//! How many ways and ticks a part has at most that stays in a line of so many characters.
ghost use Rattle.std.specs.Prelude.{◌≡◌, Some, IfSome};
ghost use Rattle.pattern_screens.specs.Common.{bare, room_of, turns_room};

use crate::bounds::{Bound, ONE_WAY};
use crate::lined::{is_few, is_lined_atom};
use vim_pattern::Node;

/// A count by its part: one without a limit has to force one turn at most.
fn turns_room(most: u64, least: u32, turns: Option<u32>, part: Bound) -> Option<Bound>
    ensures { IfSome result (λ room. turns_room most least turns part ≡ Some room) }
{
    match turns {
        None if least <= 1 && part.ways <= 1 => Some(Bound {
            ways: most.checked_add(1)?,
            cost: most.checked_add(2)?.checked_mul(part.cost)?,
        }),
        Some(1) if least == 0 => Some(Bound {
            ways: part.ways.checked_add(1)?,
            cost: part.cost,
        }),
        Some(turns) if is_few(Some(turns)) => part.chain(u64::from(turns) + 1),
        _ => None,
    }
}

/// The bound of a part in a line of at most so many characters; none where it may leave its line, or
/// where it isn't counted here.
pub(crate) fn room_of(most: u64, node: &Node) -> Option<Bound>
    ensures { IfSome result (λ room. room_of most (bare node.now) ≡ Some room) }
{
    match node {
        Node::Empty => Some(ONE_WAY),
        Node::One(atom) => {
            if is_lined_atom(atom) {
                Some(Bound { ways: 1, cost: 1 })
            } else {
                None
            }
        }
        Node::Seq(a, b) => {
            let first = room_of(most, a)?;
            first.then(room_of(most, b)?)
        }
        Node::Or(a, b) => {
            let one = room_of(most, a)?;
            one.or(room_of(most, b)?)
        }
        Node::And(a, b) => {
            let first = room_of(most, a)?.first();
            first.then(room_of(most, b)?)
        }
        Node::Group(a, _) | Node::External(a, _) => room_of(most, a),
        Node::Repeat {
            part,
            least,
            most: turns,
            ..
        } => turns_room(most, *least, *turns, room_of(most, part)?),
        Node::Ahead { part, not: _ } => Some(room_of(most, part)?.first()),
        Node::Before { .. } => None,
        Node::Whole(a) => Some(room_of(most, a)?.first()),
    }
}
