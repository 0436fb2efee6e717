//! How many ways and ticks the parts of a pattern have at most that stay in their line.
ghost use Rattle.std.specs.Prelude.{◌≡◌, Some, IfSome};
ghost use Rattle.vim_pattern.specs.Shape.{bare};
ghost use Rattle.pattern_screens.specs.Lined.{is_few};
ghost use Rattle.pattern_needs.specs.Fronts.{front, front_upto};
ghost use Rattle.pattern_needs.specs.Growths.{IsRoomBehind, IsRoomEither, IsRoomOf, total};
ghost use Rattle.pattern_needs.specs.LineCosts.{counted};

use crate::atoms::is_lined_atom;
use crate::room::{
    Room, endless_room, first_room, limited_room, or_room, single, still, then_room,
};
use vim_pattern::Node;

/// Whether each turn of a count is counted.
fn is_few(turns: u32) -> bool
    ensures { result ≡ is_few (Some turns) }
{
    turns <= 1000
}

/// A count with a limit by its part.
fn some_room(least: u32, most: u32, a: Room) -> Option<Room>
    ensures { IfSome result (λ room. total room ≡ counted (total a) least (Some most)) }
{
    if is_few(most) {
        limited_room(a, most.saturating_sub(least), most)
    } else {
        endless_room(least, a)
    }
}

/// A count by its part.
fn counted_room(least: u32, most: Option<u32>, a: Room) -> Option<Room>
    ensures { IfSome result (λ room. total room ≡ counted (total a) least most) }
{
    match most {
        None => endless_room(least, a),
        Some(most) => some_room(least, most, a),
    }
}

/// The room of a node; none where it may leave its line, where it isn't counted here, and where a number
/// is too large.
#[cycle(rooms)]
pub(crate) fn room_of(node: &Node) -> Option<Room>
    ensures { IfSome result (IsRoomOf (bare node.now)) }
{
    match node {
        Node::Empty => Some(still()),
        Node::One(atom) => {
            if is_lined_atom(atom) {
                Some(single())
            } else {
                None
            }
        }
        Node::Seq(a, b) => {
            let first = room_of(a)?;
            room_behind(first, b)
        }
        Node::Or(a, b) => {
            let one = room_of(a)?;
            room_either(one, b)
        }
        Node::And(a, b) => {
            let first = first_room(room_of(a)?);
            room_behind(first, b)
        }
        Node::Group(a, _) => room_of(a),
        Node::External(a, _) => room_of(a),
        Node::Repeat {
            part,
            least,
            most,
            lazy: _,
        } => counted_room(*least, *most, room_of(part)?),
        Node::Ahead { part, not: _ } => Some(first_room(room_of(part)?)),
        Node::Before { .. } => None,
        Node::Whole(a) => Some(first_room(room_of(a)?)),
    }
}

/// The room of a part and of a node behind it, piece by piece.
#[cycle(rooms)]
fn room_behind(first: Room, node: &Node) -> Option<Room>
    ensures { IfSome result (IsRoomBehind first (bare node.now)) }
{
    let mut known = first;
    let mut rest = node;
    loop {
        match rest {
            Node::Seq(a, b) => {
                known = then_room(known, room_of(a)?)?;
                rest = b;
            }
            Node::And(a, b) => {
                known = then_room(known, first_room(room_of(a)?))?;
                rest = b;
            }
            _ => return then_room(known, room_of(rest)?),
        }
    }
}

/// The room of one part or else a node, branch by branch.
#[cycle(rooms)]
fn room_either(one: Room, node: &Node) -> Option<Room>
    ensures { IfSome result (IsRoomEither one (bare node.now)) }
{
    let mut known = one;
    let mut rest = node;
    while let Node::Or(a, b) = rest {
        known = or_room(known, room_of(a)?)?;
        rest = b;
    }
    or_room(known, room_of(rest)?)
}

/// The room of a node's first pieces, up to that of a number; of the whole where no number is told.
pub(crate) fn front_room(node: &Node, upto: Option<usize>) -> Option<Room>
    ensures { IfSome result (IsRoomOf (front_upto upto (bare node.now))) }
{
    match upto {
        None => room_of(node),
        Some(number) => numbered_room(node, number),
    }
}

/// The same of a number; none where the sequence ends before it.
fn numbered_room(node: &Node, number: usize) -> Option<Room>
    ensures { IfSome result (IsRoomOf (front (bare node.now) number)) }
{
    let mut known = still();
    let mut rest = node;
    let mut left = number;
    while let Node::Seq(a, b) = rest {
        known = then_room(known, room_of(a)?)?;
        if left == 0 {
            return Some(known);
        }
        left -= 1;
        rest = b;
    }
    None
}
