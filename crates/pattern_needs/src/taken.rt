//! Which characters the atoms take that a part needs.
ghost use Rattle.std.specs.Prelude.{◌≡◌, ℕ, true};
ghost use Rattle.vim_pattern.specs.Shape.{bare};
ghost use Rattle.pattern_needs.specs.Asking.{atoms_in};
ghost use Rattle.pattern_needs.specs.Characters.{holds};
ghost use Rattle.pattern_needs.specs.Needs.{needed, some_takes};

use crate::by::By;
use crate::characters::Characters;
use crate::nonblanks::codes_of;
use crate::piece::piece_behind;
use vim_pattern::Node;

/// The characters that the atoms take which a part needs, and maybe others.
#[cycle(taken)]
pub(crate) fn taken_by(part: &Node, by: &By) -> Characters
    ensures { (c : ℕ) → some_takes by.now.sets.now by.now.ignore
        (atoms_in (needed (bare part.now))) c ≡ true → holds result c ≡ true }
{
    match part {
        Node::One(atom) => codes_of(atom, by),
        Node::Seq(a, b) => taken_by(piece_behind(a, b, by), by),
        Node::And(a, b) => taken_by(piece_behind(a, b, by), by),
        Node::Or(a, b) => taken_either(taken_by(a, by), b, by),
        Node::Group(a, _) => taken_by(a, by),
        Node::External(a, _) => taken_by(a, by),
        Node::Repeat { part, .. } => taken_by(part, by),
        Node::Ahead { part, .. } => taken_by(part, by),
        Node::Whole(a) => taken_by(a, by),
        Node::Empty | Node::Before { .. } => Characters::none(),
    }
}

/// Some characters and the same of a node, branch by branch, so a long choice takes no stack.
#[cycle(taken)]
fn taken_either(some: Characters, node: &Node, by: &By) -> Characters
    ensures some { (c : ℕ) → holds some c ≡ true → holds result c ≡ true }
    ensures taken { (c : ℕ) → some_takes by.now.sets.now by.now.ignore
        (atoms_in (needed (bare node.now))) c ≡ true → holds result c ≡ true }
{
    let mut known = some;
    let mut rest = node;
    while let Node::Or(a, b) = rest {
        known = known.with(&taken_by(a, by));
        rest = b;
    }
    known.with(&taken_by(rest, by))
}
