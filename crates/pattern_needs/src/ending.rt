//! Which character a line must have as the last of those that aren't blanks.
//!
//! A pattern as `\w\s*$` or `\w\s*\n` comes to a line's end behind blanks alone. So a line that ends with
//! none of the characters before them, but for blanks, has no way.
ghost use Rattle.std.specs.Prelude.{◌≡◌, IfSome, IsTrue, true};
ghost use Rattle.char_class.specs.declared.sets.Sets.{Sets as SetsOf};
ghost use Rattle.pattern_screens.specs.PlainAtoms.{is_plain};
ghost use Rattle.vim_pattern.specs.Shape.{bare, one};
ghost use Rattle.pattern_needs.specs.Endings.{IsAmong, IsEndOfLine, IsLastTold, LeadsAmong};

use crate::atoms::{is_lined_atom, is_plain};
use crate::by::By;
use crate::characters::Characters;
use crate::nonblanks::{codes_of, is_blank_atom, is_blank_part, takes_blank};
use pattern_items::Atom;
use vim_pattern::Node;

/// The piece of a pattern that stands at a line's end.
#[derive(Clone, Copy)]
pub(crate) struct Ended {
    /// It has no way in a line whose last character that isn't a blank is none of these.
    pub(crate) characters: Characters,
    pub(crate) number: usize,
}

/// Behind an atom of characters: one of those that it takes is the last, or where it takes a blank, one
/// that was so before.
fn behind_plain(atom: &Atom, from: Characters, by: &By) -> Characters
    requires { is_plain atom.now ≡ true }
    ensures { LeadsAmong by.now.sets.now by.now.ignore (one atom.now) from result }
{
    let taken = codes_of(atom, by);
    if takes_blank(atom, by) {
        taken.with(&from)
    } else {
        taken
    }
}

/// Behind an atom.
fn behind_atom(atom: &Atom, from: Characters, by: &By) -> Characters
    ensures { LeadsAmong by.now.sets.now by.now.ignore (one atom.now) from result }
{
    if is_blank_atom(atom) {
        from
    } else if is_plain(atom) {
        behind_plain(atom, from, by)
    } else if is_lined_atom(atom) {
        from
    } else {
        Characters::all()
    }
}

/// Behind a node.
#[cycle(last)]
fn behind(node: &Node, from: Characters, by: &By) -> Characters
    ensures { LeadsAmong by.now.sets.now by.now.ignore (bare node.now) from result }
{
    match node {
        Node::Empty => from,
        Node::One(atom) => behind_atom(atom, from, by),
        Node::Seq(a, b) => behind_pieces(b, behind(a, from, by), by),
        Node::Or(a, b) => behind_branches(behind(a, from, by), b, from, by),
        Node::Group(a, _) => behind(a, from, by),
        Node::Repeat { part, .. } => if is_blank_part(part) {
            from
        } else {
            Characters::all()
        },
        _ => Characters::all(),
    }
}

/// The same, piece by piece, so a long sequence takes no stack.
#[cycle(last)]
fn behind_pieces(node: &Node, from: Characters, by: &By) -> Characters
    ensures { LeadsAmong by.now.sets.now by.now.ignore (bare node.now) from result }
{
    let mut known = from;
    let mut rest = node;
    while let Node::Seq(a, b) = rest {
        known = behind(a, known, by);
        rest = b;
    }
    behind(rest, known, by)
}

/// Behind a part, of which this is known, or else a node, branch by branch.
#[cycle(last)]
fn behind_branches(one: Characters, node: &Node, from: Characters, by: &By) -> Characters
    ensures wider { IsAmong one result }
    ensures leads { LeadsAmong by.now.sets.now by.now.ignore (bare node.now) from result }
{
    let mut known = one;
    let mut rest = node;
    while let Node::Or(a, b) = rest {
        known = either(&known, &behind(a, from, by));
        rest = b;
    }
    either(&known, &behind(rest, from, by))
}

/// The characters of both.
fn either(one: &Characters, other: &Characters) -> Characters
    ensures one { IsAmong one.now result }
    ensures other { IsAmong other.now result }
{
    one.with(other)
}

/// Whether it is a line end, or the place before it.
fn is_end_of_line(node: &Node) -> bool
    ensures { IsTrue result → IsEndOfLine (bare node.now) }
{
    match node {
        Node::One(Atom::LineEnd) => true,
        Node::One(Atom::LineStop) => true,
        _ => false,
    }
}

/// Whether one of the pieces is. Most patterns have none, and so nothing is sought of them.
fn comes_to_line_end(node: &Node) -> bool {
    let mut rest = node;
    while let Node::Seq(a, b) = rest {
        if is_end_of_line(a) {
            return true;
        }
        rest = b;
    }
    is_end_of_line(rest)
}

/// What a pattern tells of the last character that isn't a blank, by the pieces up to the first line end.
pub(crate) fn told_last(node: &Node, by: &By) -> Option<Ended>
    ensures { IfSome result (IsLastTold by.now.sets.now by.now.ignore (bare node.now)) }
{
    if !comes_to_line_end(node) {
        return None;
    }
    let mut characters = Characters::all();
    let mut rest = node;
    let mut number: usize = 0;
    while let Node::Seq(a, b) = rest {
        if is_end_of_line(a) {
            return Some(Ended { characters, number });
        }
        characters = behind(a, characters, by);
        number = number.checked_add(1)?;
        rest = b;
    }
    if is_end_of_line(rest) {
        Some(Ended { characters, number })
    } else {
        None
    }
}
