//! Whether one of the atoms that a part needs takes a character.
ghost use Rattle.std.specs.Prelude.{◌≡◌, Some};
ghost use Rattle.vim_pattern.specs.Shape.{bare};
ghost use Rattle.pattern_needs.specs.Asking.{asked_of, atoms_in, both_asked, comes_first, either_asked, rather_asked};
ghost use Rattle.pattern_needs.specs.Needs.{needed, some_takes};
ghost use Rattle.pattern_screens.specs.FirstAtoms.{is_forced};

use crate::atoms::{is_character, is_plain, plain_takes};
use crate::by::By;
use vim_pattern::Node;

/// What is known of the atoms that a part needs.
#[derive(Clone, Copy)]
pub(crate) struct Asked {
    /// Whether one of them takes the character that was asked for.
    pub(crate) takes: bool,
    /// Whether they are single characters alone.
    pub(crate) characters: bool,
}

/// Of two lists of which both are needed, the one that is looked for.
fn rather(first: Option<Asked>, second: Option<Asked>) -> Option<Asked>
    ensures { result ≡ rather_asked first second }
{
    if comes_first(first, second) {
        first
    } else {
        second
    }
}

/// Whether of two such lists the first is looked for.
pub(crate) fn comes_first(first: Option<Asked>, second: Option<Asked>) -> bool
    ensures { result ≡ comes_first first second }
{
    match (first, second) {
        (Some(one), Some(other)) => one.characters && !other.characters,
        (Some(_), None) => true,
        (None, _) => false,
    }
}

/// Both lists together.
fn either(one: Asked, other: Asked) -> Asked
    ensures { result ≡ both_asked one other }
{
    Asked {
        takes: one.takes || other.takes,
        characters: one.characters && other.characters,
    }
}

/// What is known of the atoms that a node needs; none where they aren't known.
#[cycle(ask)]
#[tactic(auto, using(crate::proofs::AskingLaws::askings))]
pub(crate) fn ask(node: &Node, by: &By, c: char) -> Option<Asked>
    ensures { result ≡ asked_of by.now.sets.now by.now.ignore c (needed (bare node.now)) }
{
    match node {
        Node::One(atom) => {
            if is_plain(atom) {
                Some(Asked {
                    takes: plain_takes(atom, by, c),
                    characters: is_character(atom),
                })
            } else {
                None
            }
        }
        Node::Seq(a, b) => ask_behind(ask(a, by, c), b, by, c),
        Node::And(a, b) => ask_behind(ask(a, by, c), b, by, c),
        Node::Or(a, b) => ask_either(ask(a, by, c)?, b, by, c),
        Node::Group(a, _) => ask(a, by, c),
        Node::External(a, _) => ask(a, by, c),
        Node::Repeat {
            part,
            least,
            most,
            lazy: _,
        } => {
            if is_forced(*least, *most) {
                ask(part, by, c)
            } else {
                None
            }
        }
        Node::Ahead { part, not } => { if *not { None } else { ask(part, by, c) } }
        Node::Whole(a) => ask(a, by, c),
        Node::Empty | Node::Before { .. } => None,
    }
}

/// The same of a node behind a part of which this is known. The pieces of a sequence are gone through
/// one by one, so a long one takes no stack.
#[cycle(ask)]
#[tactic(auto, using(crate::proofs::AskingLaws::pieces))]
fn ask_behind(first: Option<Asked>, node: &Node, by: &By, c: char) -> Option<Asked>
    ensures { result ≡ rather_asked first
        (asked_of by.now.sets.now by.now.ignore c (needed (bare node.now))) }
{
    let mut known = first;
    let mut rest = node;
    loop {
        match rest {
            Node::Seq(a, b) => {
                known = rather(known, ask(a, by, c));
                rest = b;
            }
            Node::And(a, b) => {
                known = rather(known, ask(a, by, c));
                rest = b;
            }
            _ => return rather(known, ask(rest, by, c)),
        }
    }
}

/// The same of one part, of which this is known, or else a node, branch by branch.
#[cycle(ask)]
#[tactic(auto, using(crate::proofs::AskingLaws::branches))]
fn ask_either(one: Asked, node: &Node, by: &By, c: char) -> Option<Asked>
    ensures { result ≡ either_asked (Some one)
        (asked_of by.now.sets.now by.now.ignore c (needed (bare node.now))) }
{
    let mut known = one;
    let mut rest = node;
    while let Node::Or(a, b) = rest {
        known = either(known, ask(a, by, c)?);
        rest = b;
    }
    Some(either(known, ask(rest, by, c)?))
}

/// Whether a count has to take a turn.
fn is_forced(least: u32, most: Option<u32>) -> bool
    ensures { result ≡ is_forced least most }
{
    match most {
        Some(most) => least > 0 && most > 0,
        None => least > 0,
    }
}

/// Whether one of the atoms that a node needs takes a character.
pub(crate) fn takes_needed(node: &Node, by: &By, c: char) -> bool
    ensures { result ≡ some_takes by.now.sets.now by.now.ignore
        (atoms_in (needed (bare node.now))) c }
{
    match ask(node, by, c) {
        Some(known) => known.takes,
        None => false,
    }
}
