//! What the parts of a pattern do at a column where none of their atoms takes anything.
ghost use Rattle.std.specs.Prelude.{◌≡◌, Some};
ghost use Rattle.pattern_screens.specs.Common.{bare, both, in_turn, or_maybe, or_still, still_atom, still_look, still_of, is_lined};

use crate::atoms::{By, may_take};
use crate::key::{Key, is_after_keyword, is_end, is_first, is_keyword};
use crate::lined::{is_lined, is_spent};
use crate::still::{Still, unless};
use pattern_items::Atom;
use vim_pattern::Node;

/// What a part does at a column; none where one of its atoms may take what stands there.
#[cycle(still)]
pub(crate) fn still_of(node: &Node, by: &By, key: Key) -> Option<Still>
    ensures { result ≡ still_of by.now.sets.now by.now.ignore key (bare node.now) }
{
    match node {
        Node::Empty => Some(Still::new(true)),
        Node::One(atom) => still_atom(atom, by, key),
        Node::Seq(a, b) => {
            let first = still_of(a, by, key)?;
            still_behind(first, b, by, key)
        }
        Node::Or(a, b) => {
            let one = still_of(a, by, key)?;
            still_either(one, b, by, key)
        }
        Node::And(a, b) => {
            let first = still_look(a, still_of(a, by, key), false)?;
            still_behind(first, b, by, key)
        }
        Node::Group(a, _) | Node::External(a, _) | Node::Whole(a) => still_of(a, by, key),
        Node::Repeat {
            part,
            least,
            most,
            ..
        } => {
            if is_spent(*most) {
                return Some(Still::new(true));
            }
            let part = still_of(part, by, key)?;
            Some(if *least == 0 { Still::new(true) } else { part })
        }
        Node::Ahead { part, not } => still_look(part, still_of(part, by, key), *not),
        Node::Before { .. } => None,
    }
}

/// What a node does behind a part of which this is known. The pieces of a sequence are gone through
/// one by one, so a long one takes no stack.
#[cycle(still)]
#[tactic(auto, using(crate::proofs::StillLaws::turns))]
fn still_behind(first: Still, node: &Node, by: &By, key: Key) -> Option<Still>
    ensures { result ≡ in_turn first (still_of by.now.sets.now by.now.ignore key (bare node.now)) }
{
    let mut known = first;
    let mut rest = node;
    while known.reaches {
        match rest {
            Node::Seq(a, b) => {
                known = known.then(still_of(a, by, key)?);
                rest = b;
            }
            Node::And(a, b) => {
                known = known.then(still_look(a, still_of(a, by, key), false)?);
                rest = b;
            }
            _ => return Some(known.then(still_of(rest, by, key)?)),
        }
    }
    Some(known)
}

/// What one part, of which this is known, or else a node does, branch by branch.
#[cycle(still)]
#[tactic(auto, using(crate::proofs::StillLaws::eithers))]
fn still_either(one: Still, node: &Node, by: &By, key: Key) -> Option<Still>
    ensures { result ≡ both or_still (Some one)
        (still_of by.now.sets.now by.now.ignore key (bare node.now)) }
{
    let mut known = one;
    let mut rest = node;
    while let Node::Or(a, b) = rest {
        known = known.or(still_of(a, by, key)?);
        rest = b;
    }
    Some(known.or(still_of(rest, by, key)?))
}

/// What a look does, by what is known of its part.
fn still_look(part: &Node, known: Option<Still>, negative: bool) -> Option<Still>
    ensures { result ≡ or_maybe (is_lined (bare part.now)) (still_look negative known) }
{
    match known {
        Some(a) => Some(if negative { a.turned() } else { a }),
        None => {
            if is_lined(part) {
                Some(Still::maybe())
            } else {
                None
            }
        }
    }
}

/// What an atom does. Nothing may be said of a line number: whether it fits hangs on the number of
/// the line, which no key tells, while what a screen says is kept for all lines with that key. A
/// word beside it would also let pass over an attempt that looks at the number, and the painted
/// line would then be taken over where it stands at another number. So with the file's start, at
/// which an attempt looks at the line before too.
fn still_atom(atom: &Atom, by: &By, key: Key) -> Option<Still>
    ensures { result ≡ still_atom by.now.sets.now by.now.ignore key atom.now }
{
    match atom {
        Atom::Char(_) | Atom::Any { .. } | Atom::Is { .. } | Atom::Set(_) => {
            unless(may_take(by, atom, key.next))
        }
        Atom::LineEnd => unless(is_end(key.next)),
        Atom::LineStart => Some(Still::new(is_first(key.last))),
        Atom::LineStop => Some(Still::new(is_end(key.next))),
        Atom::WordStart => {
            Some(Still::new(is_keyword(by.sets, key.next) && !is_after_keyword(key.last)))
        }
        Atom::WordStop => {
            Some(Still::new(is_after_keyword(key.last) && !is_keyword(by.sets, key.next)))
        }
        Atom::MatchStart | Atom::MatchStop => Some(Still::new(true)),
        Atom::FileStart | Atom::FileStop | Atom::LineNumber { .. } => None,
        Atom::Ref(_) | Atom::ExternalRef(_) => None,
    }
}
