//! Which character a line must have as the second of those that aren't blanks.
//!
//! A pattern as `^\s*#\s*define` passes over blanks from a line's start, takes one character, and passes
//! over blanks again. So a line tells by two of its characters that it has no way.
ghost use Rattle.std.specs.Prelude.{◌≡◌, ◌||◌, ℕ, Bool, IfSome, IsTrue, true, false};
ghost use Rattle.char_class.specs.declared.sets.Sets.{Sets as SetsOf};
ghost use Rattle.syn_base.specs.declared.class.Class.TheVariants.{White};
ghost use Rattle.pattern_items.specs.declared.atom.Atom.TheVariants.{Is, LineStart};
ghost use Rattle.vim_pattern.specs.Shape.{Shape, bare, one, seq};
ghost use Rattle.pattern_screens.specs.PlainAtoms.{is_plain, plain_takes};
ghost use Rattle.pattern_needs.specs.Characters.{holds};
ghost use Rattle.pattern_needs.specs.Nonblanks.{IsSecondTold, IsWider, Leads};

use crate::atoms::{is_lined_atom, is_plain, plain_takes};
use crate::by::By;
use crate::characters::Characters;
use pattern_items::Atom;
use syn_base::Class;
use vim_pattern::Node;

/// How many of a line's characters that aren't blanks ways may have behind them.
#[derive(Clone, Copy)]
pub(crate) struct Counted {
    pub(crate) none: bool,
    pub(crate) one: bool,
    /// Two or more, where the second is one of these.
    pub(crate) two: Characters,
}

/// What was found out of a pattern, up to a piece of this number, or of all of it.
#[derive(Clone, Copy)]
pub(crate) struct Told {
    /// It has no way in a line whose second character that isn't a blank is none of these.
    pub(crate) characters: Characters,
    pub(crate) upto: Option<usize>,
}

impl Counted {
    /// At a line's first column.
    fn begun() -> Counted
        ensures { result.none ≡ true }
    {
        Counted {
            none: true,
            one: false,
            two: Characters::none(),
        }
    }

    /// Whether less than two may be behind some.
    fn is_open(&self) -> bool
        ensures { result ≡ (self.now.none || self.now.one) }
    {
        self.none || self.one
    }

    /// Somewhere behind.
    fn further(self) -> Counted
        ensures { (sets : SetsOf) (ignore : Bool) (node : Shape) → Leads sets ignore node self result }
    {
        if self.is_open() {
            Counted {
                none: self.none,
                one: true,
                two: Characters::all(),
            }
        } else {
            self
        }
    }

    /// The second characters behind an atom of characters.
    fn second_by(&self, atom: &Atom, by: &By) -> Characters
        ensures kept { (c : ℕ) → holds self.now.two c ≡ true → holds result c ≡ true }
        ensures taken { (c : ℕ) → self.now.one ≡ true →
            plain_takes by.now.sets.now by.now.ignore atom.now c ≡ true → holds result c ≡ true }
    {
        if self.one {
            self.two.with(&codes_of(atom, by))
        } else {
            self.two
        }
    }

    /// Where either stands.
    fn or(&self, other: &Counted) -> Counted
        ensures one { IsWider self.now result }
        ensures other { IsWider other.now result }
    {
        Counted {
            none: self.none || other.none,
            one: self.one || other.one,
            two: self.two.with(&other.two),
        }
    }
}

/// Whether an atom takes blanks alone.
pub(crate) fn is_blank_atom(atom: &Atom) -> bool
    ensures { IsTrue result → atom.now ≡ Is White false false }
{
    match atom {
        Atom::Is {
            class: Class::White,
            not,
            line_end,
        } => !*not && !*line_end,
        _ => false,
    }
}

/// The same of a part.
pub(crate) fn is_blank_part(part: &Node) -> bool
    ensures { IsTrue result → bare part.now ≡ one (Is White false false) }
{
    match part {
        Node::One(atom) => is_blank_atom(atom),
        _ => false,
    }
}

/// The characters that an atom takes, and maybe others from 256 on.
pub(crate) fn codes_of(atom: &Atom, by: &By) -> Characters
    ensures { (c : ℕ) → plain_takes by.now.sets.now by.now.ignore atom.now c ≡ true →
        holds result c ≡ true }
{
    let mut codes = Characters::others();
    for code in 0..=u8::MAX {
        if plain_takes(atom, by, char::from(code)) {
            codes.add_code(code);
        }
    }
    codes
}

/// Whether an atom takes a blank.
pub(crate) fn takes_blank(atom: &Atom, by: &By) -> bool
    ensures { result ≡ (plain_takes by.now.sets.now by.now.ignore atom.now 32
        || plain_takes by.now.sets.now by.now.ignore atom.now 9) }
{
    plain_takes(atom, by, ' ') || plain_takes(atom, by, '\t')
}

/// Behind an atom of characters.
fn behind_plain(atom: &Atom, from: Counted, by: &By) -> Counted
    requires { is_plain atom.now ≡ true }
    ensures { Leads by.now.sets.now by.now.ignore (one atom.now) from result }
{
    let blank = takes_blank(atom, by);
    Counted {
        none: from.none & blank,
        one: from.none | from.one & blank,
        two: from.second_by(atom, by),
    }
}

/// Behind an atom.
fn behind_atom(atom: &Atom, from: Counted, by: &By) -> Counted
    ensures { Leads by.now.sets.now by.now.ignore (one atom.now) from result }
{
    if is_blank_atom(atom) {
        from
    } else if is_plain(atom) {
        behind_plain(atom, from, by)
    } else if is_lined_atom(atom) {
        from
    } else {
        from.further()
    }
}

/// Behind a node.
#[cycle(behind)]
fn behind(node: &Node, from: Counted, by: &By) -> Counted
    ensures { Leads by.now.sets.now by.now.ignore (bare node.now) from result }
{
    match node {
        Node::Empty => from,
        Node::One(atom) => behind_atom(atom, from, by),
        Node::Seq(a, b) => behind_pieces(b, behind(a, from, by), by),
        Node::Or(a, b) => behind_branches(behind(a, from, by), b, from, by),
        Node::Group(a, _) => behind(a, from, by),
        Node::Repeat { part, .. } => if is_blank_part(part) {
            from
        } else {
            from.further()
        },
        _ => from.further(),
    }
}

/// The same, piece by piece, so a long sequence takes no stack.
#[cycle(behind)]
fn behind_pieces(node: &Node, from: Counted, by: &By) -> Counted
    ensures { Leads by.now.sets.now by.now.ignore (bare node.now) from result }
{
    let mut known = from;
    let mut rest = node;
    while let Node::Seq(a, b) = rest {
        known = behind(a, known, by);
        rest = b;
    }
    behind(rest, known, by)
}

/// Behind a part, of which this is known, or else a node, branch by branch.
#[cycle(behind)]
fn behind_branches(one: Counted, node: &Node, from: Counted, by: &By) -> Counted
    ensures wider { IsWider one result }
    ensures leads { Leads by.now.sets.now by.now.ignore (bare node.now) from result }
{
    let mut known = one;
    let mut rest = node;
    while let Node::Or(a, b) = rest {
        known = known.or(&behind(a, from, by));
        rest = b;
    }
    known.or(&behind(rest, from, by))
}

/// What a pattern that begins with the line's start tells of the second character that isn't a blank, by as
/// few pieces as tell it.
pub(crate) fn told_second(node: &Node, by: &By) -> Option<Told>
    ensures { IfSome result (IsSecondTold by.now.sets.now by.now.ignore (bare node.now)) }
{
    let Node::Seq(first, rest) = node else {
        return None;
    };
    if !is_line_start(first) {
        return None;
    }
    told_behind(rest, by)
}

/// Whether it is the line's start.
fn is_line_start(node: &Node) -> bool
    ensures { IsTrue result → bare node.now ≡ one LineStart }
{
    match node {
        Node::One(Atom::LineStart) => true,
        _ => false,
    }
}

/// The same of what follows the line's start.
fn told_behind(node: &Node, by: &By) -> Option<Told>
    ensures { IfSome result (IsSecondTold by.now.sets.now by.now.ignore (seq (one LineStart) (bare node.now))) }
{
    let mut known = Counted::begun();
    let mut rest = node;
    let mut number: usize = 1;
    while let Node::Seq(a, b) = rest {
        known = behind(a, known, by);
        if !known.is_open() {
            return Some(Told {
                characters: known.two,
                upto: Some(number),
            });
        }
        number = number.checked_add(1)?;
        rest = b;
    }
    known = behind(rest, known, by);
    if known.is_open() {
        return None;
    }
    Some(Told {
        characters: known.two,
        upto: None,
    })
}
