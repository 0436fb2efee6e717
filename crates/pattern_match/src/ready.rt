//! A pattern's nodes, made ready for the matcher.
//!
//! What a node comes to is known before any attempt as far as no atom has a say. One that has no way
//! becomes `Step::Never`, and one that has a single way, on which nothing changes, `Step::Empty`: a
//! walk through their parts costs no tick, and so no budget would end it. An optional turn of a part
//! that always takes something is a choice between the part and nothing, so that nested ones leave
//! nothing to be done behind them. A choice between parts that try no atom is known as such: where
//! nothing has come of the one without a tick, nothing comes of the other.
ghost use Rattle.std.specs.Prelude.{◌≡◌, true, false, Some, IfOk};
ghost use Rattle.vim_pattern.specs.Shape.{bare, Shape, empty, one, or, repeat};
ghost use Rattle.pattern_match.specs.Fates.{fate_of, passes};
ghost use Rattle.vim_pattern.specs.Parted.{paired, wrapped};
ghost use Rattle.pattern_match.specs.LastParts.{all_over, over, IsOpened};
ghost use Rattle.pattern_match.specs.StandsFor.{StandsFor};
ghost use Rattle.pattern_match.specs.Steps.{atom_of, shape_of};
ghost use Rattle.pattern_match.specs.Takes.{atom_takes, is_taking};

use crate::collection::Collection;
use crate::fate::{Fate, behind, counted, either, first_of, looked};
use crate::made::Made;
use crate::step::{Step, Test, is_forced, stops_first};
use pattern_items::Atom;
use pattern_screens::is_spent;
use std::alloc::Global;
use syn_base::Memory;
use vim_pattern::{Node, Pair, Parted, Wrap};

/// A ready node's parts but for its last child.
#[derive(Drop)]
pub(crate) enum Above {
    /// The first of two children, made ready.
    Two(Pair, Made),
    One(Wrap),
}

/// What a node of one child comes to, by what that child does.
fn fate_wrapped(wrap: Wrap, last: Fate) -> Fate
    ensures { (t : Shape) → last ≡ fate_of t → result ≡ fate_of (wrapped wrap t) }
{
    match wrap {
        Wrap::Group(_) | Wrap::External(_) => behind(last, Fate::Passes),
        Wrap::Repeat { most, .. } if is_spent(most) => Fate::Stays,
        Wrap::Repeat { least, most, lazy } => {
            let stops = stops_first(least, most, lazy);
            counted(last, is_forced(least, most), stops)
        }
        Wrap::Ahead { not } | Wrap::Before { not, .. } => looked(last, not),
        Wrap::Whole => first_of(last),
    }
}

/// Whether each way of a node of one child stands behind the place where it was tried, by whether
/// those of that child do.
fn takes_wrapped(wrap: Wrap, last: bool) -> bool
    ensures { (t : Shape) → last ≡ is_taking t → result ≡ is_taking (wrapped wrap t) }
{
    match wrap {
        Wrap::Repeat { least, most, .. } => is_forced(least, most) && last,
        Wrap::Ahead { .. } | Wrap::Before { .. } => false,
        Wrap::Group(_) | Wrap::External(_) | Wrap::Whole => last,
    }
}

impl Above {
    /// What the node of these parts comes to, by what its last child does.
    fn fate_over(&self, last: Fate) -> Fate
        ensures { (t : Shape) → last ≡ fate_of t → result ≡ fate_of (over self.now t) }
    {
        match self {
            Above::Two(Pair::Seq, first) => behind(first.fate, last),
            Above::Two(Pair::Or, first) => either(first.fate, last),
            Above::Two(Pair::And, first) => behind(looked(first.fate, false), last),
            Above::One(wrap) => fate_wrapped(*wrap, last),
        }
    }

    /// Whether each way of the node of these parts stands behind the place where it was tried, by
    /// whether those of its last child do.
    fn takes_over(&self, last: bool) -> bool
        ensures { (t : Shape) → last ≡ is_taking t → result ≡ is_taking (over self.now t) }
    {
        match self {
            Above::Two(Pair::Seq, first) => first.takes || last,
            Above::Two(Pair::Or, first) => first.takes && last,
            Above::Two(Pair::And, _) => last,
            Above::One(wrap) => takes_wrapped(*wrap, last),
        }
    }
}

/// The node of these parts and this last child.
fn joined(alloc: Global, above: Above, step: Step) -> Result<Step, Memory>
    ensures { IfOk result (λ s. shape_of s ≡ over above (shape_of step)) }
{
    let part = Box::new(alloc, step)?;
    match above {
        Above::Two(pair, first) => Ok(paired(pair, Box::new(alloc, first.step)?, part)),
        Above::One(wrap) => Ok(wrapped(wrap, part)),
    }
}

/// The node of two children.
fn paired(pair: Pair, first: Box<Step>, last: Box<Step>) -> Step
    ensures { shape_of result ≡ paired pair (shape_of first.value) (shape_of last.value) }
{
    match pair {
        Pair::Seq => Step::Seq(first, last),
        Pair::Or => Step::Or(first, last),
        Pair::And => Step::And(first, last),
    }
}

/// The node of one child.
fn wrapped(wrap: Wrap, part: Box<Step>) -> Step
    ensures { shape_of result ≡ wrapped wrap (shape_of part.value) }
{
    match wrap {
        Wrap::Group(number) => Step::Group(part, number),
        Wrap::External(number) => Step::External(part, number),
        Wrap::Repeat { least, most, lazy } => Step::Repeat {
            part,
            least,
            most,
            lazy,
        },
        Wrap::Ahead { not } => Step::Ahead { part, not },
        Wrap::Before { not, limit } => Step::Before { part, not, limit },
        Wrap::Whole => Step::Whole(part),
    }
}

/// A node that comes to this, or a plainer one that stands for it.
#[tactic(auto, using(crate::proofs::FateLaws::stands_never, crate::proofs::FateLaws::stands_stays, crate::proofs::StandsLaws::stands_itself))]
fn settled(step: Step, fate: Fate, takes: bool) -> Made
    requires comes { fate ≡ fate_of (shape_of step) }
    requires takes { takes ≡ is_taking (shape_of step) }
    ensures { StandsFor (shape_of result.step) (shape_of step) }
{
    match fate {
        Fate::Never => {
            drop(step);
            Made {
                step: Step::Never,
                fate,
                takes: false,
            }
        }
        Fate::Stays => {
            drop(step);
            Made {
                step: Step::Empty,
                fate,
                takes: false,
            }
        }
        Fate::Passes | Fate::Opens | Fate::Tries => Made { step, fate, takes },
    }
}

/// An optional turn of a part that always takes something.
fn optional(alloc: Global, part: Made) -> Result<Made, Memory>
    requires { part.takes ≡ true }
    ensures { IfOk result (λ m. StandsFor (shape_of m.step) (repeat (shape_of part.step) 0 (Some 1)
        false)) }
{
    let fate = either(part.fate, Fate::Stays);
    let step = Step::Optional(Box::new(alloc, part.step)?);
    Ok(settled(step, fate, false))
}

/// A choice between two parts that pass.
fn choice(alloc: Global, first: Made, second: Made) -> Result<Made, Memory>
    requires first { passes first.fate ≡ true }
    requires second { passes second.fate ≡ true }
    ensures { IfOk result (λ m. StandsFor (shape_of m.step) (or (shape_of first.step)
        (shape_of second.step))) }
{
    let fate = either(first.fate, second.fate);
    let takes = first.takes && second.takes;
    let second = Box::new(alloc, second.step)?;
    let step = Step::Choice(Box::new(alloc, first.step)?, second);
    Ok(Made { step, fate, takes })
}

/// The node of these parts and this last child, or a plainer one that stands for it.
fn put_over(alloc: Global, above: Above, last: Made) -> Result<Made, Memory>
    ensures { IfOk result (λ m. StandsFor (shape_of m.step) (over above (shape_of last.step))) }
{
    match above {
        Above::One(
            Wrap::Repeat {
                least: 0,
                most: Some(1),
                lazy: false,
            },
        ) if last.takes => optional(alloc, last),
        Above::Two(Pair::Or, first) if first.fate.passes() && last.fate.passes() => {
            choice(alloc, first, last)
        }
        above => {
            let fate = above.fate_over(last.fate);
            let takes = above.takes_over(last.takes);
            Ok(settled(joined(alloc, above, last.step)?, fate, takes))
        }
    }
}

/// The node of all these, the uppermost first, over this one.
#[tactic(auto, using(crate::proofs::StandsLaws::stands_itself, crate::proofs::StandsLaws::stands_lower))]
fn put_all_over(alloc: Global, all: Vec<Above>, leaf: Made) -> Result<Made, Memory>
    ensures { IfOk result (λ m. StandsFor (shape_of m.step) (all_over all.items
        (shape_of leaf.step))) }
{
    let mut all = all;
    let mut made = leaf;
    while let Some(above) = all.pop() {
        made = put_over(alloc, above, made)?;
    }
    Ok(made)
}

/// A node, parted from its last child.
#[derive(Drop)]
enum Opened<'n> {
    /// One that has no child, made ready.
    Leaf(Made),
    /// The other parts of a node, made ready, and its last child.
    Under(Above, &'n Node),
}

/// A leaf that is an atom.
fn ready_leaf(alloc: Global, atom: &Atom) -> Result<Made, Memory>
    ensures { IfOk result (λ m. shape_of m.step ≡ one atom.now) }
{
    Ok(Made {
        step: Step::One(ready_atom(alloc, atom)?),
        fate: Fate::Tries,
        takes: always_takes(atom),
    })
}

/// A leaf that is empty.
fn ready_empty() -> Made
    ensures { shape_of result.step ≡ empty }
{
    Made {
        step: Step::Empty,
        fate: Fate::Stays,
        takes: false,
    }
}

/// Parts a node from its last child, and makes the rest of it ready.
#[cycle(ready)]
#[tactic(auto, using(crate::proofs::StandsLaws::opened_two, crate::proofs::StandsLaws::stands_same))]
fn taken_apart<'n>(alloc: Global, node: &'n Node) -> Result<Opened<'n>, Memory>
    ensures { IfOk result (λ opened. IsOpened opened (bare node.now)) }
{
    match node.parted() {
        Parted::Empty => Ok(Opened::Leaf(ready_empty())),
        Parted::One(atom) => Ok(Opened::Leaf(ready_leaf(alloc, atom)?)),
        Parted::Two(pair, a, b) => Ok(Opened::Under(Above::Two(pair, made(alloc, a)?), b)),
        Parted::Under(wrap, part) => Ok(Opened::Under(Above::One(wrap), part)),
    }
}

/// The ready node of a node. Only first children are made ready by a call of its own, and those nest
/// no deeper than the levels of a pattern allow.
#[cycle(ready)]
#[tactic(auto, using(crate::proofs::StandsLaws::stands_itself, crate::proofs::StandsLaws::stands_leaf, crate::proofs::StandsLaws::stands_all))]
fn made(alloc: Global, node: &Node) -> Result<Made, Memory>
    ensures { IfOk result (λ m. StandsFor (shape_of m.step) (bare node.now)) }
{
    let mut all = Vec::new(alloc);
    let mut rest = node;
    loop {
        match taken_apart(alloc, rest)? {
            Opened::Leaf(leaf) => return put_all_over(alloc, all, leaf),
            Opened::Under(above, last) => {
                all.push(above)?;
                rest = last;
            }
        }
    }
}

/// The ready node that stands for a node.
pub(crate) fn ready(alloc: Global, node: &Node) -> Result<Step, Memory>
    ensures { IfOk result (λ s. StandsFor (shape_of s) (bare node.now)) }
{
    Ok(made(alloc, node)?.step)
}

/// Whether an atom takes a character or a line end wherever it fits.
fn always_takes(atom: &Atom) -> bool
    ensures { result ≡ atom_takes atom.now }
{
    match atom {
        Atom::Char(_) | Atom::Any { .. } | Atom::Is { .. } | Atom::Set(_) | Atom::LineEnd => true,
        _ => false,
    }
}

/// The ready atom of an atom.
fn ready_atom(alloc: Global, atom: &Atom) -> Result<Test, Memory>
    ensures { IfOk result (λ t. atom_of t ≡ atom.now) }
{
    match atom {
        Atom::Char(c) => Ok(Test::Char(*c)),
        Atom::Any { line_end } => Ok(Test::Any {
            line_end: *line_end,
        }),
        Atom::Is {
            class,
            not,
            line_end,
        } => Ok(Test::Is {
            class: *class,
            not: *not,
            line_end: *line_end,
        }),
        Atom::Set(ranges) => {
            let collection = Collection::new(alloc, ranges)?;
            Ok(Test::Set(Box::new(alloc, collection)?))
        }
        Atom::LineEnd => Ok(Test::LineEnd),
        Atom::LineStart => Ok(Test::LineStart),
        Atom::LineStop => Ok(Test::LineStop),
        Atom::WordStart => Ok(Test::WordStart),
        Atom::WordStop => Ok(Test::WordStop),
        Atom::FileStart => Ok(Test::FileStart),
        Atom::FileStop => Ok(Test::FileStop),
        Atom::MatchStart => Ok(Test::MatchStart),
        Atom::MatchStop => Ok(Test::MatchStop),
        Atom::LineNumber { how, number } => Ok(Test::LineNumber {
            how: *how,
            number: *number,
        }),
        Atom::Ref(number) => Ok(Test::Ref(*number)),
        Atom::ExternalRef(number) => Ok(Test::ExternalRef(*number)),
    }
}
