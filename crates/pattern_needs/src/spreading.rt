//! In how long lines the pieces up to a line end are sure to be within a budget.
ghost use Rattle.std.specs.Prelude.{◌≡◌, ℕ, IfSome, IsTrue, Some, true};
ghost use Rattle.vim_pattern.specs.Shape.{Shape, bare, one};
ghost use Rattle.pattern_screens.specs.PlainAtoms.{is_plain};
ghost use Rattle.pattern_needs.specs.Fronts.{stopped};
ghost use Rattle.pattern_needs.specs.Spreads.{IsCheapPart, IsSpread, or_spreads, then_spreads};
ghost use Rattle.pattern_needs.specs.declared.spread.Spreads.{Spreads as SpreadsOf};

use crate::atoms::{is_lined_atom, is_plain};
use crate::by::By;
use crate::longest::{LONGEST_STEP, STEPS};
use crate::nonblanks::{is_blank_part, takes_blank};
use crate::rooms::room_of;
use crate::spread::{Spreads, anywhere, or_spreads, over_blanks, still, then_spreads};
use pattern_items::Atom;
use vim_pattern::Node;

/// Of an atom of characters: one that takes no blank has no way from before a blank.
fn plain_spread(atom: &Atom, by: &By) -> Spreads
    requires { is_plain atom.now ≡ true }
    ensures { (most : ℕ) → IsSpread by.now.sets.now by.now.ignore most (one atom.now) result }
{
    let other = anywhere(1, 1);
    if takes_blank(atom, by) {
        Spreads {
            blank: other,
            other,
        }
    } else {
        Spreads {
            blank: anywhere(0, 1),
            other,
        }
    }
}

/// Of an atom; none where it may leave its line.
fn atom_spread(atom: &Atom, by: &By) -> Option<Spreads>
    ensures { (most : ℕ) → IfSome result (IsSpread by.now.sets.now by.now.ignore most (one atom.now)) }
{
    if is_plain(atom) {
        Some(plain_spread(atom, by))
    } else if is_lined_atom(atom) {
        Some(still(1))
    } else {
        None
    }
}

/// Of a node of which blanks aren't counted apart.
fn any_spread(most: u64, node: &Node, by: &By) -> Option<Spreads>
    ensures { IfSome result (IsSpread by.now.sets.now by.now.ignore most (bare node.now)) }
{
    let room = room_of(node)?;
    let other = anywhere(room.ways.at(most)?, room.cost.at(most)?);
    Some(Spreads {
        blank: other,
        other,
    })
}

/// Whether a count is of none or one.
fn is_optional(least: u32, turns: Option<u32>) -> bool
    ensures { IsTrue result → (least ≡ 0) × (turns ≡ Some 1) }
{
    match turns {
        Some(turns) => least == 0 && turns == 1,
        None => false,
    }
}

/// Of a node in a line of at most so many characters; none where it may leave its line, where it isn't counted,
/// and where a number is too large.
#[cycle(spreads)]
fn spread_of(most: u64, node: &Node, by: &By) -> Option<Spreads>
    ensures { IfSome result (IsSpread by.now.sets.now by.now.ignore most (bare node.now)) }
{
    match node {
        Node::Empty => Some(still(0)),
        Node::One(atom) => atom_spread(atom, by),
        Node::Seq(a, b) => {
            let first = spread_of(most, a, by)?;
            spread_behind(first, most, b, by)
        }
        Node::Or(a, b) => {
            let one = spread_of(most, a, by)?;
            spread_either(one, most, b, by)
        }
        Node::Group(a, _) => spread_of(most, a, by),
        Node::Repeat {
            part,
            least,
            most: turns,
            lazy: _,
        } => {
            if is_blank_part(part) {
                over_blanks(most)
            } else if is_optional(*least, *turns) {
                or_spreads(spread_of(most, part, by)?, still(0))
            } else {
                any_spread(most, node, by)
            }
        }
        _ => any_spread(most, node, by),
    }
}

/// Of a part and of a node behind it, piece by piece.
#[cycle(spreads)]
fn spread_behind(first: Spreads, most: u64, node: &Node, by: &By) -> Option<Spreads>
    ensures { IfSome result (λ r. (whole : Shape) → ((s : SpreadsOf) →
        IsSpread by.now.sets.now by.now.ignore most (bare node.now) s →
        IsSpread by.now.sets.now by.now.ignore most whole (then_spreads first s)) →
        IsSpread by.now.sets.now by.now.ignore most whole r) }
{
    let mut known = first;
    let mut rest = node;
    while let Node::Seq(a, b) = rest {
        known = then_spreads(known, spread_of(most, a, by)?)?;
        rest = b;
    }
    then_spreads(known, spread_of(most, rest, by)?)
}

/// Of one part or else a node, branch by branch.
#[cycle(spreads)]
fn spread_either(one: Spreads, most: u64, node: &Node, by: &By) -> Option<Spreads>
    ensures { IfSome result (λ r. (whole : Shape) → ((s : SpreadsOf) →
        IsSpread by.now.sets.now by.now.ignore most (bare node.now) s →
        IsSpread by.now.sets.now by.now.ignore most whole (or_spreads one s)) →
        IsSpread by.now.sets.now by.now.ignore most whole r) }
{
    let mut known = one;
    let mut rest = node;
    while let Node::Or(a, b) = rest {
        known = or_spreads(known, spread_of(most, a, by)?)?;
        rest = b;
    }
    or_spreads(known, spread_of(most, rest, by)?)
}

/// Of the pieces before that of a number, and then of the place at a line's end; none where the sequence ends
/// before it.
fn stopped_spread(most: u64, node: &Node, number: usize, by: &By) -> Option<Spreads>
    ensures { IfSome result (IsSpread by.now.sets.now by.now.ignore most (stopped (bare node.now) number)) }
{
    let mut known = still(0);
    let mut rest = node;
    let mut left = number;
    while left > 0 {
        let Node::Seq(a, b) = rest else {
            return None;
        };
        known = then_spreads(known, spread_of(most, a, by)?)?;
        left -= 1;
        rest = b;
    }
    then_spreads(known, still(1))
}

/// Whether these are within a budget in a line of at most so many characters.
fn is_cheap_stop(most: u64, budget: u64, node: &Node, number: usize, by: &By) -> bool
    ensures { IsTrue result →
        IsCheapPart by.now.sets.now by.now.ignore most (stopped (bare node.now) number) budget }
{
    match stopped_spread(most, node, number, by) {
        Some(s) => s.blank.cost <= budget && s.other.cost <= budget,
        None => false,
    }
}

/// How many characters a line may have so that these are within a budget: a length that is near to the greatest.
pub(crate) fn longest_stop(node: &Node, budget: u64, number: usize, by: &By) -> Option<u64>
    ensures { IfSome result (λ most.
        IsCheapPart by.now.sets.now by.now.ignore most (stopped (bare node.now) number) budget) }
{
    if !is_cheap_stop(0, budget, node, number, by) {
        return None;
    }
    let mut most: u64 = 0;
    let mut step = LONGEST_STEP;
    for _ in 0..STEPS {
        if let Some(more) = most.checked_add(step) {
            if is_cheap_stop(more, budget, node, number, by) {
                most = more;
            }
        }
        step /= 2;
    }
    Some(most)
}
