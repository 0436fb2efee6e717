//! In how long lines an attempt is sure to be within a budget.
ghost use Rattle.std.specs.Prelude.{◌≡◌, ◌≤◌, ℕ, IfSome, IsTrue, true};
ghost use Rattle.pattern_needs.specs.Fronts.{front_tree};
ghost use Rattle.pattern_needs.specs.Growths.{grown, once};
ghost use Rattle.pattern_needs.specs.LineCosts.{is_cheap_in};

use crate::growth::Growth;
use crate::rooms::front_room;
use vim_pattern::Tree;

/// Longer lines than of twice as many characters aren't tried for.
pub(crate) const LONGEST_STEP: u64 = 1 << 32;

/// How many steps there are, each half as long as the one before.
pub(crate) const STEPS: u32 = 33;

/// Whether a cost is within a budget where so many characters are left.
fn is_within(cost: &Growth, most: u64, budget: u64) -> bool
    ensures { IsTrue result → grown cost.now.by once most ≤ budget }
{
    match cost.at(most) {
        Some(ticks) => ticks <= budget,
        None => false,
    }
}

/// How many characters may be left so that a cost is within a budget: a number that is near to the greatest.
fn longest_within(cost: &Growth, budget: u64) -> Option<u64>
    ensures { IfSome result (λ most. grown cost.now.by once most ≤ budget) }
{
    if !is_within(cost, 0, budget) {
        return None;
    }
    let mut most: u64 = 0;
    let mut step = LONGEST_STEP;
    for _ in 0..STEPS {
        if let Some(more) = most.checked_add(step) {
            if is_within(cost, more, budget) {
                most = more;
            }
        }
        step /= 2;
    }
    Some(most)
}

/// How many characters a line may have so that an attempt in it stays in it and costs no more than a
/// budget, in ticks: a length that is near to the greatest. None where the pattern may leave its line,
/// isn't counted, or costs more even in an empty line.
pub fn longest_cheap(tree: &Tree, budget: u64) -> Option<u64>
    ensures { IfSome result (λ most. is_cheap_in most budget tree.now ≡ true) }
{
    longest_front(tree, budget, None)
}

/// The same of an attempt by the first pieces of a pattern, up to that of a number.
pub(crate) fn longest_front(tree: &Tree, budget: u64, upto: Option<usize>) -> Option<u64>
    ensures { IfSome result (λ most. is_cheap_in most budget (front_tree upto tree.now) ≡ true) }
{
    let room = front_room(&tree.node, upto)?;
    longest_within(&room.cost, budget)
}
