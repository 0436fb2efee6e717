//! Columns at which an attempt is known to fail, and to cost no more than a budget.
ghost use Rattle.std.specs.Prelude.{◌≡◌, ◌<◌, ℕ, IsTrue, true, false, nat_lt, not};
ghost use Rattle.pattern_screens.specs.Common.{fails, fails_at, FailsPastFirst, failing_cost, is_first, is_futile, key_numbered};

use crate::bounds::failing_cost;
use crate::futile::is_futile;
use crate::key::{KEYS, Key, is_first};
use char_class::Sets;
use vim_pattern::Tree;

/// Whether an attempt at a column with this key is known to have no way, to look at its line alone
/// and to cost no more than a budget, in ticks. `ignore` says that case is ignored unless the
/// pattern says otherwise.
pub fn fails(tree: &Tree, sets: &Sets, ignore: bool, key: Key, budget: u64) -> bool
    ensures { IsTrue result → fails sets.now budget ignore key tree.now ≡ true }
{
    is_futile(tree, sets, ignore, key) && is_cheap(tree, budget)
}

/// Whether an attempt of which the screen fails costs no more than a budget.
fn is_cheap(tree: &Tree, budget: u64) -> bool
    ensures { IsTrue result → not (nat_lt budget (failing_cost tree.now)) ≡ true }
{
    match failing_cost(tree) {
        Some(cost) => cost <= budget,
        None => false,
    }
}

/// The same at a column whose key has this number. By a number that no key has nothing is known.
pub fn fails_at(tree: &Tree, sets: &Sets, ignore: bool, number: u16, budget: u64) -> bool
    ensures { IsTrue result → fails_at sets.now budget ignore number tree.now ≡ true }
{
    number < KEYS && fails(tree, sets, ignore, Key::numbered(number), budget)
}

/// Whether the screen fails by the key of a number, unless that is of a line's first column.
fn is_futile_unless_first(tree: &Tree, sets: &Sets, ignore: bool, number: u16) -> bool
    requires { number < 777 }
    ensures { IsTrue result → is_first (key_numbered number).last ≡ false →
        is_futile sets.now ignore (key_numbered number) tree.now ≡ true }
{
    let key = Key::numbered(number);
    is_first(key.last) || is_futile(tree, sets, ignore, key)
}

/// Whether an attempt is known to fail at each column but a line's first one, whatever stands there.
pub fn fails_past_first(tree: &Tree, sets: &Sets, ignore: bool, budget: u64) -> bool
    ensures { IsTrue result → FailsPastFirst sets.now budget ignore tree.now }
{
    if !is_cheap(tree, budget) {
        return false;
    }
    for number in 0..KEYS {
        if !is_futile_unless_first(tree, sets, ignore, number) {
            return false;
        }
    }
    true
}
