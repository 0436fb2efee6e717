//! Screens: whether an attempt at a column can be passed over, seen from what stands there and
//! before it.
//!
//! Where no atom that could come first takes what stands at a column, all that an attempt does
//! there takes nothing, so what it reaches, and which lines it looks at, follow from the pattern's
//! shape. What is seen of a column is its key. There are few keys, each with a number, so what the
//! screen of a pattern says can be kept in a table.
#![tactic(auto)]

ghost use Rattle.pattern_screens.specs.Common.{FailBefore, FailBehind, FailHere, AreFirstSound, FitAsTold, AreSound};

mod atoms;
mod behind;
mod bounds;
mod failing;
mod first;
mod following;
mod futile;
mod key;
mod lined;
mod near_lines;
mod parts;
mod rest;
mod rooms;
mod still;

pub use atoms::part_has;
pub use behind::{begins_behind, longest_behind};
pub use bounds::failing_cost;
pub use failing::{fails, fails_at, fails_past_first};
pub use first::screen_cost;
pub use following::{fails_after, takes_first};
pub use futile::is_futile;
pub use key::{KEYS, Key, Last, Next, number_line};
pub use lined::is_spent;
pub use near_lines::{are_within, two_lines};
pub use rest::rest_fails;

/// Where the screen of a pattern says so, an attempt has no way, its cost is within the pattern's bound,
/// and it looks at exactly its line.
pub fn screens_are_sound()
    ensures { AreSound }
{}

/// Where none of the first atoms of a pattern fits, an attempt has no way, its cost is at most
/// their number, and it looks at its line alone.
pub fn first_screens_are_sound()
    ensures fit { FitAsTold }
    ensures sound { AreFirstSound }
{}

/// Where an attempt is known to fail within a budget, by what stands at its column, by what stands
/// one column behind or by what follows a look behind, it has no way, its cost is within the budget,
/// and it looks at exactly its line, or behind a look behind at it and the line before.
pub fn failures_are_sound()
    ensures here { FailHere }
    ensures before { FailBefore }
    ensures behind { FailBehind }
{}
