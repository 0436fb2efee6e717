//! What a line must hold: a screen for whole lines.
//!
//! Of some patterns it is known that each of their ways takes a character of certain atoms. In a line
//! that has none of these characters from a column on, each attempt from there on is in vain. Such a
//! line is passed over at once, and not column by column.
#![tactic(auto)]

ghost use Rattle.pattern_needs.specs.NeedsLaw.{AreNeedsSound};

mod asked;
mod atoms;
mod by;
mod characters;
mod ending;
mod growth;
mod held;
mod line_need;
mod longest;
mod needs;
mod nonblanks;
mod one_of;
mod piece;
mod room;
mod rooms;
mod spread;
mod spreading;
mod taken;

pub use held::Held;
pub use line_need::LineNeed;
pub use longest::longest_cheap;
pub use needs::Needs;

/// Where a line lacks from a column on what a pattern needs, an attempt at that column, or at one
/// behind it, has no way, its cost is within the budget, and it looks at its line alone.
pub fn needs_are_sound()
    ensures { AreNeedsSound }
{}
