//! Why a command isn't read, or changes nothing.

use syn_base::Place;
use vim_pattern::PatternCause;

/// Why a command isn't read, or changes nothing.
#[derive(Drop)]
pub enum ExError {
    EmptyPattern,
    /// The pattern has no tree: the place of the offending character in it, from 0, and the cause.
    Pattern { at: usize, cause: PatternCause },
    /// A pair or a tilde without a meaning (`sub-replace-special`): its place in the string, from 0.
    BadReplacement { at: usize },
    /// Also where no slash ends the pattern, or something else than `d` stands behind it (`:g`).
    BadFlags,
    /// The attempt at this place of the text, from 0, costs more ticks than the budget.
    TooCostly(Place),
    NoMatch,
    /// The changed text would have more than 2,000,000 lines.
    TooManyLines,
    /// A changed line would have more than 1,000,000 characters.
    LongLine,
    Memory,
}
