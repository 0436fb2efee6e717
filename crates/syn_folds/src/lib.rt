//! Folds by syntax: the levels of lines, the folds that they make, and the rows that are seen.
//!
//! The level of a line counts what is open before or after it of the items with `fold`
//! (`:syn-fold`). A fold is a longest stretch of lines that reach a level; in the view at a level
//! each longest stretch above it is one row. Both go by the levels alone, in one pass over them.
#![tactic(auto)]

mod laws;
mod levels;
mod rows;
mod stretches;

pub use laws::{folds_are_the_longest_stretches, rows_cover_the_lines};
pub use levels::line_level;
pub use rows::{Row, view};
pub use stretches::{Fold, folds};
