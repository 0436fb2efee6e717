//! Patterns: a pattern's text is read to its one tree, or to its first fault.
//!
//! The grammar is a relation between the items of a text and a tree (`pattern_items` says what the
//! items are). A fault belongs to the first item that no tree can go on with. The reader keeps the
//! open groups on a list of its own, innermost last, and takes one item after the other, so it goes
//! through a text once and never calls itself.
#![tactic(auto)]

mod build;
mod copy;
mod error;
mod laws;
mod node;
mod notes;
mod parted;
mod read;
mod tree;

pub use error::PatternError;
pub use laws::{
    at_most_one_fault, at_most_one_tree, numbers_are_small, reading_is_the_grammar,
    tree_and_fault_exclude, tree_or_fault,
};
pub use node::Node;
pub use parted::{Pair, Parted, Wrap};
pub use pattern_items::{
    Atom, Behind, CharRanges, Compare, PatternCause, PatternUse, SetPart, collection_end,
};
pub use read::read_pattern;
pub use tree::Tree;
