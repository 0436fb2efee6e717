//! The items of a pattern: what each run of its characters stands for, in its place.
//!
//! An item is first spelled: its characters and the level of magic say what it is. Then it is put
//! in its place: what stands before it, what follows it and the pattern's use say whether a caret
//! is the line start, which number a group has, or that the item is a fault. So whoever reads a
//! pattern goes from item to item and never looks at a character twice, but for collections.
#![tactic(auto)]

mod atom;
mod cause;
mod class_names;
mod codes;
mod collection;
mod item;
mod laws;
mod letters;
mod multis;
mod numbers;
mod place;
mod scan;
mod spelling;
mod vain;

pub use atom::{Atom, CharRanges, Compare, SetPart};
pub use cause::PatternCause;
pub use collection::collection_end;
pub use item::{Before, Behind, Kind, Level, Multi, PatternUse, Placed, Sign, Surroundings, Times};
pub use laws::{counts_are_read, levels_of_magic, line_numbers_are_read};
pub use place::next_item;
pub use scan::behind;
pub use vain::first_collection_end;
