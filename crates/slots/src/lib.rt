//! Entries by number, for what is remembered: an entry is found at once, and what isn't there takes no
//! dummy.
#![tactic(auto)]

mod grid;
mod marks;
mod slots;
mod table;

pub use grid::Grid;
pub use marks::Marks;
pub use slots::Slots;
pub use table::Table;
