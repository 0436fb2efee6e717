//! Views of painted texts in which what is concealed is hidden, or one character stands for it.
//!
//! Painting shows groups, not items. So what conceals is to show marks: groups from 20,000 on, each
//! of one item, that stand for the old ones. Where a painting shows a mark, a character is concealed,
//! and the mark tells by which item.
#![tactic(auto)]

mod area_marks;
mod find_marks;
mod group_marks;
mod laws;
mod marked;
mod marked_clusters;
mod marked_items;
mod marked_lists;
mod marks;
mod seen_line;
mod sight;
mod view;
mod viewed;

pub use laws::{marked_paintings_are_the_old_ones, spans_are_the_longest_runs};
pub use marked::{Marked, mark};
pub use marks::Mark;
pub use view::conceal;
pub use viewed::Viewed;
