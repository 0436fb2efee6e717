//! Where regions end: the places that offsets name, the kept end of a frame, and the search for the
//! end of a region in a line.
//!
//! A search goes from column to column. What it answers is what the rule says, after the lines that
//! were looked at so far: so each step takes these lines and hands on more of them, and the steps
//! join without regard to how many there are.
#![tactic(auto)]

mod end_memo;
mod keeping;
mod key_answers;
mod matching;
mod offsets;
mod opening;
mod passing;
mod searching;
mod skips;

pub use end_memo::EndMemo;
pub use keeping::{earlier_end, is_before, item_of, kept_end, kept_end_over};
pub use key_answers::KeyAnswers;
pub use matching::Matcher;
pub use offsets::{earlier_place, later_place, moved_column, offset_place};
pub use paint_rules::{RegionEnd, Which};
pub use searching::{EndAnswer, Searching, find_end};
