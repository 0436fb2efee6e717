//! What is left of one line of a syntax file, and what can be taken from it: runs of characters,
//! blanks, a pattern up to its delimiter, and its offsets.
//!
//! A reader knows whether a search for a closing bracket was in vain before. Then none is made
//! again in that line, so a line is read in time linear in its length.
#![tactic(auto)]

mod delimited;
mod offsets;
mod reader;
mod words;

pub use delimited::can_delimit;
pub use offsets::Adjusts;
pub use reader::Reader;
pub use words::{
    Until, abbreviates, begins, behind_first, is_over, is_word, is_word_in_any_case, past, run,
    strip,
};
