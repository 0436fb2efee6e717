//! The words of the program: what they ask, if they are in the table of words.
//!
//! Words are a command, its options, perhaps the word `--`, and its names. Options and names are looked
//! at where they stand, so no memory is taken.
#![tactic(auto)]

mod options;
mod words;

pub use words::{Asked, CheckWords, FoldWords, LargeWords, PageWords, PaintWords, Printing};
