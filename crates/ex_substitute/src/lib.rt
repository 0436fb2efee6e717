//! Substitutions and deletions by pattern, read from their text and applied to a text:
//! `s/PATTERN/STRING/FLAGS`, `g/PATTERN/d` and `v/PATTERN/d` (`:s`, `:g`, `:v`).
//!
//! A string is read to a list of pieces once, and the matches are found on the text as it is before
//! anything is made. What is made is then a run of characters and breaks, cut into lines.
#![tactic(auto)]

mod apply;
mod attempt;
mod begins;
mod casing;
mod change;
mod command;
mod deleting;
mod error;
mod flags;
mod laws;
mod limits;
mod line_count;
mod pen;
mod refusal;
mod searching;
mod seconds;
mod string;
mod substituting;
mod trying;

pub use change::Change;
pub use command::ExCommand;
pub use error::ExError;
pub use laws::{others_are_left, replacements_are_in_order, whole_text_is_replaced};
