//! Keywords: where a word of a line ends, which items a word may start, and the words that an
//! abbreviated keyword stands for.
//!
//! A definition is found by its word, or by the folded word where it ignores case. Each one knows
//! the definition before it that is found alike, and a table knows the last one: so the candidates
//! of a word are a walk from the last definition back, and cost their number.
#![tactic(auto)]

mod abbreviation;
mod entry;
mod errors;
mod last_table;
mod table;
mod words;

pub use abbreviation::expand;
pub use errors::{ExpandError, KeywordError};
pub use table::{Definition, Keywords, MOST_WORD_CHARS};
pub use words::word_end;
