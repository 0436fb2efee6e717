//! Syntax files are read to a syntax.
//!
//! The commands of a file are carried out one after the other on what those before them have made.
//! Each command first looks at what its words hold: patterns, keywords, patterns of names. Only then
//! it makes groups, clusters and items. So its first fault is told whatever it would make, and the
//! code of each command is its definition, step by step.
#![tactic(auto)]

mod abbreviation;
mod boxed_pattern;
mod clusters;
mod contents;
mod draft;
mod entries;
mod files;
mod highlight;
mod includes;
mod laws;
mod lists;
mod names;
mod names_pattern;
mod patterns;
mod read_list;
mod reading;
mod refusal;
mod syntax;
mod syntax_of;

pub use files::MOST_SYNTAX_BYTES;
pub use laws::read_syntaxes_name_no_marks;
pub use syntax::{ReadError, ReadOptions, Syntax};
pub use syntax_of::read_syntax;
