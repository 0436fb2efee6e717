//! The commands of a syntax file as words.
//!
//! A file's logical lines are read from left to right, each by a reader that knows what is left of
//! its line. Each part of a command has a definition that says what it reads and what it leaves, or
//! why it is refused, and a function that answers just that. So a command's first faulty word is the
//! one that is told, and its missing parts come behind all its words.
#![tactic(auto)]

mod arguments;
mod boxed_quoted;
mod cause;
mod clusters;
mod file;
mod file_names;
mod first_words;
mod highlight;
pub mod laws;
mod lists;
mod names;
mod options;
mod pieces;
mod quoted;
mod refusal;
mod styles;
mod syntax;
mod what;

pub use boxed_quoted::BoxedQuoted;
pub use cause::Cause;
pub use file::commands;
pub use what::{
    Command, Commands, Field, Flag, ItemCommand, Named, NamedList, Piece, Quoted, Role, StylePart,
    What, WordFault,
};
