//! Scripts of line edits: bytes to commands, and what a command does to a text.
//!
//! A script comes in pieces of any size. What was read of it is seen as a number of lines, which
//! are done with, and the bytes behind them; so what the pieces give together depends on the bytes
//! alone. The lines of a text are decoded when its dot comes.
#![tactic(auto)]

mod addresses;
mod commands;
mod draft;
mod head;
mod reader;
mod resolving;
mod script;

pub use commands::{EditCommand, Entry, Last, ResolveError, Resolved, ScriptFault, Verb};
pub use head::is_by_pattern;
pub use resolving::resolve;
pub use script::Script;
