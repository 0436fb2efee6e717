//! A session of edits: a script is read from a source, and each of its commands is carried out on a
//! painted text as soon as its last byte was read.
//!
//! What a session writes is a function of the text, the script and the files in which further
//! syntaxes lie: the fold of its commands, each over the text as it is then and by the syntax then
//! in force. The text is painted anew whenever one of them changes. How it is painted and printed,
//! how many lines that paints, and what a command by pattern comes to, is the painter's; which
//! painter a name stands for is the library's. Both are behind a trait, so the session knows nothing
//! of syntaxes and patterns nor of what is kept.
#![tactic(auto)]

mod causes;
mod changes;
mod commands;
mod document;
pub mod laws;
mod patterns;
mod pieces;
mod reading;
mod script_bytes;

pub use changes::{Replacement, Substituted};
pub use document::{Document, Unedited, Untaken};
pub use reading::{End, carry_out_script};
