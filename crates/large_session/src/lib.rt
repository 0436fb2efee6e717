//! The large mode: a text that a seed gives, and edits on it that the same seed goes on to draw.
//!
//! It is for measuring: the same words give the same text and the same edits everywhere, as many
//! lines as wanted. What is told at the end are counts, which are a function of the seed, the
//! number of lines and the painter.
#![tactic(auto)]

mod document;
mod draws;
mod edits;
mod generated;
pub mod laws;
mod mini;
mod session;

pub use document::LargeDocument;
pub use draws::Draws;
pub use generated::generated_bytes;
pub use mini::mini_syntax;
pub use session::{Outcome, carry_out_edits};
