//! Painting a line: from the state before it to its spans and the state after it.
//!
//! At each column all that ends there closes, and then what starts there starts, and again, until
//! nothing starts. Each step takes the lines that were looked at so far and hands on more of them,
//! and what it leads to is what the rule leads to after these looks. A frame that must search its
//! end anew is made anew, and only the frames above it with it; all others stay shared.
#![tactic(auto)]

mod answers;
mod at_hand;
mod closing;
mod ends;
mod frames;
mod kinds;
mod line_start;
mod new_frames;
mod paint;
mod painting;
mod shown;
mod site;
mod spans;
mod spots;
mod standing;
mod starting;
mod staying;

use answers::Stop;
pub use paint::{LineNote, PaintError};
pub use painting::{paint_line, paint_line_with};
use site::Site;
