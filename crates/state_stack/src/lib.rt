//! The state of the painter: a stack of frames that shares its tails, and the item whose
//! `nextgroup` waits.
//!
//! Each place in a state is a `Spot`, counted from the line that is being painted. So equal states
//! before two lines are equal values, wherever the lines stand. A frame all of whose spots are
//! `Past` is the same before every further line, so the step to the next line shares the longest
//! bottom part of such frames and remakes only what stands above it.
#![tactic(auto)]

mod enders;
mod frame;
mod kinds;
mod stack;
mod state;

pub use enders::Enders;
pub use frame::Frame;
pub use kinds::{Kind, Kinds};
pub use paint_rules::{Part, Spot, Waiting};
pub use stack::{MOST_FRAMES, Stack, StackError};
pub use state::State;
