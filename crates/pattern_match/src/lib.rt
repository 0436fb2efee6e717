//! The matcher: the first way of a pattern at a place, by the rules of `match_rules`.
//!
//! A pattern is made ready once: its nodes are copied, and each collection gets a table of its
//! characters below 256. An attempt then walks over the nodes with two lists: what is still to be done
//! on the present way, and the ways that are still to be followed. The ticks and ways that these stand
//! for, joined, are always the rest of what the rules list.
#![tactic(auto)]

mod answer;
mod atoms;
mod behind;
mod beyond;
mod bounds;
mod cases;
mod collection;
mod context;
mod fate;
mod found;
mod glance;
mod look;
mod made;
mod others;
mod parts;
mod programs;
mod ready;
mod runs;
mod screens;
mod search;
mod sight;
mod spent;
mod standing;
mod step;
mod tables;
mod task;
mod tick;
mod to_end;
mod told;
mod turns;
mod vain;
mod walks;
mod ways;
mod words;

pub use answer::{Attempt, Caps, Match};
pub use context::Context;
pub use programs::{Programs, Scratch, answers_stay_on_the_text};
