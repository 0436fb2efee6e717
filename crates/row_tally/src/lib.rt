//! The count of a run over stored rows: a row tells what it gives, and what gives something else is
//! told.
//!
//! A program's input is made of cases, each with its answer beside it, and of remarks, which begin
//! with `#`. The program answers each case anew. Where all is as told it prints one line, `57
//! cases, all as told`. Each case that differs is told before that line, which then is `1 of 57
//! cases differ`, and the program fails:
//!
//!     line 12, # remark above it
//!       told: what stands in the input
//!       came: what was answered
#![tactic(auto)]

mod lines;
mod tally;

pub use lines::{Answering, check_lines};
pub use tally::{Place, Tally};
