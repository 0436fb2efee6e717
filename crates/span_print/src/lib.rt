//! Spans, heads of commands and refusals as bytes.
//!
//! Lines and columns are counted from 0 in the program and printed from 1. Each text is appended to
//! one buffer, so it costs what it writes.
#![tactic(auto)]

mod spans;

pub use command_print::{head_text, refusal_text};
pub use spans::{push_span_text, span_text};
