//! The logical lines of a syntax file.
//!
//! A physical line whose first character past blanks is a backslash continues the line before
//! (`line-continuation`). So the lines are gone through once: each one starts a line, lengthens the
//! line that was started last, or is a remark between such lines.
#![tactic(auto)]

mod joined;
mod line;
mod reading;

pub use line::{LogicalLine, LogicalLines};
pub use reading::logical_lines;
