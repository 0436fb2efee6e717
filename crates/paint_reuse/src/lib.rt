//! Which lines of a changed text keep the painting that they had, and what is told of the change.
//!
//! A text is changed by one replacement of lines. A line of the changed text that the old one had
//! is reusable where nothing that its painting looked at was replaced, it has its old number if that
//! painting looked at it, and the same state stands before it again: it is painted as before, wherever
//! it stands now. All other lines that the new painting reaches are the lines to paint. The
//! definitions compute, over the rules of painting alone; what a painter keeps of a line is its
//! note, counted from the line itself, so that the note of a reusable line is the very same value.
#![tactic(auto)]

mod change;
mod laws;

pub use change::Change;
pub use laws::{
    equal_states_are_the_same, four_conditions_make_a_line_reusable, kept_notes_are_the_painting,
    reports_tell_what_changed, reusable_lines_keep_their_painting,
};
