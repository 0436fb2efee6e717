//! What the program prints of faults: the causes for which a syntax file is refused, files that can't be
//! had, the causes against commands by pattern, and beside them the counts that `check` prints.
//!
//! Lines of syntax files are counted from 1 in the program too, so they are printed as they are. Names
//! are characters and are printed as UTF-8. Each text is appended to one buffer, so it costs what it
//! writes.
#![tactic(auto)]

mod cause;
mod counts;
mod ex_cause;
mod lines;
mod place;

pub use counts::counts_text;
pub use ex_cause::ex_cause_text;
pub use lines::{FileFault, file_fault_text, refused_text};
pub use place::push_place;
