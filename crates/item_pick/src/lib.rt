//! What starts at a place: a keyword, a match or a region.
//!
//! Each step is handed the lines looked at so far and adds its own, and stops at the first attempt
//! that costs too much. So a step's contract is one equation: what the rule says after these looks.
#![tactic(auto)]

mod allowed;
mod answer;
mod asked;
mod asking;
mod cheap;
mod choice;
mod columns;
mod dear;
mod ends;
mod firsts;
mod line_known;
mod memory;
mod missed;
mod needs;
mod open;
mod parts;
mod picking;
mod quiet;
mod rows;
mod runs;
mod settled;
mod starting;
mod starts;
mod stop;
mod tables;
mod tried;
mod tries;
mod wandering;
mod wordless;
mod words;

pub use asked::Asked;
pub use asking::pick;
pub use memory::PickMemory;
pub use parts::Parts;
pub use picking::Query;
pub use starting::{Picked, Starting};
