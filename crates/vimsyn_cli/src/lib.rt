//! The run of the program, as one call over files, a script and two sinks.
//!
//! What a run is to write, and its status, are a function of its words and files: the session,
//! which reads the syntax and paints the whole text anew. `run` is proved against it, and says the
//! cause of each of its answers. A command comes to the bytes that it prints, or to the line of a
//! fault and its cause; one call delivers either.
#![tactic(auto)]

mod check;
mod concealing;
mod deliver;
mod edit;
mod fault;
mod file_fault;
mod folds;
mod html;
mod kept_files;
mod large;
pub mod laws;
mod painting;
mod picture;
mod print;
mod reading;
mod refusal;
mod renewal;
mod session;
mod sheet;
mod spans;
mod status;
mod substituting;
mod text_file;

pub use session::run;
pub use status::Status;
