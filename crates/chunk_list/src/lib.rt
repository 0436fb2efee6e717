//! A list in chunks of up to 512 elements, which a replacement changes at its ends alone.
//!
//! A replacement takes elements out of the chunks in which they stand, and puts new ones into chunks
//! that were made before. All other chunks stay as they are, so a change of a long list costs the
//! chunks that it meets and one number for each further one.
#![tactic(auto)]

mod chunk;
mod chunks;
mod ends;
mod list;
mod moves;

pub use list::ChunkList;
