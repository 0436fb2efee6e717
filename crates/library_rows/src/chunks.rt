//! Calls of `chunk_list`.
//!
//!     chunks TEXT 1    the characters of a list, with room for more, of which that at this place, from 0, has
//!                      become a star

ghost use Rattle.std.specs.Prelude.{◌<◌, ◌≤◌, ◌^◌, length};

use crate::fault::{Fault, number_of};
use chunk_list::ChunkList;
use std::alloc::Global;
use syn_base::List;

/// How many characters there are at most, and for how many more room is made.
const MOST: usize = 1000;

pub(crate) fn starred(alloc: Global, arguments: &[&str], answer: &mut String) -> Result<(), Fault> {
    let [text, at] = arguments else {
        return Err(Fault::BadCase);
    };
    let at = number_of(at)?;
    let characters = List::from_chars(alloc, text)?;
    if at >= characters.len() || characters.len() > MOST {
        return Err(Fault::BadCase);
    }
    let mut chunks = ChunkList::from_list(alloc, characters)?;
    chunks.reserve(MOST)?;
    chunks.set(at, '*');
    write_chunks(answer, &chunks)
}

/// Writes the characters of a list.
fn write_chunks(answer: &mut String, chunks: &ChunkList<char>) -> Result<(), Fault> {
    for i in 0..chunks.len() {
        answer.push(*chunks.get(i))?;
    }
    Ok(())
}
