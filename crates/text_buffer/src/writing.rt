//! Lines to bytes, and lines to a second text.
ghost use Rattle.std.specs.Prelude.{◌≡◌, ◌+◌, ◌∷◌, ◌++◌, [], IfOk, OnOk, take, length};
ghost use Rattle.text_buffer.specs.BytesOfText.{bytes_of};

use crate::{LINE_BREAK, Line};
use byte_text::push_chars;
use chunk_list::ChunkList;
use std::alloc::Global;
use syn_base::{List, Memory};

/// The lines as bytes.
pub(super) fn write_lines(alloc: Global, lines: &ChunkList<Line>) -> Result<List<u8>, Memory>
    ensures { IfOk result (λ bytes. bytes ≡ bytes_of lines.now.0) }
{
    let mut bytes = Vec::new(alloc);
    for i in 0..lines.len() {
        write_line(&mut bytes, lines.get(i).as_slice())?;
    }
    Ok(List::from_vec(bytes))
}

fn write_line(bytes: &mut Vec<u8>, line: &[char]) -> Result<(), Memory>
    ensures { OnOk result (bytes.new.items ≡ bytes.old.items ++ bytes_of (line.now ∷ [])) }
{
    push_chars(bytes, line)?;
    bytes.push(LINE_BREAK)?;
    Ok(())
}

/// The same lines once more.
pub(super) fn copy_lines(alloc: Global, lines: &ChunkList<Line>) -> Result<ChunkList<Line>, Memory>
    ensures { IfOk result (λ copy. copy.0 ≡ lines.now.0) }
{
    let mut copy = List::new(alloc);
    for i in 0..lines.len() {
        copy.push(List::from_slice(alloc, lines.get(i).as_slice())?)?;
    }
    ChunkList::from_list(alloc, copy)
}
