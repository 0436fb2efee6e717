//! What an edit made is put in its place. None of it takes memory.
ghost use Rattle.std.specs.Prelude.{◌≡◌, ◌<◌, ◌≤◌, ◌^◌, length, OnOk};
ghost use Rattle.paint_reuse.specs.Work.{put_in};
ghost use Rattle.state_cache.specs.Edits.{patched};
ghost use Rattle.text_buffer.specs.TextOfBytes.{most_lines};
ghost use Rattle.text_buffer.specs.TextSeen.{replaced};

use crate::edit::Patch;
use crate::kept::Kept;
use chunk_list::ChunkList;
use syn_base::{List, Memory};
use text_buffer::{Line, Text};

/// Makes room for some lines and their notes.
pub(crate) fn make_room(
    text: &mut Text,
    notes: &mut ChunkList<Kept>,
    extra: usize,
) -> Result<(), Memory>
    ensures lines { text.new.lines ≡ text.old.lines }
    ensures notes { notes.new.0 ≡ notes.old.0 }
    ensures spare { OnOk result (extra ≤ text.new.spare) }
    ensures room { OnOk result (extra ≤ notes.new.1) }
{
    text.reserve_lines(extra)?;
    notes.reserve(extra)?;
    Ok(())
}

/// Puts new notes of old lines in their places.
fn put_patches(notes: &mut ChunkList<Kept>, patches: List<Patch>)
    ensures notes { notes.new.0 ≡ patched notes.old.0 patches }
    ensures spare { notes.new.1 ≡ notes.old.1 }
{
    for patch in patches.into_vec() {
        if patch.line < notes.len() {
            notes.set(patch.line, patch.note);
        }
    }
}

/// Puts new notes of old lines in their places, and the new lines with theirs into the text. The
/// room was made before.
pub(crate) fn commit(
    text: &mut Text,
    notes: &mut ChunkList<Kept>,
    a: usize,
    b: usize,
    new: List<Line>,
    patches: List<Patch>,
    fresh: List<Kept>,
)
    requires ordered { a ≤ b }
    requires inside { b ≤ length text.old.lines }
    requires full { length notes.old.0 ≡ length text.old.lines }
    requires count { length fresh ≡ length new }
    requires spare { length new ≤ text.old.spare }
    requires room { length fresh ≤ notes.old.1 }
    requires some { 0 < length (replaced text.old.lines a b new) }
    requires few { length (replaced text.old.lines a b new) ≤ most_lines }
    ensures lines { text.new.lines ≡ replaced text.old.lines a b new }
    ensures notes { notes.new.0 ≡ put_in (patched notes.old.0 patches) a b fresh }
{
    put_patches(notes, patches);
    notes.replace_reserved(a, b, fresh);
    text.replace_reserved(a, b, new);
}
