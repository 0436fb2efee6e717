//! How far the lines of a text looked, at most, and whether any of them looked at a line's number.
ghost use Rattle.std.specs.Prelude.{◌≡◌, ◌+◌, ◌<◌, ◌≤◌, ◌^◌, ℕ, pos, ◌+ℤ◌, ◌<ℤ◌, ◌≤ℤ◌, true};
ghost use Rattle.std.specs.List.{All};
ghost use Rattle.state_cache.specs.Reach.{IsWithin, LooksWithin};

use crate::edit::Patch;
use crate::kept::Kept;
use chunk_list::ChunkList;
use paint_reuse::Change;
use syn_base::{List, Looked};

/// The lines from `reach` and those that these notes' lines looked at, each counted from its line; a
/// number where one of them looked at one.
pub(crate) fn reach_of(notes: &List<Kept>, reach: Looked) -> Looked
    ensures grows { IsWithin reach result }
    ensures notes { All (LooksWithin result) notes.now }
{
    let mut all = reach;
    for note in notes.as_slice() {
        all = all.join(note.looked());
    }
    all
}

/// The same of all lines of a text.
pub(crate) fn reach_of_text(notes: &ChunkList<Kept>) -> Looked
    ensures { All (LooksWithin result) notes.now.0 }
{
    let mut all = Looked::one(0);
    for line in 0..notes.len() {
        all = all.join(notes.get(line).looked());
    }
    all
}

/// The same with the new notes of old lines.
pub(crate) fn reach_of_patches(patches: &List<Patch>, reach: Looked) -> Looked
    ensures grows { IsWithin reach result }
    ensures notes { All (λ p. LooksWithin result p.note) patches.now }
{
    let mut all = reach;
    for patch in patches.as_slice() {
        all = all.join(patch.note.looked());
    }
    all
}

/// The first line from which a line that looks at most as far ahead can have looked at line `a`:
/// each line before it looked at lines before `a` alone.
pub(crate) fn first_near(a: usize, reach: Looked) -> usize
    requires { a < 2 ^ 32 }
    ensures above { result ≤ a }
    ensures far { (j : ℕ) → j < result → (pos j +ℤ reach.high) <ℤ pos a }
{
    if reach.high < 0 {
        return a;
    }
    a.saturating_sub(reach.high as usize)
}

/// The first line from which on no line that looks at most so far can have looked at the change: at a
/// line before the old end of it, or at a number that isn't the line's own any more. Where lines
/// moved and a number was looked at, there is none.
pub(crate) fn first_behind(change: Change, reach: Looked) -> usize
    requires ordered { change.a ≤ change.b }
    requires end { change.b < 2 ^ 32 }
    ensures lines { (j : ℕ) → result ≤ j → j < 2 ^ 32 → pos change.b ≤ℤ (pos j +ℤ reach.low) }
    ensures numbers { (j : ℕ) → result ≤ j → j < 2 ^ 32 → reach.numbered ≡ true
        → change.a + change.count ≡ change.b }
{
    if reach.numbered && !change.keeps_count() {
        return usize::MAX;
    }
    if reach.low >= 0 {
        return change.b;
    }
    change.b.saturating_add(reach.low.unsigned_abs() as usize)
}
