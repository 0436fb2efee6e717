//! An edit, and what it makes before it is put in its place.

use crate::brush::Brush;
use crate::change::Changed;
use crate::kept::Kept;
use chunk_list::ChunkList;
use syn_base::{List, Looked};

/// A change of a painted text: the changed text, and the notes of the old one, none of whose lines
/// looked further than `reach` tells, or at a number where it tells of none.
#[derive(Drop)]
pub(crate) struct Edit<'a> {
    pub(crate) brush: Brush<'a>,
    pub(crate) changed: Changed<'a>,
    pub(crate) notes: &'a ChunkList<Kept>,
    pub(crate) reach: Looked,
}

/// A line of the old text, and its new note.
#[derive(Drop)]
pub(crate) struct Patch {
    pub(crate) line: usize,
    pub(crate) note: Kept,
}

/// What was painted of the old lines so far, and what is told.
#[derive(Drop)]
pub(crate) struct Done {
    pub(crate) patches: List<Patch>,
    pub(crate) report: List<usize>,
}

/// What an edit makes before it is put in its place.
#[derive(Drop)]
pub(crate) struct Made {
    pub(crate) patches: List<Patch>,
    pub(crate) fresh: List<Kept>,
    pub(crate) report: List<usize>,
    /// No line of the changed text looked further, nor at a number if this didn't.
    pub(crate) reach: Looked,
}

/// Old lines `from` to `to - 1`, which are lines of the changed text from `first` on.
#[derive(Clone, Copy)]
pub(crate) struct Stretch {
    pub(crate) from: usize,
    pub(crate) to: usize,
    pub(crate) first: usize,
}
