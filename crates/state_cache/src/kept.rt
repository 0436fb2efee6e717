//! What is kept of a painted line.
ghost use Rattle.std.specs.Prelude.{◌≡◌, ℕ, IfOk};
ghost use Rattle.paint_rules.specs.States.{StateFits, next_line};
ghost use Rattle.state_cache.specs.Notes.{kept_note};
ghost use Rattle.state_stack.specs.TopFirst.{top_first};

use line_paint::LineNote;
use state_stack::State;
use std::alloc::Global;
use std::marker::Model;
use syn_base::{List, Looked, Memory, Span};

/// The note of a painted line. Contracts see its states as the rules do.
#[derive(Drop)]
pub(crate) struct Kept {
    note: LineNote,
}

impl Model for Kept {
    ghost use Rattle.paint_reuse.specs.Kept.{KeptNote};
    ghost use Rattle.state_cache.specs.Notes.{kept_note};

    ghost Value = { KeptNote };

    ghost view = { λ k. kept_note k.note };
}

impl Kept {
    pub(crate) fn new(note: LineNote) -> Kept
        ensures { result ≡ kept_note note }
    {
        Kept { note }
    }

    /// An equal note.
    pub(crate) fn copy(&self, alloc: Global) -> Result<Kept, Memory>
        ensures { IfOk result (λ note. note ≡ self.now) }
    {
        let note = &self.note;
        Ok(Kept {
            note: LineNote {
                before: note.before.copy()?,
                spans: List::from_slice(alloc, note.spans.as_slice())?,
                after: note.after.copy()?,
                looked: note.looked,
            },
        })
    }

    pub(crate) fn note(&self) -> &LineNote
        ensures { kept_note result.now ≡ self.now }
    {
        &self.note
    }

    /// The state before the line.
    pub(crate) fn state_before(&self) -> &State
        ensures { top_first result.now ≡ self.now.before }
    {
        &self.note.before
    }

    pub(crate) fn spans(&self) -> &[Span]
        ensures { result.now ≡ self.now.spans }
    {
        self.note.spans.as_slice()
    }

    /// The lines that its painting looked at, counted from it.
    pub(crate) fn looked(&self) -> Looked
        ensures { result ≡ self.now.looked }
    {
        self.note.looked
    }

    /// The state before the line that follows.
    pub(crate) fn next(&self, alloc: Global) -> Result<State, Memory>
        ensures next { IfOk result (λ s. top_first s ≡ next_line self.now.after) }
        ensures fits { IfOk result (λ s. (n : ℕ) → StateFits n self.now.after
            → StateFits n (top_first s)) }
    {
        self.note.after.to_next_line(alloc)
    }
}
