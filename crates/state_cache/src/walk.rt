//! The painting of all lines of a text, from the first one on.
ghost use Rattle.std.specs.Prelude.{◌≡◌, ◌≤◌, ◌<◌, ◌+◌, ◌-◌, ◌∷◌, ◌++◌, ◌^◌, ℕ, [], length, IfOk, IfErr, IfSome, OnOk, Ok};
ghost use Rattle.std.specs.List.{All};
ghost use Rattle.item_pick.specs.Tables.{TablesStand};
ghost use Rattle.paint_reuse.specs.Kept.{line_note, text_notes};
ghost use Rattle.paint_reuse.specs.Work.{WalksOn};
ghost use Rattle.paint_rules.specs.Rules.{Rules};
ghost use Rattle.paint_rules.specs.States.{next_line};
ghost use Rattle.paint_shift.specs.Elsewhere.{ArePaintedAlike};
ghost use Rattle.state_cache.specs.Brushes.{items_by, rules_by};
ghost use Rattle.state_cache.specs.Notes.{NoteFits};
ghost use Rattle.state_cache.specs.Refusals.{RefusesAs, RefusesLine};
ghost use Rattle.state_cache.specs.Walk.{IsNext, Stands};
ghost use Rattle.state_stack.specs.TopFirst.{top_first};

use crate::EditError;
use crate::brush::Brush;
use crate::kept::Kept;
use crate::repeat::{LastLines, stands_also};
use chunk_list::ChunkList;
use item_pick::PickMemory;
use state_stack::State;
use std::alloc::Global;
use syn_base::{Ledger, Lines, Memory, Steps};

/// The notes of the lines so far, the state before the line that follows them, and where an equal
/// line may stand.
#[derive(Drop)]
pub(crate) struct Walk {
    notes: ChunkList<Kept>,
    state: State,
    last: LastLines,
}

/// The notes of all lines of a text.
pub(crate) fn paint_all<T: Lines, L: Ledger>(
    brush: &Brush<'_>,
    text: &T,
    memory: &mut PickMemory,
    steps: &mut Steps<L>,
) -> Result<ChunkList<Kept>, EditError>
    requires budget { 1 ≤ brush.now.budget }
    requires memory { TablesStand (rules_by brush.now) memory.old }
    ensures notes { IfOk result (λ notes.
        text_notes (rules_by brush.now) (T.lines text.now) ≡ Ok notes.0) }
    ensures fits { IfOk result (λ notes. All (NoteFits (items_by brush.now)) notes.0) }
    ensures count { IfOk result (λ notes. length notes.0 ≡ length (T.lines text.now)) }
    ensures refused { IfErr result (RefusesAs (text_notes (rules_by brush.now) (T.lines text.now))) }
    ensures memory { TablesStand (rules_by brush.now) memory.new }
    ensures steps { steps.new ≤ steps.old + length (T.lines text.now) }
{
    let mut walk = Walk {
        notes: ChunkList::new(brush.alloc),
        state: State::new(),
        last: LastLines::new(brush.alloc, text.len())?,
    };
    for line in 0..text.len() {
        walk.paint(brush, text, line, memory, steps)?;
    }
    Ok(walk.notes)
}

impl Walk {
    /// The note of an earlier line, if the line that follows repeats it: it has the same characters,
    /// the same state stands before it, and so does all that the earlier one looked at.
    fn repeated<T: Lines>(&self, text: &T, line: usize, earlier: Option<usize>) -> Option<&Kept>
        requires present { line < length (T.lines text.now) }
        ensures noted { IfSome result (λ note. (r : Rules) → ArePaintedAlike r →
            WalksOn r (T.lines text.now) line self.now.notes.0 (top_first self.now.state) →
            line_note r (T.lines text.now) line (top_first self.now.state) ≡ Ok note.now) }
        ensures fits { IfSome result (λ note. (n : ℕ) → All (NoteFits n) self.now.notes.0 →
            NoteFits n note.now) }
    {
        let earlier = earlier?;
        if earlier >= line {
            return None;
        }
        if earlier >= self.notes.len() {
            return None;
        }
        let note = self.notes.get(earlier);
        if stands_also(text, earlier, line, note.looked())
            && note.state_before().same(&self.state)
        {
            Some(note)
        } else {
            None
        }
    }

    /// The note of the line that follows. It is painted if it repeats no line.
    fn note<T: Lines, L: Ledger>(
        &self,
        brush: &Brush<'_>,
        text: &T,
        line: usize,
        earlier: Option<usize>,
        memory: &mut PickMemory,
        steps: &mut Steps<L>,
    ) -> Result<Kept, EditError>
        requires budget { 1 ≤ brush.now.budget }
        requires present { line < length (T.lines text.now) }
        requires stands { Stands (items_by brush.now) self.now }
        requires walks { WalksOn (rules_by brush.now) (T.lines text.now) line self.now.notes.0
            (top_first self.now.state) }
        requires memory { TablesStand (rules_by brush.now) memory.old }
        ensures noted { IfOk result (λ note.
            line_note (rules_by brush.now) (T.lines text.now) line (top_first self.now.state) ≡ Ok note) }
        ensures refused { IfErr result (RefusesLine line
            (line_note (rules_by brush.now) (T.lines text.now) line (top_first self.now.state))) }
        ensures fits { IfOk result (NoteFits (items_by brush.now)) }
        ensures memory { TablesStand (rules_by brush.now) memory.new }
        ensures steps { steps.new ≡ steps.old + 1 }
    {
        match self.repeated(text, line, earlier) {
            Some(note) => {
                steps.add_one();
                Ok(note.copy(brush.alloc)?)
            }
            None => brush.paint(text, line, &self.state, memory, steps),
        }
    }

    /// Paints the line that follows.
    fn paint<T: Lines, L: Ledger>(
        &mut self,
        brush: &Brush<'_>,
        text: &T,
        line: usize,
        memory: &mut PickMemory,
        steps: &mut Steps<L>,
    ) -> Result<(), EditError>
        requires budget { 1 ≤ brush.now.budget }
        requires present { line < length (T.lines text.now) }
        requires stands { Stands (items_by brush.now) self.old }
        requires walks { WalksOn (rules_by brush.now) (T.lines text.now) line self.old.notes.0
            (top_first self.old.state) }
        requires few { length self.old.notes.0 + 1 < 2 ^ 32 }
        requires memory { TablesStand (rules_by brush.now) memory.old }
        ensures painted { OnOk result (IsNext
            (line_note (rules_by brush.now) (T.lines text.now) line (top_first self.old.state))
            self.old self.new) }
        ensures stands { OnOk result (Stands (items_by brush.now) self.new) }
        ensures refused { IfErr result (RefusesLine line
            (line_note (rules_by brush.now) (T.lines text.now) line (top_first self.old.state))) }
        ensures memory { TablesStand (rules_by brush.now) memory.new }
        ensures steps { steps.new ≡ steps.old + 1 }
    {
        let earlier = self.last.replace(text.line(line), line);
        let note = self.note(brush, text, line, earlier, memory, steps)?;
        self.push(brush.alloc, note)?;
        Ok(())
    }

    /// Puts the note of a line behind the others, and goes to the next line.
    fn push(&mut self, alloc: Global, note: Kept) -> Result<(), Memory>
        requires few { length self.old.notes.0 + 1 < 2 ^ 32 }
        ensures notes { OnOk result (self.new.notes.0 ≡ self.old.notes.0 ++ note ∷ []) }
        ensures state { OnOk result (top_first self.new.state ≡ next_line note.after) }
        ensures fits { OnOk result ((n : _) → NoteFits n note
            → Stands n self.old → Stands n self.new) }
    {
        self.state = note.next(alloc)?;
        self.notes.push(note)?;
        Ok(())
    }
}
