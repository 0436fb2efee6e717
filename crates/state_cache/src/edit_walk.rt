//! The walk of an edit over old and new lines: what is reusable stays, all else is painted.
ghost use Rattle.std.specs.Prelude.{◌≡◌, ◌+◌, ◌-◌, ◌<◌, ◌≤◌, ◌++◌, [], ◌∷◌, ℕ, drop, length, not, slice_get, Some, None, Ok, IfOk, IfErr, IfSome, OnOk};
ghost use Rattle.std.specs.List.{All};
ghost use Rattle.item_pick.specs.Tables.{TablesStand};
ghost use Rattle.paint_reuse.specs.Change.{old_line};
ghost use Rattle.paint_reuse.specs.Kept.{line_note, text_notes};
ghost use Rattle.paint_reuse.specs.Report.{report, same_spans};
ghost use Rattle.paint_reuse.specs.Reuse.{one_unless, to_paint_from};
ghost use Rattle.paint_reuse.specs.SameState.{same_state};
ghost use Rattle.paint_reuse.specs.Work.{AreUntouched, before_at, is_untouched, NewOver, NewWent, OldLines, Over, Passes, Went, kept_spans, put_in, reusable, state_by, told, work};
ghost use Rattle.paint_rules.specs.States.{StateFits, empty_state, next_line};
ghost use Rattle.state_cache.specs.Edits.{GivenFits, IsKeptOr, IsMade, IsSoundEdit, PatchesFit, change_by, given_by, items_of, lines_of, most_by, new_work, old_by, patched, rules_of, state_at, stretch_work, text_of};
ghost use Rattle.state_cache.specs.Notes.{NoteFits};
ghost use Rattle.state_cache.specs.Refusals.{RefusesAs, RefusesLine};
ghost use Rattle.state_stack.specs.TopFirst.{top_first};

use crate::EditError;
use crate::edit::{Done, Edit, Made, Patch, Stretch};
use crate::kept::Kept;
use crate::reach::{first_behind, first_near, reach_of, reach_of_patches};
use item_pick::PickMemory;
use state_stack::State;
use std::alloc::Global;
use syn_base::{Ledger, Lines, List, Memory, Span, Steps};

/// Whether the state before a line is that of old, which it is where none is given.
fn is_same(given: &Option<State>, old: &State) -> bool
    ensures { result ≡ same_state (top_first old.now) (state_by (given_by given.now) (top_first old.now)) }
{
    match given {
        None => true,
        Some(state) => old.same(state),
    }
}

/// The state before a line.
fn state_or<'a>(given: &'a Option<State>, old: &'a State) -> &'a State
    ensures is { top_first result.now ≡ state_by (given_by given.now) (top_first old.now) }
    ensures fits { (n : ℕ) → GivenFits n given.now → StateFits n (top_first old.now)
        → StateFits n (top_first result.now) }
{
    match given {
        None => old,
        Some(state) => state,
    }
}

/// Tells a line if its spans differ.
fn tell(report: &mut List<usize>, k: usize, spans: &[Span], old: &[Span]) -> Result<(), Memory>
    ensures { OnOk result (report.new ≡ report.old ++ told (not (same_spans spans.now old.now)) k) }
{
    if spans == old {
        return Ok(());
    }
    report.push(k)
}

impl Done {
    /// Notes a line that was painted anew, and tells it if it shows other spans. The answer is the
    /// state before the next line.
    fn put(
        &mut self,
        alloc: Global,
        j: usize,
        k: usize,
        old: &Kept,
        note: Kept,
    ) -> Result<State, Memory>
        ensures next { IfOk result (λ s. top_first s ≡ next_line note.after) }
        ensures fits { IfOk result (λ s. (n : ℕ) → StateFits n note.after → StateFits n (top_first s)) }
        ensures patches { OnOk result (self.new.patches ≡ self.old.patches
            ++ record { line = j; note = note } ∷ []) }
        ensures told { OnOk result (self.new.report ≡ self.old.report
            ++ told (not (same_spans note.spans old.now.spans)) k) }
    {
        let next = note.next(alloc)?;
        tell(&mut self.report, k, note.spans(), old.spans())?;
        self.patches.push(Patch { line: j, note })?;
        Ok(next)
    }
}

impl Edit<'_> {
    /// Whether old line `j` looked at nothing of the change, nor at its number if it moved.
    fn is_untouched(&self, j: usize) -> bool
        requires { j < length (old_by self.now) }
        ensures { IfSome (slice_get (old_by self.now) j) (λ note. (k : ℕ) →
            old_line (change_by self.now) k ≡ Some j →
            result ≡ is_untouched (change_by self.now) j k note.looked) }
    {
        let _count = self.notes.len();
        self.changed
            .change()
            .is_untouched(j, self.notes.get(j).looked())
    }

    /// A line from `from` on, before which the lines looked at nothing of the change. Where no line
    /// can have looked that far, none is visited. Once any line looked at a number, those behind a
    /// change that moved them all are.
    fn clear_until(&self, from: usize, to: usize) -> usize
        requires sound { IsSoundEdit self.now }
        requires ordered { from ≤ to }
        requires inside { to ≤ length (old_by self.now) }
        ensures from { from ≤ result }
        ensures to { result ≤ to }
        ensures untouched { AreUntouched (change_by self.now) (old_by self.now) from result }
    {
        let near = first_near(self.changed.a, self.reach).max(from).min(to);
        let behind = first_behind(self.changed.change(), self.reach)
            .max(near)
            .min(to);
        for j in near..behind {
            if !self.is_untouched(j) {
                return j;
            }
        }
        to
    }

    /// The line to go over next: in the state of the old painting, lines that looked at nothing of the
    /// change are passed.
    fn passed(&self, given: &Option<State>, from: usize, to: usize) -> usize
        requires sound { IsSoundEdit self.now }
        requires ordered { from ≤ to }
        requires inside { to ≤ length (old_by self.now) }
        ensures from { from ≤ result }
        ensures to { result ≤ to }
        ensures passes { Passes (given_by given.now) (change_by self.now) (old_by self.now) from result }
    {
        match given {
            None => self.clear_until(from, to),
            Some(_) => from,
        }
    }

    /// Whether old line `j`, which is line `k` of the changed text, is reusable.
    fn is_reusable(&self, j: usize, k: usize, given: &Option<State>) -> bool
        requires sound { IsSoundEdit self.now }
        requires inside { j < length (old_by self.now) }
        requires was { old_line (change_by self.now) k ≡ Some j }
        ensures { result ≡ reusable (old_by self.now) (change_by self.now) k
            (state_at self.now given.now j) }
    {
        let note = self.notes.get(j);
        self.is_untouched(j) && is_same(given, note.state_before())
    }

    /// The new note of an old line, if it is to be painted.
    fn paint_or_keep<L: Ledger>(
        &self,
        j: usize,
        k: usize,
        given: &Option<State>,
        memory: &mut PickMemory,
        steps: &mut Steps<L>,
    ) -> Result<Option<Kept>, EditError>
        requires sound { IsSoundEdit self.now }
        requires inside { j < length (old_by self.now) }
        requires present { k < length (text_of self.now) }
        requires was { old_line (change_by self.now) k ≡ Some j }
        requires fits { GivenFits (items_of self.now) given.now }
        requires memory { TablesStand (rules_of self.now) memory.old }
        ensures kept { IfOk result (IsKeptOr self.now j k (state_at self.now given.now j)) }
        ensures fits { IfOk result (λ note. IfSome note (NoteFits (items_of self.now))) }
        ensures refused { IfErr result (RefusesLine k
            (line_note (rules_of self.now) (text_of self.now) k (state_at self.now given.now j))) }
        ensures memory { TablesStand (rules_of self.now) memory.new }
        ensures steps { steps.new ≤ steps.old + one_unless
            (reusable (old_by self.now) (change_by self.now) k (state_at self.now given.now j)) }
    {
        if self.is_reusable(j, k, given) {
            return Ok(None);
        }
        let before = state_or(given, self.notes.get(j).state_before());
        let painted = self.brush.paint(&self.changed, k, before, memory, steps)?;
        Ok(Some(painted))
    }

    /// Goes over an old line: keeps its note, or paints it anew. The answer is the state before the
    /// next one, where that isn't the one before its old line.
    fn old_line<L: Ledger>(
        &self,
        j: usize,
        k: usize,
        given: Option<State>,
        done: &mut Done,
        memory: &mut PickMemory,
        steps: &mut Steps<L>,
    ) -> Result<Option<State>, EditError>
        requires sound { IsSoundEdit self.now }
        requires inside { j < length (old_by self.now) }
        requires present { k < length (text_of self.now) }
        requires was { old_line (change_by self.now) k ≡ Some j }
        requires fits { GivenFits (items_of self.now) given }
        requires patches { PatchesFit (items_of self.now) done.old.patches }
        requires below { drop j (patched (old_by self.now) done.old.patches) ≡ drop j (old_by self.now) }
        requires memory { TablesStand (rules_of self.now) memory.old }
        ensures went { IfOk result (λ g. Went (rules_of self.now) (text_of self.now) (old_by self.now)
            (change_by self.now) j k (state_at self.now given j)
            (patched (old_by self.now) done.old.patches) (patched (old_by self.now) done.new.patches)
            done.old.report done.new.report (given_by g)) }
        ensures fits { IfOk result (GivenFits (items_of self.now)) }
        ensures patches { OnOk result (PatchesFit (items_of self.now) done.new.patches) }
        ensures refused { IfErr result (RefusesLine k
            (line_note (rules_of self.now) (text_of self.now) k (state_at self.now given j))) }
        ensures memory { TablesStand (rules_of self.now) memory.new }
        ensures steps { steps.new ≤ steps.old + one_unless
            (reusable (old_by self.now) (change_by self.now) k (state_at self.now given j)) }
    {
        match self.paint_or_keep(j, k, &given, memory, steps)? {
            None => Ok(None),
            Some(note) => Ok(Some(done.put(self.brush.alloc, j, k, self.notes.get(j), note)?)),
        }
    }

    /// Goes over old lines.
    fn old_lines<L: Ledger>(
        &self,
        stretch: Stretch,
        given: Option<State>,
        done: &mut Done,
        memory: &mut PickMemory,
        steps: &mut Steps<L>,
    ) -> Result<Option<State>, EditError>
        requires sound { IsSoundEdit self.now }
        requires ordered { stretch.from ≤ stretch.to }
        requires inside { stretch.to ≤ length (old_by self.now) }
        requires present { stretch.first + (stretch.to - stretch.from) ≤ length (text_of self.now) }
        requires were { OldLines (change_by self.now) stretch.first stretch.from stretch.to }
        requires fits { GivenFits (items_of self.now) given }
        requires patches { PatchesFit (items_of self.now) done.old.patches }
        requires below { drop stretch.from (patched (old_by self.now) done.old.patches)
            ≡ drop stretch.from (old_by self.now) }
        requires memory { TablesStand (rules_of self.now) memory.old }
        ensures over { IfOk result (λ g. Over (stretch_work self.now stretch given) (old_by self.now)
            stretch.from stretch.to
            (patched (old_by self.now) done.old.patches) (patched (old_by self.now) done.new.patches)
            done.old.report done.new.report (given_by g)) }
        ensures fits { IfOk result (GivenFits (items_of self.now)) }
        ensures patches { OnOk result (PatchesFit (items_of self.now) done.new.patches) }
        ensures refused { IfErr result (RefusesAs (stretch_work self.now stretch given).end) }
        ensures memory { TablesStand (rules_of self.now) memory.new }
        ensures steps { steps.new ≤ steps.old + (stretch_work self.now stretch given).count }
    {
        let _lines = self.changed.len();
        let to = stretch.to;
        let mut state = given;
        let mut j = stretch.from;
        'lines: while j < to {
            j = self.passed(&state, j, to);
            if j < to {
                let k = stretch.first + (j - stretch.from);
                state = self.old_line(j, k, state, done, memory, steps)?;
                j += 1;
            }
        }
        Ok(state)
    }

    /// Paints a new line, which is told. The answer is the state before the next one.
    fn new_line<L: Ledger>(
        &self,
        k: usize,
        given: State,
        fresh: &mut List<Kept>,
        report: &mut List<usize>,
        memory: &mut PickMemory,
        steps: &mut Steps<L>,
    ) -> Result<State, EditError>
        requires sound { IsSoundEdit self.now }
        requires present { k < length (text_of self.now) }
        requires is_new { old_line (change_by self.now) k ≡ None }
        requires fits { StateFits (items_of self.now) (top_first given) }
        requires fresh { All (NoteFits (items_of self.now)) fresh.old }
        requires memory { TablesStand (rules_of self.now) memory.old }
        ensures went { IfOk result (λ next. NewWent (rules_of self.now) (text_of self.now) k
            (top_first given) fresh.old fresh.new report.old report.new (top_first next)) }
        ensures fits { IfOk result (λ next. StateFits (items_of self.now) (top_first next)) }
        ensures fresh { OnOk result (All (NoteFits (items_of self.now)) fresh.new) }
        ensures refused { IfErr result (RefusesLine k
            (line_note (rules_of self.now) (text_of self.now) k (top_first given))) }
        ensures memory { TablesStand (rules_of self.now) memory.new }
        ensures steps { steps.new ≤ steps.old + one_unless
            (reusable (old_by self.now) (change_by self.now) k (top_first given)) }
    {
        let note = self.brush.paint(&self.changed, k, &given, memory, steps)?;
        let next = note.next(self.brush.alloc)?;
        report.push(k)?;
        fresh.push(note)?;
        Ok(next)
    }

    /// Paints the new lines. The answer is the state before the line that follows.
    fn new_lines<L: Ledger>(
        &self,
        given: State,
        fresh: &mut List<Kept>,
        report: &mut List<usize>,
        memory: &mut PickMemory,
        steps: &mut Steps<L>,
    ) -> Result<State, EditError>
        requires sound { IsSoundEdit self.now }
        requires fits { StateFits (items_of self.now) (top_first given) }
        requires empty { fresh.old ≡ [] }
        requires memory { TablesStand (rules_of self.now) memory.old }
        ensures over { IfOk result (λ next. NewOver (new_work self.now given) fresh.new
            report.old report.new (top_first next)) }
        ensures fits { IfOk result (λ next. StateFits (items_of self.now) (top_first next)) }
        ensures fresh { OnOk result (All (NoteFits (items_of self.now)) fresh.new) }
        ensures refused { IfErr result (RefusesAs (new_work self.now given).end) }
        ensures memory { TablesStand (rules_of self.now) memory.new }
        ensures steps { steps.new ≤ steps.old + (new_work self.now given).count }
    {
        let _lines = self.changed.len();
        let mut state = given;
        for i in 0..self.changed.new.len() {
            state = self.new_line(self.changed.a + i, state, fresh, report, memory, steps)?;
        }
        Ok(state)
    }

    /// The state before a line, at the end too.
    fn state_at(&self, j: usize, given: Option<State>) -> Result<State, Memory>
        requires sound { IsSoundEdit self.now }
        requires inside { j ≤ length (old_by self.now) }
        requires fits { GivenFits (items_of self.now) given }
        ensures is { IfOk result (λ s. top_first s ≡ state_at self.now given j) }
        ensures fits { IfOk result (λ s. StateFits (items_of self.now) (top_first s)) }
    {
        match given {
            Some(state) => Ok(state),
            None => self.old_state_at(j),
        }
    }

    /// The state before an old line, at the end too.
    fn old_state_at(&self, j: usize) -> Result<State, Memory>
        requires sound { IsSoundEdit self.now }
        requires inside { j ≤ length (old_by self.now) }
        ensures is { IfOk result (λ s. top_first s ≡ before_at empty_state (old_by self.now) j) }
        ensures fits { IfOk result (λ s. StateFits (items_of self.now) (top_first s)) }
    {
        if j < self.notes.len() {
            return self.notes.get(j).state_before().copy();
        }
        if j == 0 {
            return Ok(State::new());
        }
        self.notes.get(j - 1).next(self.brush.alloc)
    }

    /// Goes over all lines.
    pub(crate) fn walk<L: Ledger>(
        &self,
        memory: &mut PickMemory,
        steps: &mut Steps<L>,
    ) -> Result<Made, EditError>
        requires sound { IsSoundEdit self.now }
        requires memory { TablesStand (rules_of self.now) memory.old }
        ensures made { IfOk result (IsMade self.now) }
        ensures refused { IfErr result (RefusesAs (text_notes (rules_of self.now) (text_of self.now))) }
        ensures memory { TablesStand (rules_of self.now) memory.new }
        ensures steps { steps.new ≤ steps.old + most_by self.now }
    {
        let alloc = self.brush.alloc;
        let mut done = Done {
            patches: List::new(alloc),
            report: List::new(alloc),
        };
        let mut fresh = List::new(alloc);
        let first = Stretch {
            from: 0,
            to: self.changed.a,
            first: 0,
        };
        let above = self.old_lines(first, None, &mut done, memory, steps)?;
        let before = self.state_at(self.changed.a, above)?;
        let after = self.new_lines(before, &mut fresh, &mut done.report, memory, steps)?;
        let count = self.changed.new.len();
        let all = self.notes.len();
        let last = Stretch {
            from: self.changed.b,
            to: all,
            first: self.changed.a + count,
        };
        let _ = self.old_lines(last, Some(after), &mut done, memory, steps)?;
        let Done { patches, report } = done;
        let reach = reach_of(&fresh, reach_of_patches(&patches, self.reach));
        Ok(Made {
            patches,
            fresh,
            report,
            reach,
        })
    }
}
