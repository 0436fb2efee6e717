//! The painting of one line.
ghost use Rattle.std.specs.Prelude.{◌≡◌, ◌<◌, ◌≤◌, ◌+◌, length, IfOk, IfErr, Ok};
ghost use Rattle.item_pick.specs.Tables.{TablesStand};
ghost use Rattle.paint_reuse.specs.Kept.{line_note};
ghost use Rattle.paint_rules.specs.States.{StateFits};
ghost use Rattle.state_cache.specs.Brushes.{items_by, rules_by};
ghost use Rattle.state_cache.specs.Notes.{NoteFits};
ghost use Rattle.state_cache.specs.Refusals.{RefusesLine};
ghost use Rattle.state_stack.specs.TopFirst.{top_first};

use crate::EditError;
use crate::brush::Brush;
use crate::kept::Kept;
use crate::refusal::at_line;
use item_pick::{Parts, PickMemory};
use line_paint::paint_line_with;
use state_stack::State;
use syn_base::{Ledger, Lines, Steps};

impl Brush<'_> {
    /// Paints a line from the state before it.
    pub(crate) fn paint<T: Lines, L: Ledger>(
        &self,
        text: &T,
        line: usize,
        before: &State,
        memory: &mut PickMemory,
        steps: &mut Steps<L>,
    ) -> Result<Kept, EditError>
        requires budget { 1 ≤ self.now.budget }
        requires present { line < length (T.lines text.now) }
        requires fits { StateFits (items_by self.now) (top_first before.now) }
        requires memory { TablesStand (rules_by self.now) memory.old }
        ensures noted { IfOk result (λ note.
            line_note (rules_by self.now) (T.lines text.now) line (top_first before.now) ≡ Ok note) }
        ensures refused { IfErr result (RefusesLine line
            (line_note (rules_by self.now) (T.lines text.now) line (top_first before.now))) }
        ensures fits { IfOk result (NoteFits (items_by self.now)) }
        ensures memory { TablesStand (rules_by self.now) memory.new }
        ensures steps { steps.new ≡ steps.old + 1 }
    {
        let syntax = self.syntax;
        let parts = Parts {
            items: &syntax.items,
            clusters: &syntax.clusters,
            programs: &syntax.programs,
            keywords: &syntax.keywords,
            sets: &syntax.sets,
        };
        match paint_line_with(
            self.alloc,
            &parts,
            self.budget,
            text,
            line,
            before,
            memory,
            steps,
        ) {
            Ok(note) => Ok(Kept::new(note)),
            Err(error) => Err(at_line(line, error)),
        }
    }
}
