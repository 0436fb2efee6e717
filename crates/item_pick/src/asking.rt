//! What starts at a place, asked of the parts of a syntax.
ghost use Rattle.std.specs.Prelude.{◌≡◌, ◌<◌, ◌≤◌, ◌^◌, Bool, length, reverse, Some, IfOk, pos, List};
ghost use Rattle.item_pick.specs.Common.{one_line, line_at, Painted, looked_first, Cause, picked, AreItemsBelow, AreSound, AddedItem, StateFits, top_first, rules_by, rules_in, here_at, IsOutcomeThere, seen_pick, IsPicked, MemoryStands, IsToldAs, MayBeAsked};
ghost use Rattle.paint_rules.specs.Pick as rule;
ghost use Rattle.syn_base.specs.declared.looked.Looked.{Looked as LookedOf};

use crate::asked::Asked;
use crate::memory::PickMemory;
use crate::parts::Parts;
use crate::picking::Query;
use crate::starting::{Outcome, Picked};
use crate::stop::Stop;
use state_stack::State;
use std::alloc::Global;
use syn_base::{Externals, ItemId, Lines, List, Looked, Memory, Place};

/// What starts at a place of a present line, in the state there: a keyword, or else the last
/// defined of the matches and regions (`:syn-priority`). `floor` is the column of the last start or
/// close in this line. `tried` are the items that have started at this place, in order: these don't
/// start again. One attempt may cost at most `budget` (this profile).
pub fn pick<T: Lines>(
    alloc: Global,
    parts: &Parts,
    lines: &T,
    at: Place,
    state: &State,
    floor: usize,
    tried: &List<ItemId>,
    budget: u64,
) -> Result<Picked, Memory>
    requires patterns { AreSound parts.now.items.now parts.now.programs.now }
    requires words { AreItemsBelow (length parts.now.items.now) parts.now.keywords.now }
    requires present { at.line < length (T.lines lines.now) }
    requires within { at.col ≤ length (line_at (T.lines lines.now) at.line) }
    requires fits { StateFits (length parts.now.items.now) (top_first state.now) }
    requires budget { 1 ≤ budget }
    ensures { IfOk result (λ p. (over : Bool) → IsPicked parts.now.items.now p
        (looked_first (Some (one_line (pos at.line)))
        (picked (record {
          rules = rules_in parts.now budget;
          text = T.lines lines.now;
          line = at.line;
        }) at.col (record {
          stack = reverse state.now.stack;
          waiting = state.now.waiting;
          floor = floor;
          tried = reverse tried.now;
          is_over = over;
        })))) }
{
    let no_externals = &Externals::none(alloc)?;
    let asked = Asked {
        alloc,
        parts,
        budget,
        no_externals,
    };
    let _count = lines.len();
    let mut memory = PickMemory::new(alloc);
    memory.enter_line(parts, lines.line(at.line))?;
    memory.pick(&Query {
        asked: &asked,
        lines,
        at,
        state,
        floor,
        tried,
        looked: alone(at.line),
    })
}

/// A line alone.
fn alone(line: usize) -> Looked
    requires { line < 2 ^ 63 }
    ensures { result ≡ one_line (pos line) }
{
    Looked::one(line as i64)
}

impl PickMemory {
    /// The same as `pick`, by what is kept of the syntax and the budget. The line has to be entered
    /// (`enter_line`). An attempt that is known to tell nothing but by the lines looked at so far, which
    /// are in the answer, isn't made again.
    pub fn pick<T: Lines>(&mut self, query: &Query<'_, T>) -> Result<Picked, Memory>
        requires may { MayBeAsked T.lines query.now self.old }
        ensures picked { IfOk result (λ p. (over : Bool) →
            IsPicked query.now.asked.now.parts.now.items.now p
            (looked_first (Some query.now.looked) (picked (here_at (rules_by query.now.asked.now)
            (T.lines query.now.lines.now) query.now.at) query.now.at.col (record {
              stack = reverse query.now.state.now.stack;
              waiting = query.now.state.now.waiting;
              floor = query.now.floor;
              tried = reverse query.now.tried.now;
              is_over = over;
            })))) }
        ensures memory { MemoryStands (rules_by query.now.asked.now) (T.lines query.now.lines.now)
            query.now.at.line self.new }
    {
        let _count = query.lines.len();
        let tried = query.tried_items()?;
        let mut looked = query.looked;
        let state = query.state;
        let picking = query.picking(&tried);
        let outcome = picking.pick(&state.stack, state.waiting, &mut looked, self);
        picked_of(outcome, looked)
    }
}

/// What a pick came to, with the lines that were looked at.
fn picked_of(outcome: Result<Outcome, Stop>, looked: Looked) -> Result<Picked, Memory>
    ensures { (items : List AddedItem) (before : LookedOf) (p : Painted Cause rule.Picked) →
        IsToldAs (seen_pick items) before outcome looked p →
        IfOk outcome (IsOutcomeThere items) →
        IfOk result (λ a. IsPicked items a (looked_first (Some before) p)) }
{
    match outcome {
        Ok(Outcome::Start(starting)) => Ok(Picked::Start(starting, looked)),
        Ok(Outcome::SkipOn) => Ok(Picked::SkipOn(looked)),
        Ok(Outcome::Nothing) => Ok(Picked::Nothing(looked)),
        Err(Stop::TooCostly(item)) => Ok(Picked::TooCostly { item }),
        Err(Stop::Memory) => Err(Memory),
    }
}
