//! Painting a line of a text by the parts of a syntax.
ghost use Rattle.std.specs.Prelude.{◌≡◌, ◌<◌, ◌≤◌, ◌+◌, length, IfOk};
ghost use Rattle.line_paint.specs.Common.{IsFromColumn, line_at, AreItemsBelow, AreSound, no_externals, place_at, painted_line, StateFits, top_first, PaintedAs, here_in, rules_in, TablesStand};

use crate::at_hand::AtHand;
use crate::paint::painted_by;
use crate::site::{Site, UpTo};
use crate::standing::Standing;
use crate::{LineNote, PaintError};
use item_pick::{Asked, Parts, PickMemory, Picked, Query};
use paint_rules::Which;
use pattern_match::Match;
use region_ends::{EndAnswer, offset_place};
use state_stack::{Frame, State};
use std::alloc::Global;
use std::rc::Rc;
use syn_base::{Externals, Ledger, Lines, Memory, Place, Steps};
use syntax_set::{ItemSet, Pattern};

/// A line of a text, and the parts of a syntax, asked within a budget.
#[derive(Drop)]
pub(crate) struct Painting<'a, T: Lines> {
    asked: Asked<'a>,
    lines: &'a T,
    line: u32,
    /// Nine empty texts that frames share.
    shared: &'a Rc<Externals>,
    ghost are_empty: { shared.now.value ≡ no_externals },
}

impl<T: Lines> Painting<'_, T> {
    /// A column of the line.
    fn place(&self, col: usize) -> Place
        ensures { result ≡ place_at self.now.line col }
    {
        Place {
            line: self.line as usize,
            col,
        }
    }

    /// What is asked at a column.
    fn query<'b>(&'b self, c: usize, at: &'b Standing) -> Query<'b, T>
        ensures asked { result.asked.now ≡ self.now.asked }
        ensures lines { result.lines.now ≡ self.now.lines.now }
        ensures at { result.at ≡ place_at self.now.line c }
        ensures state { result.state.now ≡ at.now.state }
        ensures floor { result.floor ≡ at.now.floor }
        ensures tried { result.tried.now ≡ at.now.tried }
        ensures looked { result.looked ≡ at.now.looked }
    {
        Query {
            asked: &self.asked,
            lines: self.lines,
            at: self.place(c),
            state: &at.state,
            floor: at.floor,
            tried: &at.tried,
            looked: at.looked,
        }
    }
}

impl<T: Lines> Site for Painting<'_, T> {
    ghost use Rattle.line_paint.specs.Painting.{here_by, MayBeAsked};
    ghost use Rattle.item_pick.specs.PartsSeen.{rules_by};
    ghost use Rattle.item_pick.specs.Tables.{MemoryStands};

    ghost here = { λ p. here_by p.asked (T.lines p.lines.now) p.line };

    ghost stands = { λ p memory. MayBeAsked p.asked (T.lines p.lines.now) p.line
        × MemoryStands (rules_by p.asked) (T.lines p.lines.now) p.line memory };

    fn alloc(&self) -> Global {
        self.asked.alloc
    }

    fn line(&self) -> usize {
        self.line as usize
    }

    fn len(&self) -> usize {
        let line = self.line as usize;
        if line < self.lines.len() {
            self.lines.line(line).len()
        } else {
            0
        }
    }

    fn items(&self) -> &ItemSet {
        self.asked.parts.items
    }

    fn no_externals(&self) -> &Rc<Externals> {
        self.shared
    }

    fn offset_place(&self, m: &Match, pattern: &Pattern, which: Which) -> Place {
        offset_place(self.lines, m, pattern, which)
    }

    fn pick(&self, memory: &mut PickMemory, c: usize, at: &Standing) -> Result<Picked, Memory> {
        memory.pick(&self.query(c, at))
    }

    #[inline(never)]
    fn starts_from(&self, memory: &mut PickMemory, c: usize, end: usize, at: &Standing) -> UpTo {
        memory.quiet_until(&self.query(c, at), end)
    }

    fn find_end(
        &self,
        memory: &mut PickMemory,
        body: &Frame,
        c: usize,
    ) -> Result<EndAnswer, Memory> {
        memory.find_end(
            &self.asked,
            self.lines,
            body.item,
            &body.externals,
            self.place(c),
        )
    }
}

fn no_externals(alloc: Global) -> Result<Rc<Externals>, Memory>
    ensures { IfOk result (λ shared. shared.value ≡ no_externals) }
{
    Ok(Rc::new(alloc, Externals::none(alloc)?)?)
}

/// Paints a line, counted from 0, from the state before it, by the parts of a syntax. Each attempt
/// of a pattern costs at most `budget`. The lines looked at count from the painted one.
pub fn paint_line<T: Lines, L: Ledger>(
    alloc: Global,
    parts: &Parts,
    lines: &T,
    line: usize,
    before: &State,
    budget: u64,
    steps: &mut Steps<L>,
) -> Result<LineNote, PaintError>
    requires patterns { AreSound parts.now.items.now parts.now.programs.now }
    requires words { AreItemsBelow (length parts.now.items.now) parts.now.keywords.now }
    requires present { line < length (T.lines lines.now) }
    requires fits { StateFits (length parts.now.items.now) (top_first before.now) }
    requires budget { 1 ≤ budget }
    ensures painted { PaintedAs result line before.now
        (painted_line (here_in parts.now budget (T.lines lines.now) line) (top_first before.now)) }
    ensures fits { IfOk result
        (λ note. StateFits (length parts.now.items.now) (top_first note.after)) }
    ensures spans { IfOk result
        (λ note. IsFromColumn 0 (length (line_at (T.lines lines.now) line)) note.spans) }
    ensures steps { steps.new ≡ steps.old + 1 }
{
    let mut memory = PickMemory::new(alloc);
    paint_line_with(
        alloc,
        parts,
        budget,
        lines,
        line,
        before,
        &mut memory,
        steps,
    )
}

/// The same, with what is kept of the syntax and the budget, which changes no answer.
pub fn paint_line_with<T: Lines, L: Ledger>(
    alloc: Global,
    parts: &Parts,
    budget: u64,
    lines: &T,
    line: usize,
    before: &State,
    memory: &mut PickMemory,
    steps: &mut Steps<L>,
) -> Result<LineNote, PaintError>
    requires patterns { AreSound parts.now.items.now parts.now.programs.now }
    requires words { AreItemsBelow (length parts.now.items.now) parts.now.keywords.now }
    requires memory { TablesStand (rules_in parts.now budget) memory.old }
    requires present { line < length (T.lines lines.now) }
    requires fits { StateFits (length parts.now.items.now) (top_first before.now) }
    requires budget { 1 ≤ budget }
    ensures painted { PaintedAs result line before.now
        (painted_line (here_in parts.now budget (T.lines lines.now) line) (top_first before.now)) }
    ensures memory { TablesStand (rules_in parts.now budget) memory.new }
    ensures fits { IfOk result
        (λ note. StateFits (length parts.now.items.now) (top_first note.after)) }
    ensures spans { IfOk result
        (λ note. IsFromColumn 0 (length (line_at (T.lines lines.now) line)) note.spans) }
    ensures steps { steps.new ≡ steps.old + 1 }
{
    steps.add_one();
    let lines = AtHand::new(lines, line);
    let shared = no_externals(alloc)?;
    let painting = Painting {
        asked: Asked {
            alloc,
            parts,
            budget,
            no_externals: &shared,
        },
        lines: &lines,
        line: line as u32,
        shared: &shared,
    };
    memory.enter_line(parts, lines.line(line))?;
    painted_by(&painting, memory, before)
}
