//! What is kept of a syntax, and what is known of the line that is painted.
ghost use Rattle.std.specs.Prelude.{◌≡◌, ◌<◌, ◌≤◌, ◌^◌, ℕ, length, reverse, IfOk, IfSome, true, false, pos};
ghost use Rattle.item_pick.specs.Common.{one_line, Text, line_at, Rules, rules_by, rules_in, TellsOf, IsEarlier, IsLastFree, IsLater, IsSettled, IsVainFrom, ChoiceFits, IsFirstOf, IsStartOf, MayAsk, LineStands, MemoryStands, RunStands, TablesStand, MayPick, AreWithin, IsCheapWithin, two_lines, wanders};

use crate::asked::Asked;
use crate::choice::Choice;
use crate::columns::{Columns, may_start};
use crate::firsts::Question;
use crate::line_known::LineKnown;
use crate::parts::Parts;
use crate::picking::{Picking, StartBy};
use crate::runs::{Run, Search, holds};
use crate::tables::Tables;
use crate::wandering::wanders;
use pattern_screens::{are_within, begins_behind, two_lines};
use std::alloc::Global;
use syn_base::{Lines, Looked, Memory, Place};

/// What is kept of a syntax and a budget from line to line, and what is known of the line that is
/// painted. No answer depends on it.
#[derive(Drop)]
pub struct PickMemory {
    pub(crate) tables: Tables,
    pub(crate) line: LineKnown,
}

impl PickMemory {
    /// Nothing is kept. It takes no memory.
    pub fn new(alloc: Global) -> PickMemory
        ensures { (r : Rules) → TablesStand r result }
    {
        PickMemory {
            tables: Tables::new(alloc),
            line: LineKnown::new(alloc),
        }
    }

    /// Begins a line. What is kept of the syntax stays.
    pub fn enter_line(&mut self, parts: &Parts, line: &[char]) -> Result<(), Memory>
        ensures kept { (r : Rules) → TablesStand r self.old → TablesStand r self.new }
        ensures entered { (budget : ℕ) (t : Text) (l : ℕ) → line.now ≡ line_at t l →
            TablesStand (rules_in parts.now budget) self.old →
            IfOk result (λ _. MemoryStands (rules_in parts.now budget) t l self.new) }
    {
        self.line.enter(parts.sets, line)?;
        self.line.note_all_lacking(self.tables.wanted.as_slice())
    }
}

impl LineKnown {
    /// The run of an item that holds a column or ends there, and tells of a place: one that has no
    /// column yet, where there is none.
    fn run_at(&self, asked: &Asked, by: &StartBy<'_>, col: usize, at: Place) -> Run
        requires first { IsFirstOf (rules_by asked.now) by.now }
        requires line { at.line < 2 ^ 63 }
        requires short { at.col < 2 ^ 62 }
        ensures tells { TellsOf by.now.item col at.col result }
        ensures stands { (t : Text) (l : ℕ) →
            LineStands (rules_by asked.now) t l self.now →
            RunStands (rules_by asked.now) t l result }
    {
        match self.known(by.item, col, at.col) {
            Some(run) => run,
            None => asked.fresh_run(by, at.line, col),
        }
    }

    /// Notes of an item whose first pattern doesn't wander, if it has no other, that it doesn't start where
    /// what follows its look behind fails, by the line and the one before, which aren't too long.
    #[inline(never)]
    fn note_behind(&mut self, asked: &Asked, by: &StartBy<'_>, pair: Looked) -> Result<(), Memory>
        requires first { IsFirstOf (rules_by asked.now) by.now }
        requires sits { wanders by.now.pattern.now ≡ false }
        ensures { (t : Text) (l most : ℕ) → pair ≡ two_lines l → AreWithin most t l →
            IsCheapWithin (rules_by asked.now) by.now.item most →
            LineStands (rules_by asked.now) t l self.old →
            LineStands (rules_by asked.now) t l self.new }
    {
        if asked.has_one_start(by.item) {
            self.note_near(by.item, pair)
        } else {
            Ok(())
        }
    }
}

impl PickMemory {
    /// A column from one on, up to which no column gives a match by the start pattern of that number
    /// with its item start at the place, nor looks at a line that wasn't looked at before.
    #[inline(always)]
    pub(crate) fn next_column<T: Lines>(
        &mut self,
        picking: &Picking<'_, T>,
        by: &StartBy<'_>,
        col: usize,
        looked: Looked,
    ) -> Result<usize, Memory>
        requires start { IsStartOf (rules_by picking.now.asked.now) by.now }
        requires may { MayPick T.lines picking.now looked self.old }
        ensures next { IfOk result (IsLater (rules_by picking.now.asked.now)
            (T.lines picking.now.lines.now) by.now.item by.now.pattern.now picking.now.at looked col) }
        ensures may { MayAsk T.lines picking.now self.new }
    {
        if self.starts_nowhere(picking.asked, by.item)? {
            return Ok(col.max(picking.last() + 1));
        }
        if by.number != 0 || !wanders(by.pattern) {
            return Ok(col);
        }
        self.next_by_run(picking, by, col, looked)
    }

    /// The same, by what is known of the first start pattern of an item.
    #[inline(never)]
    fn next_by_run<T: Lines>(
        &mut self,
        picking: &Picking<'_, T>,
        by: &StartBy<'_>,
        col: usize,
        looked: Looked,
    ) -> Result<usize, Memory>
        requires first { IsFirstOf (rules_by picking.now.asked.now) by.now }
        requires may { MayPick T.lines picking.now looked self.old }
        ensures next { IfOk result (IsLater (rules_by picking.now.asked.now)
            (T.lines picking.now.lines.now) by.now.item by.now.pattern.now picking.now.at looked col) }
        ensures may { MayAsk T.lines picking.now self.new }
    {
        let _last = picking.last();
        let asked = picking.asked;
        let run = self.line.run_at(asked, by, col, picking.at);
        if !holds(looked, run.looked) {
            return Ok(col);
        }
        let to = self
            .tables
            .firsts
            .first_open(&self.line, asked, by, run.to)?;
        if to == run.to {
            return Ok(to);
        }
        self.line.keep(Run { to, ..run }, picking.at.line)?;
        Ok(to)
    }

    /// The lines that an attempt from a column looks at by the start pattern of that number, where it is
    /// known to find nothing.
    pub(crate) fn vain<T: Lines>(
        &mut self,
        picking: &Picking<'_, T>,
        by: &StartBy<'_>,
        col: usize,
    ) -> Result<Option<Looked>, Memory>
        requires start { IsStartOf (rules_by picking.now.asked.now) by.now }
        requires column { col
            ≤ length (line_at (T.lines picking.now.lines.now) picking.now.at.line) }
        requires may { MayAsk T.lines picking.now self.old }
        ensures vain { IfOk result (λ found. IfSome found (λ lines. IsVainFrom
            (rules_by picking.now.asked.now) (T.lines picking.now.lines.now) picking.now.at by.now.item
            by.now.pattern.now lines col)) }
        ensures may { MayAsk T.lines picking.now self.new }
    {
        if by.number != 0 || wanders(by.pattern) {
            return Ok(None);
        }
        let asked = picking.asked;
        let line = picking.at.line;
        if !may_start(by.pattern, col, picking.at.col, picking.last()) {
            return Ok(None);
        }
        if !begins_behind(&by.pattern.tree) {
            let behind = self.line.number_after(col);
            let missed = self.tables.firsts.is_missed_by(asked, by, col, behind)?;
            return Ok(own_line_if(missed, line));
        }
        let Some(most) = self.tables.firsts.reach(asked, by)?.longest else {
            return Ok(None);
        };
        if !are_within(picking.lines, line, most) {
            return Ok(None);
        }
        let Some(number) = self.line.number_at(col) else {
            return Ok(None);
        };
        if !self.tables.firsts.ask(asked, by, Question::Behind, number)? {
            return Ok(None);
        }
        let pair = two_lines(line);
        self.line.note_behind(asked, by, pair)?;
        Ok(Some(pair))
    }

    /// Remembers that a match from a column has its item start at none of some places of the line, and
    /// which lines tell so.
    pub(crate) fn note<T: Lines>(
        &mut self,
        by: &StartBy<'_>,
        picking: &Picking<'_, T>,
        col: usize,
        places: Columns,
        lines: Looked,
    ) -> Result<(), Memory>
        requires start { IsStartOf (rules_by picking.now.asked.now) by.now }
        requires settled { IsSettled (rules_by picking.now.asked.now)
            (T.lines picking.now.lines.now) picking.now.at.line by.now.item by.now.pattern.now places.first
            places.end lines col }
        requires may { MayAsk T.lines picking.now self.old }
        ensures may { MayAsk T.lines picking.now self.new }
    {
        let at = picking.at.col;
        if by.number != 0 || !wanders(by.pattern) || picking.last() < col {
            return Ok(());
        }
        let run = self.line.run_at(picking.asked, by, col, picking.at);
        let places = both(run.places, places);
        if at < places.first || places.end <= at || run.to != col {
            return Ok(());
        }
        let run = Run {
            to: col + 1,
            places,
            looked: run.looked.join(lines),
            ..run
        };
        self.line.keep(run, picking.at.line)
    }

    /// The items of a choice are tried from the last to the first: how many are left, once those
    /// behind them are passed over that aren't free, or don't start at the place, which the lines
    /// looked at before tell. The last of those is free. Each column of the line has a number.
    pub(crate) fn next_item<T: Lines>(
        &mut self,
        picking: &Picking<'_, T>,
        choice: Choice,
        left: usize,
        looked: Looked,
    ) -> Result<usize, Memory>
        requires choice { ChoiceFits (rules_by picking.now.asked.now) choice }
        requires items { left ≤ length (rules_by picking.now.asked.now).items }
        requires may { MayPick T.lines picking.now looked self.old }
        ensures next { IfOk result (IsEarlier (rules_by picking.now.asked.now)
            (T.lines picking.now.lines.now) picking.now.at picking.now.floor
            (reverse picking.now.tried.now) choice looked left) }
        ensures free { IfOk result (IsLastFree (rules_by picking.now.asked.now)
            (reverse picking.now.tried.now) choice) }
        ensures may { MayAsk T.lines picking.now self.new }
    {
        let search = Search {
            at: picking.at.col,
            floor: picking.floor,
            looked,
            tried: picking.tried,
            line: &self.line,
        };
        match self.line.number_at(search.at) {
            Some(number) => self
                .tables
                .left_in(picking.asked, choice, number, &search, left),
            None => Err(Memory),
        }
    }
}

/// The columns of both.
fn both(a: Columns, b: Columns) -> Columns
    ensures first { a.first ≤ result.first × b.first ≤ result.first }
    ensures end { result.end ≤ a.end × result.end ≤ b.end }
{
    Columns {
        first: a.first.max(b.first),
        end: a.end.min(b.end),
    }
}

/// A line, if it tells that an attempt is in vain.
fn own_line_if(missed: bool, line: usize) -> Option<Looked>
    requires { line < 2 ^ 63 }
    ensures { IfSome result (λ lines. (missed ≡ true) × (lines ≡ one_line (pos line))) }
{
    if missed {
        Some(Looked::one(line as i64))
    } else {
        None
    }
}
