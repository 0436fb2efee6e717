//! The search for the end of a region in a line (`:syn-region`).
ghost use Rattle.std.specs.Prelude.{◌≡◌, ◌<◌, ◌≤◌, ◌^◌, ℕ, length, reverse, true, IfOk, OnOk, Some};
ghost use Rattle.slots.specs.Entries.{IsMarked};
ghost use Rattle.region_ends.specs.Common.{AreSound, IsAdded, looked_first, first_found, item_of, is_region, end_in_line, end_at, end_made, skip_at, tried_at, search_of, IsEnd, AnswersStand, is_shut_at, IsWalk, ShutStands, IsFirst, IsSearched, IsStep, TellsColumns, search_in, MaySearch, EndsBefore, seen, IsTried, IsSkip, GoesFurther};

use crate::keeping::item_of;
use crate::key_answers::KeyAnswers;
use crate::matching::Matcher;
use crate::offsets::{earlier_place, later_place, offset_place};
use crate::opening::known_opening;
use crate::passing::Walk;
use crate::skips::{SkipAnswer, skip_by};
use char_class::Sets;
use paint_rules::{RegionEnd, Which};
use pattern_match::{Attempt, Match, Programs};
use slots::Marks;
use std::alloc::Global;
use syn_base::{Externals, ItemId, Lines, List, Looked, Memory, Place};
use syntax_set::{ItemKind, ItemSet, Pattern};

/// What a search for the end of a region answers, with all lines that it looked at.
#[derive(Clone, Copy, PartialEq, Eq)]
pub enum EndAnswer {
    Ends(RegionEnd, Looked),
    /// There is no end in this line.
    NotHere(Looked),
    /// An attempt costs more than the budget before an answer stands.
    TooCostly,
}

/// What a step at a column comes to.
#[derive(Clone, Copy)]
pub(crate) enum Step {
    /// The search goes on at this column.
    GoOn(usize, Looked),
    Answer(EndAnswer),
}

/// What a search came to.
#[derive(Clone, Copy)]
pub(crate) struct Searched {
    pub answer: EndAnswer,
    /// Searches from the columns from here up to, and without, `to`, but for those that a skip jumped
    /// over, come to the same, if this one has looked at its line alone.
    pub first: usize,
    pub to: usize,
}

/// The search for the end of a region, from a place on.
#[derive(Clone, Copy)]
pub struct Searching<'a> {
    pub matcher: Matcher<'a>,
    pub items: &'a ItemSet,
    pub region: ItemId,
    pub externals: &'a Externals,
    pub from: Place,
}

/// An attempt, after some looks, with a look at the line where it ends.
fn seen(looked: Looked, tried: Attempt) -> Attempt
    requires { EndsBefore (2 ^ 63) tried }
    ensures { result ≡ seen looked tried }
{
    match tried {
        Attempt::Found(m, k) => {
            let more = looked.join(k).join(Looked::one(m.to.line as i64));
            Attempt::Found(m, more)
        }
        Attempt::Absent(k) => Attempt::Absent(looked.join(k)),
        Attempt::TooCostly => Attempt::TooCostly,
    }
}

/// From where on searches come to the same as from the column where one goes on: a look at another line
/// counts for what came before alone.
fn first_of(first: usize, next: usize, before: Looked, after: Looked) -> usize
    ensures { IsFirst result first next before after }
{
    if after == before { first } else { next }
}

/// Marks the columns between two, which a skip jumps over.
fn mark_between(jumped: &mut Marks, from: usize, to: usize) -> Result<(), Memory>
    requires { from < 2 ^ 63 }
    ensures between { OnOk result ((d : ℕ) → from < d → d < to → IsMarked jumped.new d) }
    ensures before { (d : ℕ) → IsMarked jumped.old d → IsMarked jumped.new d }
{
    for col in from + 1..to {
        jumped.put(col)?;
    }
    Ok(())
}

impl Walk<'_> {
    /// A skip or end pattern at a column.
    fn tried_at<T: Lines>(
        &self,
        lines: &T,
        pattern: &Pattern,
        c: usize,
        looked: Looked,
    ) -> Result<Attempt, Memory>
        requires walk { IsWalk self.now (T.lines lines.now) }
        requires added { IsAdded self.now.search.matcher.programs.now pattern.now }
        requires column { c ≤ length self.now.line.now }
        ensures { IfOk result (λ a. IsTried a self.now.search.region (looked_first (Some looked)
            (tried_at (search_in self.now.search (T.lines lines.now)) pattern.now c))) }
    {
        let before = pattern.lc as usize;
        if c < before {
            return Ok(Attempt::Absent(looked));
        }
        let search = self.search;
        let start = Place {
            line: search.from.line,
            col: c - before,
        };
        let tried = search
            .matcher
            .attempt(lines, pattern, self.ignore, search.externals, start)?;
        Ok(seen(looked, tried))
    }

    /// The end that a match of an end pattern makes.
    fn end_made<T: Lines>(&self, lines: &T, pattern: &Pattern, m: &Match) -> RegionEnd
        ensures { result ≡ end_made (search_in self.now.search (T.lines lines.now)) pattern.now
            m.now }
    {
        let from = self.search.from;
        let end = later_place(offset_place(lines, m, pattern, Which::Me), from);
        let high = earlier_place(offset_place(lines, m, pattern, Which::He), end);
        match pattern.matchgroup {
            None => RegionEnd {
                end,
                high_to: high,
                area_end: None,
                area_high: None,
                area_shows: None,
            },
            Some(group) => {
                let area = offset_place(lines, m, pattern, Which::Re);
                let begin = earlier_place(later_place(area, from), end);
                RegionEnd {
                    end: begin,
                    high_to: begin,
                    area_end: Some(end),
                    area_high: Some(high),
                    area_shows: Some(group),
                }
            }
        }
    }

    /// The first end pattern, the last written one first, that matches at a column.
    fn ends_at<T: Lines>(&self, lines: &T, c: usize, looked: Looked) -> Result<EndAnswer, Memory>
        requires walk { IsWalk self.now (T.lines lines.now) }
        requires column { c ≤ length self.now.line.now }
        ensures { IfOk result (λ a. IsEnd a self.now.search.region (looked_first (Some looked)
            (first_found (end_at (search_in self.now.search (T.lines lines.now)) c)
            (reverse self.now.ends.now)))) }
    {
        let mut seen = looked;
        let mut left = self.ends.len();
        'ends: while left > 0 {
            left -= 1;
            let pattern = self.ends.get(left);
            match self.tried_at(lines, pattern, c, seen)? {
                Attempt::Found(m, k) => {
                    return Ok(EndAnswer::Ends(self.end_made(lines, pattern, &m), k));
                }
                Attempt::Absent(k) => seen = k,
                Attempt::TooCostly => return Ok(EndAnswer::TooCostly),
            }
        }
        Ok(EndAnswer::NotHere(seen))
    }

    /// What the skip pattern says at a column.
    fn skip_at<T: Lines>(&self, lines: &T, c: usize, looked: Looked) -> Result<SkipAnswer, Memory>
        requires walk { IsWalk self.now (T.lines lines.now) }
        requires column { c ≤ length self.now.line.now }
        ensures is { IfOk result (λ a. IsSkip a self.now.search.region (looked_first (Some looked)
            (skip_at (search_in self.now.search (T.lines lines.now)) self.now.skip.now c))) }
        ensures further { IfOk result (λ a. GoesFurther a c (length self.now.line.now)) }
    {
        match self.skip {
            None => Ok(SkipAnswer::NoSkip(looked)),
            Some(pattern) => match self.tried_at(lines, pattern, c, looked)? {
                Attempt::Found(m, k) => {
                    let me = offset_place(lines, &m, pattern, Which::Me);
                    Ok(skip_by(self.search.from.line, c, self.line.len(), me, k))
                }
                Attempt::Absent(k) => Ok(SkipAnswer::NoSkip(k)),
                Attempt::TooCostly => Ok(SkipAnswer::TooCostly),
            },
        }
    }

    /// A step of the search, at a column.
    fn answer_at<T: Lines>(&self, lines: &T, c: usize, looked: Looked) -> Result<Step, Memory>
        requires walk { IsWalk self.now (T.lines lines.now) }
        requires column { c ≤ length self.now.line.now }
        ensures { IfOk result (IsStep self.now (T.lines lines.now) looked c) }
    {
        match self.skip_at(lines, c, looked)? {
            SkipAnswer::SkipTo(next, k) => Ok(Step::GoOn(next, k)),
            SkipAnswer::SkipLine(k) => Ok(Step::Answer(EndAnswer::NotHere(k))),
            SkipAnswer::TooCostly => Ok(Step::Answer(EndAnswer::TooCostly)),
            SkipAnswer::NoSkip(k) => match self.ends_at(lines, c, k)? {
                EndAnswer::Ends(e, k) => Ok(Step::Answer(EndAnswer::Ends(e, k))),
                EndAnswer::NotHere(k) => Ok(Step::GoOn(c + 1, k)),
                EndAnswer::TooCostly => Ok(Step::Answer(EndAnswer::TooCostly)),
            },
        }
    }

    /// The search over the columns of the line. Those where nothing can fit are passed over, and those
    /// that a skip jumps over are marked.
    fn search<T: Lines>(
        &self,
        lines: &T,
        shut: &mut KeyAnswers,
        jumped: &mut Marks,
    ) -> Result<Searched, Memory>
        requires walk { IsWalk self.now (T.lines lines.now) }
        requires shut { ShutStands self.now.search shut.old }
        ensures shut { ShutStands self.now.search shut.new }
        ensures searched { IfOk result (IsSearched self.now.search (T.lines lines.now) jumped.new) }
        ensures before { (d : ℕ) → IsMarked jumped.old d → IsMarked jumped.new d }
    {
        let last = self.line.len();
        let mut looked = Looked::one(self.search.from.line as i64);
        let mut c = self.search.from.col;
        let mut first = c;
        'columns: while c <= last {
            let busy = self.idle_until(c, shut);
            if busy > last {
                let answer = EndAnswer::NotHere(looked);
                let to = busy;
                return Ok(Searched { answer, first, to });
            }
            match self.answer_at(lines, busy, looked)? {
                Step::GoOn(next, k) => {
                    first = first_of(first, next, looked, k);
                    mark_between(jumped, busy, next)?;
                    c = next;
                    looked = k;
                }
                Step::Answer(answer) => {
                    let to = busy + 1;
                    return Ok(Searched { answer, first, to });
                }
            }
        }
        let answer = EndAnswer::NotHere(looked);
        let to = c;
        Ok(Searched { answer, first, to })
    }
}

impl Searching<'_> {
    /// The search for the end of the region in the line of its place. `shut` tells where no pattern of
    /// a region fits. Columns that a skip jumps over are marked.
    pub(crate) fn anew<T: Lines>(
        &self,
        lines: &T,
        shut: &mut KeyAnswers,
        jumped: &mut Marks,
    ) -> Result<Searched, Memory>
        requires may { MaySearch self.now (T.lines lines.now) }
        requires shut { ShutStands self.now shut.old }
        ensures shut { ShutStands self.now shut.new }
        ensures answer { IfOk result (λ s. IsEnd s.answer self.now.region (end_in_line
            (search_in self.now (T.lines lines.now)))) }
        ensures columns { IfOk result (TellsColumns self.now (T.lines lines.now) jumped.new) }
        ensures before { (d : ℕ) → IsMarked jumped.old d → IsMarked jumped.new d }
    {
        // The proof needs the bounds that this call tells of the text.
        let _count = lines.len();
        let item = item_of(self.items, self.region);
        match &item.kind {
            ItemKind::Region { skip, ends, .. } => {
                let walk = Walk {
                    search: *self,
                    ignore: item.ignore,
                    line: lines.line(self.from.line),
                    skip,
                    ends,
                    opening: known_opening(ends.as_slice(), item.ignore, self.externals),
                };
                walk.search(lines, shut, jumped)
            }
            ItemKind::Keyword | ItemKind::Match(_) => unreachable!(),
        }
    }

    /// The first end of the region in the line of a place, from that place on, with what is known, from
    /// line to line, of the columns at which no pattern of a region fits. From behind the line's end none
    /// is found.
    pub fn find_anew<T: Lines>(&self, lines: &T, shut: &mut KeyAnswers) -> Result<EndAnswer, Memory>
        requires may { MaySearch self.now (T.lines lines.now) }
        requires shut { AnswersStand (is_shut_at self.now.items.now self.now.matcher.sets.now
            self.now.matcher.budget) shut.old }
        ensures shut { AnswersStand (is_shut_at self.now.items.now self.now.matcher.sets.now
            self.now.matcher.budget) shut.new }
        ensures end { IfOk result (λ a. IsEnd a self.now.region (end_in_line
            (search_in self.now (T.lines lines.now)))) }
    {
        let mut jumped = Marks::new(self.matcher.alloc);
        let searched = self.anew(lines, shut, &mut jumped)?;
        Ok(searched.answer)
    }
}

/// The first end of a region in the line of a place, from that place on. From behind the line's end
/// none is found.
pub fn find_end<T: Lines>(
    alloc: Global,
    items: &ItemSet,
    programs: &Programs,
    sets: &Sets,
    lines: &T,
    region: ItemId,
    externals: &Externals,
    from: Place,
    budget: u64,
) -> Result<EndAnswer, Memory>
    requires sound { AreSound items.now programs.now }
    requires item { region.0 < length items.now }
    requires region { is_region (item_of items.now region).kind ≡ true }
    requires present { from.line < length (T.lines lines.now) }
    requires budget { 1 ≤ budget }
    ensures { IfOk result (λ a. IsEnd a region (end_in_line (search_of items.now sets.now budget
        (T.lines lines.now) region externals.now from))) }
{
    let matcher = Matcher {
        alloc,
        programs,
        sets,
        budget,
    };
    let searching = Searching {
        matcher,
        items,
        region,
        externals,
        from,
    };
    searching.find_anew(lines, &mut KeyAnswers::new(alloc))
}
