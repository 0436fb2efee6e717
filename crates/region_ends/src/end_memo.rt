//! What is remembered of a line: where regions end in it.
ghost use Rattle.std.specs.Prelude.{◌≡◌, ◌<◌, ◌≤◌, ◌^◌, ℕ, List, length, true, IfOk, IfSome, IsTrue};
ghost use Rattle.region_ends.specs.Common.{Text, AddedItem, no_externals, end_in_line, search_of, IsEnd, answer_at, EndMemoStands, KnownStands, IsKept, TellsOf, AnswersStand, is_shut_at, MaySearch, search_in};
ghost use Rattle.char_class.specs.declared.sets.Sets.{Sets as SetsRules};

use crate::key_answers::KeyAnswers;
use crate::searching::{EndAnswer, Searched, Searching};
use paint_rules::RegionEnd;
use slots::{Marks, Slots};
use std::alloc::Global;
use syn_base::{Externals, ItemId, Lines, Looked, Memory, Place};

/// Searches for the end of a region without externals, from the columns from `first` up to, and
/// without, `to`, find this end, or none, and look at the line alone. Those from behind the end, and from
/// columns that a skip jumped over, are no such searches.
#[derive(Clone, Copy)]
pub(crate) struct Known {
    pub(crate) region: ItemId,
    pub(crate) first: usize,
    pub(crate) to: usize,
    pub(crate) end: Option<RegionEnd>,
}

/// What searches in a line came to: of each region the last one, if it had no externals.
#[derive(Drop)]
pub struct EndMemo {
    /// By the number of the region.
    searches: Slots<Known>,
    /// The columns that the skip of some region jumped over.
    jumped: Marks,
}

/// What a search came to, if it may be kept: it looked at its line alone.
#[inline(always)]
fn known_by(region: ItemId, line: usize, searched: &Searched) -> Option<Known>
    requires { line < 2 ^ 63 }
    ensures { IfSome result (IsKept region line searched.now) }
{
    let one = Looked::one(line as i64);
    let end = match searched.answer {
        EndAnswer::Ends(end, looked) => {
            if looked != one {
                return None;
            }
            Some(end)
        }
        EndAnswer::NotHere(looked) => {
            if looked != one {
                return None;
            }
            None
        }
        EndAnswer::TooCostly => return None,
    };
    Some(Known {
        region,
        first: searched.first,
        to: searched.to,
        end,
    })
}

/// The answer of a search that looked at one line.
fn answer_at(end: Option<RegionEnd>, line: usize) -> EndAnswer
    requires { line < 2 ^ 63 }
    ensures { result ≡ answer_at end line }
{
    let one = Looked::one(line as i64);
    match end {
        Some(end) => EndAnswer::Ends(end, one),
        None => EndAnswer::NotHere(one),
    }
}

impl Known {
    /// Whether it tells of the search of a region from a place, if no skip jumped over that.
    fn tells_of(&self, region: ItemId, from: Place) -> bool
        ensures { IsTrue result → TellsOf self.now region from }
    {
        let holds = self.region == region && self.first <= from.col && from.col < self.to;
        match self.end {
            Some(end) => holds && from <= end.end,
            None => holds,
        }
    }
}

impl EndMemo {
    /// Nothing is known. It takes no memory.
    pub fn new(alloc: Global) -> EndMemo
        ensures { (items : List AddedItem) (sets : SetsRules) (budget : ℕ) (t : Text) (l : ℕ) →
            EndMemoStands items sets budget t l result }
    {
        EndMemo {
            searches: Slots::new(alloc),
            jumped: Marks::new(alloc),
        }
    }

    /// Forgets what was known, for another line.
    pub fn clear(&mut self)
        ensures { (items : List AddedItem) (sets : SetsRules) (budget : ℕ) (t : Text) (l : ℕ) →
            EndMemoStands items sets budget t l self.new }
    {
        self.searches.clear();
        self.jumped.clear();
    }

    /// The end that the search of a region from a place is known to find, or that it finds none.
    fn known(&self, region: ItemId, from: Place) -> Option<Option<RegionEnd>>
        ensures { (items : List AddedItem) (sets : SetsRules) (budget : ℕ) (t : Text) →
            EndMemoStands items sets budget t from.line self.now →
            IfSome result (λ end. IsEnd (answer_at end from.line) region
            (end_in_line (search_of items sets budget t region no_externals from))) }
    {
        let known = self.searches.get(region.0 as usize)?;
        if known.tells_of(region, from) && !self.jumped.has(from.col) {
            Some(known.end)
        } else {
            None
        }
    }

    /// Keeps what is known of a region.
    #[inline(always)]
    fn keep(&mut self, known: Known) -> Result<(), Memory>
        ensures { (items : List AddedItem) (sets : SetsRules) (budget : ℕ) (t : Text) (l : ℕ) →
            EndMemoStands items sets budget t l self.old →
            KnownStands items sets budget t l self.old.jumped known →
            EndMemoStands items sets budget t l self.new }
    {
        self.searches.put(known.region.0 as usize, known)
    }
}

impl Searching<'_> {
    /// The same as `find_anew`, with what is known of the line (`EndMemo::clear`) and, from line to line,
    /// of the columns at which no pattern of a region fits. `none` are nine empty texts
    /// (`Externals::none`): a search with other externals is made anew.
    pub fn find<T: Lines>(
        &self,
        lines: &T,
        none: &Externals,
        memo: &mut EndMemo,
        shut: &mut KeyAnswers,
    ) -> Result<EndAnswer, Memory>
        requires may { MaySearch self.now (T.lines lines.now) }
        requires none { none.now ≡ no_externals }
        requires memo { EndMemoStands self.now.items.now self.now.matcher.sets.now
            self.now.matcher.budget (T.lines lines.now) self.now.from.line memo.old }
        requires shut { AnswersStand (is_shut_at self.now.items.now self.now.matcher.sets.now
            self.now.matcher.budget) shut.old }
        ensures end { IfOk result (λ a. IsEnd a self.now.region (end_in_line
            (search_in self.now (T.lines lines.now)))) }
        ensures memo { EndMemoStands self.now.items.now self.now.matcher.sets.now
            self.now.matcher.budget (T.lines lines.now) self.now.from.line memo.new }
        ensures shut { AnswersStand (is_shut_at self.now.items.now self.now.matcher.sets.now
            self.now.matcher.budget) shut.new }
    {
        if !self.externals.same(none) {
            return self.find_anew(lines, shut);
        }
        // The proof needs the bounds that this call tells of the text.
        let _count = lines.len();
        match memo.known(self.region, self.from) {
            Some(end) => return Ok(answer_at(end, self.from.line)),
            None => {}
        }
        let searched = self.anew(lines, shut, &mut memo.jumped)?;
        match known_by(self.region, self.from.line, &searched) {
            Some(known) => memo.keep(known)?,
            None => {}
        }
        Ok(searched.answer)
    }
}
