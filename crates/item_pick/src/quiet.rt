//! Columns at which nothing starts, by what stands there.
ghost use Rattle.std.specs.Prelude.{◌≡◌, ◌<◌, ℕ, List, [], length, reverse, IfOk, IfSome, IsTrue, None, true};
ghost use Rattle.item_pick.specs.Common.{Text, line_at, Rules, place_at, keyword_at, is_free, Fits, IsQuietAt, IsQuietUntil, HoldsLine, ArePassed, AreSettled, ChoiceFits, IsNextAt, IsNumberAt, IsPlace, IsSound, IsWordless, MemoryStands, MayAsk, rules_by, MayBeAsked, MayPick};
ghost use Rattle.item_pick.specs.declared.choice.Choice.{Choice as ChoiceOf};
ghost use Rattle.pattern_screens.specs.Keys.{key_numbered};
ghost use Rattle.pattern_screens.specs.declared.key.Last.TheVariants as last;

use crate::asked::Asked;
use crate::choice::Choice;
use crate::memory::PickMemory;
use crate::picking::{Picking, Query};
use crate::runs::Search;
use pattern_screens::{KEYS, Key, Last};
use state_stack::Stack;
use syn_base::{Lines, Looked, Memory, Place};

impl PickMemory {
    /// The first column from a place of a present line on at which something may start, where no item has
    /// started there: it stops where a keyword starts, and where what stands there may begin an item. None
    /// is sought from `end` or the line's end on; the place itself where that lies before it. The line has
    /// to be entered (`enter_line`).
    pub fn quiet_until<T: Lines>(
        &mut self,
        query: &Query<'_, T>,
        end: usize,
    ) -> Result<usize, Memory>
        requires may { MayBeAsked T.lines query.now self.old }
        requires none_tried { query.now.tried.now ≡ [] }
        ensures quiet { IfOk result (IsQuietUntil (rules_by query.now.asked.now)
            (T.lines query.now.lines.now) query.now.at (reverse query.now.state.now.stack)
            query.now.floor query.now.looked) }
        ensures memory { MemoryStands (rules_by query.now.asked.now) (T.lines query.now.lines.now)
            query.now.at.line self.new }
    {
        let _count = query.lines.len();
        let tried = query.tried_items()?;
        query
            .picking(&tried)
            .quiet_until(&query.state.stack, query.looked, end, self)
    }
}

impl<T: Lines> Picking<'_, T> {
    /// Whether it is known at once that no item of a choice is left at a column whose key has a number.
    /// Up to `settled`, and without it, those that wander don't start; from there on nothing is said.
    #[inline(always)]
    fn is_still_at(
        &self,
        choice: Choice,
        number: u16,
        col: usize,
        looked: Looked,
        settled: usize,
        memory: &PickMemory,
    ) -> Option<bool>
        requires number { IsNumberAt (rules_by self.now.asked.now)
            (line_at (T.lines self.now.lines.now) self.now.at.line) col number }
        requires settled { col < settled → ArePassed (rules_by self.now.asked.now)
            (T.lines self.now.lines.now) self.now.at.line choice self.now.floor looked true col }
        requires may { MayPick T.lines self.now looked memory.now }
        ensures { IfSome result (λ still. IsTrue still → IsNextAt (rules_by self.now.asked.now)
            (T.lines self.now.lines.now) (place_at self.now.at.line col) self.now.floor looked [] choice
            (length (rules_by self.now.asked.now).items) 0) }
    {
        if settled <= col {
            return None;
        }
        memory
            .tables
            .is_still(&memory.line, self.asked, choice, number, col, looked)
    }

    /// Whether it is known that no item of a choice is left at a column whose key has a number: by the
    /// row.
    fn no_item_left(
        &self,
        choice: Choice,
        number: u16,
        col: usize,
        looked: Looked,
        memory: &mut PickMemory,
    ) -> Result<bool, Memory>
        requires none_tried { self.now.tried.now ≡ [] }
        requires choice { ChoiceFits (rules_by self.now.asked.now) choice }
        requires number { IsNumberAt (rules_by self.now.asked.now)
            (line_at (T.lines self.now.lines.now) self.now.at.line) col number }
        requires may { MayPick T.lines self.now looked memory.old }
        ensures none { IfOk result (λ none. IsTrue none → IsNextAt (rules_by self.now.asked.now)
            (T.lines self.now.lines.now) (place_at self.now.at.line col) self.now.floor looked [] choice
            (length (rules_by self.now.asked.now).items) 0) }
        ensures may { MayAsk T.lines self.now memory.new }
    {
        let search = Search {
            at: col,
            floor: self.floor,
            looked,
            tried: self.tried,
            line: &memory.line,
        };
        let count = self.asked.parts.items.added();
        let left = memory
            .tables
            .left_in(self.asked, choice, number, &search, count)?;
        Ok(left == 0)
    }

    /// Whether no keyword of a choice starts at a column whose key has a number. None does where the
    /// choice is told to be wordless.
    #[inline(always)]
    fn no_keyword_starts(
        &self,
        choice: Choice,
        number: u16,
        col: usize,
        wordless: bool,
    ) -> Result<bool, Memory>
        requires number { IsNumberAt (rules_by self.now.asked.now)
            (line_at (T.lines self.now.lines.now) self.now.at.line) col number }
        requires column { col < length (line_at (T.lines self.now.lines.now) self.now.at.line) }
        requires none_tried { self.now.tried.now ≡ [] }
        requires choice { ChoiceFits (rules_by self.now.asked.now) choice }
        requires wordless { IsTrue wordless → IsWordless (rules_by self.now.asked.now) choice }
        requires valid { IsSound self.now.asked.now }
        requires place { IsPlace (T.lines self.now.lines.now) self.now.at }
        ensures { IfOk result (λ none. IsTrue none → keyword_at (rules_by self.now.asked.now)
            (is_free (rules_by self.now.asked.now) [] choice)
            (line_at (T.lines self.now.lines.now) self.now.at.line) col ≡ None) }
    {
        if has_no_word(number, wordless) {
            return Ok(true);
        }
        let at = Place {
            line: self.at.line,
            col,
        };
        let here = Picking { at, ..*self };
        if !here.may_begin_word() {
            return Ok(true);
        }
        Ok(here.keyword(choice)?.is_none())
    }

    /// Whether it is known that no item of a choice is left at a column whose key has a number, and no
    /// keyword starts there: none does where the choice is told to be wordless.
    #[inline(never)]
    fn is_quiet_by_row(
        &self,
        choice: Choice,
        number: u16,
        col: usize,
        looked: Looked,
        wordless: bool,
        memory: &mut PickMemory,
    ) -> Result<bool, Memory>
        requires number { IsNumberAt (rules_by self.now.asked.now)
            (line_at (T.lines self.now.lines.now) self.now.at.line) col number }
        requires column { col < length (line_at (T.lines self.now.lines.now) self.now.at.line) }
        requires none_tried { self.now.tried.now ≡ [] }
        requires choice { ChoiceFits (rules_by self.now.asked.now) choice }
        requires wordless { IsTrue wordless → IsWordless (rules_by self.now.asked.now) choice }
        requires may { MayPick T.lines self.now looked memory.old }
        ensures quiet { IfOk result (λ quiet. IsTrue quiet → IsQuietAt
            (rules_by self.now.asked.now) (T.lines self.now.lines.now) choice self.now.floor looked
            (place_at self.now.at.line col)) }
        ensures may { MayAsk T.lines self.now memory.new }
    {
        if !self.no_item_left(choice, number, col, looked, memory)? {
            return Ok(false);
        }
        self.no_keyword_starts(choice, number, col, wordless)
    }

    /// Whether it is known that no item of a choice starts at a column.
    #[inline(always)]
    fn is_quiet(
        &self,
        choice: Choice,
        col: usize,
        looked: Looked,
        settled: usize,
        wordless: bool,
        memory: &mut PickMemory,
    ) -> Result<bool, Memory>
        requires column { col < length (line_at (T.lines self.now.lines.now) self.now.at.line) }
        requires none_tried { self.now.tried.now ≡ [] }
        requires choice { ChoiceFits (rules_by self.now.asked.now) choice }
        requires settled { col < settled → ArePassed (rules_by self.now.asked.now)
            (T.lines self.now.lines.now) self.now.at.line choice self.now.floor looked true col }
        requires wordless { IsTrue wordless → IsWordless (rules_by self.now.asked.now) choice }
        requires may { MayPick T.lines self.now looked memory.old }
        ensures quiet { IfOk result (λ quiet. IsTrue quiet → IsQuietAt
            (rules_by self.now.asked.now) (T.lines self.now.lines.now) choice self.now.floor looked
            (place_at self.now.at.line col)) }
        ensures may { MayAsk T.lines self.now memory.new }
    {
        let Some(number) = memory.line.number_at(col) else {
            return Ok(false);
        };
        match self.is_still_at(choice, number, col, looked, settled, memory) {
            Some(still) => {
                if !still {
                    return Ok(false);
                }
                self.no_keyword_starts(choice, number, col, wordless)
            }
            None => self.is_quiet_by_row(choice, number, col, looked, wordless, memory),
        }
    }

    /// Up to which column it is known that no items of a choice start that wander.
    fn settled_until(&self, choice: Choice, looked: Looked, memory: &PickMemory) -> usize
        ensures { (r : Rules) (t : Text) (l : ℕ) → MemoryStands r t l memory.now →
            HoldsLine looked l →
            AreSettled r t l choice self.now.floor looked self.now.at.col result }
    {
        let search = Search {
            at: self.at.col,
            floor: self.floor,
            looked,
            tried: self.tried,
            line: &memory.line,
        };
        memory.tables.settled_until(choice, &search)
    }

    /// The first column at which something may start on a stack; none is sought from `end` on.
    fn quiet_until(
        &self,
        stack: &Stack,
        looked: Looked,
        end: usize,
        memory: &mut PickMemory,
    ) -> Result<usize, Memory>
        requires none_tried { self.now.tried.now ≡ [] }
        requires frames { Fits (length self.now.asked.now.parts.now.items.now)
            (reverse stack.now) }
        requires may { MayPick T.lines self.now looked memory.old }
        ensures quiet { IfOk result (IsQuietUntil (rules_by self.now.asked.now)
            (T.lines self.now.lines.now) self.now.at (reverse stack.now) self.now.floor looked) }
        ensures may { MayAsk T.lines self.now memory.new }
    {
        let choice = self.allowed(stack);
        let last = self.last();
        let end = end.min(last).max(self.at.col);
        if memory.tables.is_bare(choice) {
            return Ok(end);
        }
        let settled = self.settled_until(choice, looked, memory);
        let wordless = memory.tables.is_wordless(choice);
        for col in self.at.col..end {
            let quiet = self.is_quiet(choice, col, looked, settled, wordless, memory)?;
            if !quiet {
                return Ok(col);
            }
        }
        Ok(end)
    }
}

/// Whether it is known that no keyword of a choice starts at a column whose key has a number: none does
/// behind a keyword character, nor where the choice is told to be wordless.
#[inline(always)]
fn has_no_word(number: u16, wordless: bool) -> bool
    ensures { IsTrue result → (r : Rules) (choice : ChoiceOf) (line : List ℕ) (col : ℕ) →
        (IsTrue wordless → IsWordless r choice) → IsNumberAt r line col number →
        keyword_at r (is_free r [] choice) line col ≡ None }
{
    if wordless {
        return true;
    }
    is_after_keyword(number)
}

/// Whether a keyword character stands before a column whose key has a number.
#[inline(always)]
fn is_after_keyword(number: u16) -> bool
    ensures { IsTrue result → (key_numbered number).last ≡ last.Keyword }
{
    number < KEYS && Key::numbered(number).last == Last::Keyword
}
