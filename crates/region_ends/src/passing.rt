//! Columns that a search passes over: by what stands there, neither the skip nor an end can fit.
ghost use Rattle.std.specs.Prelude.{◌≡◌, ◌≤◌, ◌<◌, ◌+◌, ℕ, suc, true, length, slice_get, IsTrue};
ghost use Rattle.std.specs.List.{list_all};
ghost use Rattle.region_ends.specs.Common.{key_of, is_unopened, are_shut, are_shut_anyway, are_shut_by, is_cheap, is_end_shut, is_shut, is_skip_shut, question_of, IsOfRegion, IsPassedOver, IsRowOf, IsYesAt, ShutStands};

use crate::key_answers::{Answer, KeyAnswers};
use crate::opening::{Opening, begins_with, stands};
use crate::searching::Searching;
use pattern_screens::{KEYS, Key, Last, Next, failing_cost, is_futile};
use syn_base::{List, Memory};
use syntax_set::Pattern;

/// A search, with the line that it goes over and the patterns that it tries there.
#[derive(Clone, Copy)]
pub(crate) struct Walk<'a> {
    pub(crate) search: Searching<'a>,
    /// Whether the region's item ignores case (`:syn-case`).
    pub(crate) ignore: bool,
    pub(crate) line: &'a [char],
    pub(crate) skip: &'a Option<Pattern>,
    pub(crate) ends: &'a List<Pattern>,
    /// What the ends begin with that begin with the text of an external.
    pub(crate) opening: Opening,
}

impl Walk<'_> {
    /// Whether a pattern can't fit at the columns with a key, whatever stands before them, and an
    /// attempt there is within the budget.
    fn is_shut(&self, pattern: &Pattern, key: Key) -> bool
        ensures { IsTrue result → is_shut (question_of self.now) key pattern.now ≡ true }
    {
        let matcher = self.search.matcher;
        pattern.lc == 0
            && is_futile(&pattern.tree, matcher.sets, self.ignore, key)
            && is_cheap(pattern, matcher.budget)
    }

    /// The same of the skip.
    fn is_skip_shut(&self, key: Key) -> bool
        ensures { IsTrue result → is_skip_shut (question_of self.now) key self.now.skip.now ≡ true }
    {
        match self.skip {
            None => true,
            Some(pattern) => self.is_shut(pattern, key),
        }
    }

    /// The same of each of some ends, unless it begins with the text of an external.
    fn are_all_shut(&self, patterns: &[Pattern], key: Key) -> bool
        ensures { IsTrue result → list_all (is_end_shut (question_of self.now) key) patterns.now
            ≡ true }
    {
        for pattern in patterns {
            if begins_with(pattern).is_none() && !self.is_shut(pattern, key) {
                return false;
            }
        }
        true
    }

    /// The same of the skip, and of the ends that don't begin with the text of an external.
    fn are_shut(&self, key: Key) -> bool
        ensures { IsTrue result → are_shut (question_of self.now) key ≡ true }
    {
        self.is_skip_shut(key) && self.are_all_shut(self.ends.as_slice(), key)
    }

    /// The same where this stands, whatever stands before.
    fn are_shut_anyway(&self, next: Next) -> bool
        ensures { IsTrue result → are_shut_anyway (question_of self.now) next ≡ true }
    {
        let at_first = Key {
            next,
            last: Last::Nothing,
        };
        let after_word = Key {
            next,
            last: Last::Keyword,
        };
        let after_other = Key {
            next,
            last: Last::Other,
        };
        self.are_shut(at_first) && self.are_shut(after_word) && self.are_shut(after_other)
    }

    /// The same at the columns for which an answer is kept by a number.
    #[inline(never)]
    fn are_shut_by(&self, number: u16) -> bool
        requires { number < 777 + 256 }
        ensures { IsTrue result → are_shut_by (question_of self.now) number ≡ true }
    {
        if number < KEYS {
            return self.are_shut(Key::numbered(number));
        }
        self.are_shut_anyway(Next::Code((number - KEYS) as u8))
    }

    /// The same, asked once: the answer is kept, if there is memory.
    #[inline(always)]
    fn are_known_shut(&self, number: u16, answers: &mut KeyAnswers) -> bool
        requires number { number < 777 + 256 }
        requires of { IsOfRegion self.now }
        requires answers { ShutStands self.now.search answers.old }
        ensures answers { ShutStands self.now.search answers.new }
        ensures shut { IsTrue result → are_shut_by (question_of self.now) number ≡ true }
    {
        match answers.known(number, self.search.region) {
            Some(shut) => shut,
            None => {
                let shut = self.are_shut_by(number);
                match answers.keep(number, self.search.region, shut) {
                    Ok(()) | Err(Memory) => shut,
                }
            }
        }
    }

    /// The same of a column, by the character that stands there alone, if it is below 256: this costs
    /// least to ask.
    fn is_told(&self, c: usize, answers: &mut KeyAnswers) -> bool
        requires of { IsOfRegion self.now }
        requires answers { ShutStands self.now.search answers.old }
        ensures answers { ShutStands self.now.search answers.new }
        ensures shut { IsTrue result → are_shut (question_of self.now)
            (key_of self.now.search.matcher.sets.now self.now.line.now c) ≡ true }
    {
        match self.at(c) {
            None => false,
            Some(next) => match u8::try_from(next) {
                Ok(code) => self.are_known_shut(KEYS + code as u16, answers),
                Err(_) => false,
            },
        }
    }

    /// What stands at a column.
    fn at(&self, c: usize) -> Option<char>
        ensures { result ≡ slice_get self.now.line.now c }
    {
        self.line.get(c).copied()
    }

    /// Whether no end that begins with the text of an external can begin at a column.
    fn is_unopened(&self, c: usize) -> bool
        ensures { result ≡ is_unopened self.now.opening (slice_get self.now.line.now c) }
    {
        match self.opening {
            Opening::Nothing => true,
            Opening::With(first, ignore) => !stands(first, ignore, self.at(c)),
            Opening::Unknown => false,
        }
    }

    /// Whether a column is passed over.
    #[inline(never)]
    fn passes(&self, c: usize, answers: &mut KeyAnswers) -> bool
        requires column { c ≤ length self.now.line.now }
        requires of { IsOfRegion self.now }
        requires answers { ShutStands self.now.search answers.old }
        ensures answers { ShutStands self.now.search answers.new }
        ensures passed { IsTrue result → IsPassedOver self.now c }
    {
        if !self.is_unopened(c) {
            return false;
        }
        if self.is_told(c, answers) {
            return true;
        }
        let key = Key::of(self.search.matcher.sets, self.line, c);
        self.are_known_shut(key.number(), answers)
    }

    /// Whether a column is known to be passed over, by what was answered of the region: by its character
    /// alone, or by its key.
    #[inline(always)]
    fn is_known_idle(&self, c: usize, row: &[Answer]) -> bool
        requires column { c ≤ length self.now.line.now }
        requires row { IsRowOf self.now row.now }
        ensures { IsTrue result → IsPassedOver self.now c }
    {
        if !self.is_unopened(c) {
            return false;
        }
        match self.at(c) {
            None => false,
            Some(next) => match u8::try_from(next) {
                Ok(code) => {
                    if is_yes(row, KEYS + code as u16) {
                        return true;
                    }
                    let key = Key::of(self.search.matcher.sets, self.line, c);
                    is_yes(row, key.number())
                }
                Err(_) => false,
            },
        }
    }

    /// A column from one on, before which all are known to be passed over, by what was answered of the
    /// region.
    #[inline(always)]
    fn idle_by_row(&self, c: usize, row: &[Answer]) -> usize
        requires column { c ≤ length self.now.line.now }
        requires row { IsRowOf self.now row.now }
        ensures from { c ≤ result }
        ensures within { result ≤ length self.now.line.now }
        ensures idle { (k : ℕ) → c ≤ k → k < result → IsPassedOver self.now k }
    {
        if row.len() < KEYS as usize + 256 {
            return c;
        }
        for col in c..self.line.len() {
            if !self.is_known_idle(col, row) {
                return col;
            }
        }
        self.line.len()
    }

    /// The same, by what is kept.
    #[inline(always)]
    fn known_idle_until(&self, c: usize, answers: &KeyAnswers) -> usize
        requires column { c ≤ length self.now.line.now }
        requires of { IsOfRegion self.now }
        requires answers { ShutStands self.now.search answers.now }
        ensures from { c ≤ result }
        ensures within { result ≤ length self.now.line.now }
        ensures idle { (k : ℕ) → c ≤ k → k < result → IsPassedOver self.now k }
    {
        match answers.row(self.search.region) {
            None => c,
            Some(row) => self.idle_by_row(c, row),
        }
    }

    /// The first column from one on that isn't passed over; where all are, that behind the line's
    /// end.
    pub(crate) fn idle_until(&self, c: usize, answers: &mut KeyAnswers) -> usize
        requires column { c ≤ length self.now.line.now }
        requires of { IsOfRegion self.now }
        requires answers { ShutStands self.now.search answers.old }
        ensures answers { ShutStands self.now.search answers.new }
        ensures from { c ≤ result }
        ensures within { result ≤ suc (length self.now.line.now) }
        ensures idle { (k : ℕ) → c ≤ k → k < result → IsPassedOver self.now k }
    {
        let last = self.line.len();
        let mut col = c;
        'columns: while col <= last {
            let known = self.known_idle_until(col, answers);
            if !self.passes(known, answers) {
                return known;
            }
            col = known + 1;
        }
        col
    }
}

/// Whether an answer by a number is yes.
#[inline(always)]
fn is_yes(row: &[Answer], number: u16) -> bool
    ensures { IsTrue result → IsYesAt row.now number }
{
    match row.get(number as usize) {
        Some(Answer::Yes) => true,
        _ => false,
    }
}

/// Whether an attempt of a pattern where its screen fails is within a budget.
fn is_cheap(pattern: &Pattern, budget: u64) -> bool
    ensures { IsTrue result → is_cheap budget pattern.now ≡ true }
{
    match failing_cost(&pattern.tree) {
        Some(cost) => cost <= budget,
        None => false,
    }
}
