//! Columns from which an item isn't matched by its first start pattern, by what stands there.
ghost use Rattle.std.specs.Prelude.{◌≡◌, ◌<◌, ◌≤◌, ◌+◌, ℕ, List, true, IfOk, IfSome, IsTrue};
ghost use Rattle.item_pick.specs.Common.{Text, line_at, Rules, IsAnchored, IsFirst, IsFirstOf, TakesFirst, AreFirstsOf, IsMissed, IsNumberAt, LineStands, rules_by};

use crate::asked::Asked;
use crate::firsts::{Firsts, Question};
use crate::line_known::LineKnown;
use crate::picking::StartBy;
use pattern_screens::takes_first;
use syn_base::Memory;

impl Firsts {
    /// Whether no match by an item's first start pattern begins at a column, by the key one behind.
    #[inline(always)]
    pub(crate) fn is_missed_by(
        &mut self,
        asked: &Asked,
        by: &StartBy<'_>,
        col: usize,
        behind: Option<u16>,
    ) -> Result<bool, Memory>
        requires first { IsFirstOf (rules_by asked.now) by.now }
        requires stands { AreFirstsOf (rules_by asked.now) self.old }
        ensures stands { AreFirstsOf (rules_by asked.now) self.new }
        ensures missed { IfOk result (λ missed. IsTrue missed → (line : List ℕ) →
            IfSome behind (IsNumberAt (rules_by asked.now) line (col + 1)) →
            IsMissed (rules_by asked.now) line by.now.item by.now.pattern.now col) }
    {
        match behind {
            Some(number) if takes_first(&by.pattern.tree, col > 0) => {
                self.ask(asked, by, Question::Before, number)
            }
            _ => Ok(false),
        }
    }

    /// The same, where it is known by what stands at the column or one column behind. It may be told that
    /// the pattern's first piece is of one character, behind the line's first column.
    #[inline(always)]
    fn is_told_missed(&self, line: &LineKnown, by: &StartBy<'_>, takes: bool, col: usize) -> bool
        ensures { IsTrue result → (r : Rules) (t : Text) (l : ℕ) →
            AreFirstsOf r self.now → IsFirst r by.now.item by.now.pattern.now →
            (takes ≡ true → TakesFirst r by.now.item) →
            LineStands r t l line.now →
            IsMissed r (line_at t l) by.now.item by.now.pattern.now col }
    {
        let Some(number) = line.number_at(col) else {
            return false;
        };
        if self.is_told(Question::Here, number, by.item) {
            return true;
        }
        if !takes {
            return false;
        }
        match line.number_behind(col) {
            Some(behind) => self.is_told(Question::Before, behind, by.item),
            None => false,
        }
    }

    /// The first column from one on of which that isn't known. An item that is anchored matches from a
    /// line's first column alone.
    #[inline(always)]
    fn told_until(
        &self,
        line: &LineKnown,
        by: &StartBy<'_>,
        anchored: bool,
        takes: bool,
        from: usize,
    ) -> usize
        ensures from { from ≤ result }
        ensures missed { (r : Rules) (t : Text) (l : ℕ) →
            AreFirstsOf r self.now → IsFirst r by.now.item by.now.pattern.now →
            (anchored ≡ true → IsAnchored r by.now.item) →
            (takes ≡ true → TakesFirst r by.now.item) → LineStands r t l line.now →
            (c : ℕ) → from ≤ c → c < result →
            IsMissed r (line_at t l) by.now.item by.now.pattern.now c }
    {
        let end = line.numbers.len();
        for col in from..end {
            if anchored && col > 0 {
                return end;
            }
            if !self.is_told_missed(line, by, takes, col) {
                return col;
            }
        }
        from.max(end)
    }

    /// Whether no match by an item's first start pattern begins at a column, by what stands there or
    /// one column behind. What is asked is kept.
    #[inline(never)]
    fn is_missed_at(
        &mut self,
        line: &LineKnown,
        asked: &Asked,
        by: &StartBy<'_>,
        col: usize,
    ) -> Result<bool, Memory>
        requires first { IsFirstOf (rules_by asked.now) by.now }
        requires stands { AreFirstsOf (rules_by asked.now) self.old }
        ensures stands { AreFirstsOf (rules_by asked.now) self.new }
        ensures missed { IfOk result (λ missed. IsTrue missed → (t : Text) (l : ℕ) →
            LineStands (rules_by asked.now) t l line.now →
            IsMissed (rules_by asked.now) (line_at t l) by.now.item by.now.pattern.now col) }
    {
        let Some(number) = line.number_at(col) else {
            return Ok(false);
        };
        if self.ask(asked, by, Question::Here, number)? {
            return Ok(true);
        }
        self.is_missed_by(asked, by, col, line.number_after(col))
    }

    /// The first column from one on from which an item may match by its first start pattern, by what
    /// stands there or one column behind.
    pub(crate) fn first_open(
        &mut self,
        line: &LineKnown,
        asked: &Asked,
        by: &StartBy<'_>,
        from: usize,
    ) -> Result<usize, Memory>
        requires first { IsFirstOf (rules_by asked.now) by.now }
        requires stands { AreFirstsOf (rules_by asked.now) self.old }
        ensures stands { AreFirstsOf (rules_by asked.now) self.new }
        ensures from { IfOk result (λ to. from ≤ to) }
        ensures missed { IfOk result (λ to. (t : Text) (l : ℕ) →
            LineStands (rules_by asked.now) t l line.now →
            (c : ℕ) → from ≤ c → c < to →
            IsMissed (rules_by asked.now) (line_at t l) by.now.item by.now.pattern.now c) }
    {
        let reach = self.reach(asked, by)?;
        let mut col = self.told_until(line, by, reach.anchored, reach.takes, from);
        'columns: while col < line.numbers.len() {
            if !self.is_missed_at(line, asked, by, col)? {
                return Ok(col);
            }
            col = self.told_until(line, by, reach.anchored, reach.takes, col + 1);
        }
        Ok(col)
    }
}
