//! Items that may start at a column.
ghost use Rattle.std.specs.Prelude.{◌≡◌, ◌<◌, ◌≤◌, ℕ, false, suc, get_or, length, nat_lt, reverse, IfOk, IfSome, IsTrue};
ghost use Rattle.std.specs.List.{list_any};
ghost use Rattle.std.specs.List.Sorted.{IsNonDecreasing};
ghost use Rattle.item_pick.specs.Common.{Text, Rules, line_at, place_at, IsPassed, IsQuiet, item_numbered, same_item, HoldsLine, ChoiceFits, AreKnown, AreTablesOf, IsLastFree, IsListed, IsNextAt, IsNextIn, IsNumberAt, LineStands, rules_by};

use crate::asked::Asked;
use crate::choice::Choice;
use crate::firsts::Question;
use crate::line_known::LineKnown;
use crate::runs::Search;
use crate::tables::Tables;
use syn_base::{ItemId, Looked, Memory};

impl Tables {
    /// Whether an item has started at a column, or is known not to: also by what stands there or one column
    /// behind.
    fn is_over(&self, _asked: &Asked, id: u32, search: &Search<'_>) -> bool
        ensures passed { IsTrue result → (t : Text) (l : ℕ) →
            AreKnown (rules_by _asked.now) t l self.now
            search.now.line.now → search.now.at ≤ length (line_at t l) →
            HoldsLine search.now.looked l →
            IsPassed (rules_by _asked.now) t (place_at l search.now.at)
            search.now.floor search.now.looked (reverse search.now.tried.now)
            (item_numbered id) }
        ensures untried { result ≡ false →
            list_any (same_item (item_numbered id)) (reverse search.now.tried.now) ≡ false }
    {
        if search.is_passed(id) {
            return true;
        }
        match search.line.number_behind(search.at) {
            Some(behind) => {
                if self.firsts.is_idle(id, behind) {
                    return true;
                }
            }
            None => {}
        }
        match search.line.number_at(search.at) {
            Some(number) => self.fails_behind(id, search.line, number, search.looked),
            None => false,
        }
    }

    /// Whether an item is known not to start at a column whose key has a number, since what follows its
    /// look behind fails there.
    #[inline(always)]
    pub(crate) fn fails_behind(
        &self,
        id: u32,
        line: &LineKnown,
        number: u16,
        looked: Looked,
    ) -> bool
        ensures { IsTrue result → (r : Rules) (t : Text) (l at floor : ℕ) →
            AreKnown r t l self.now line.now → IsNumberAt r (line_at t l) at number →
            HoldsLine looked l → IsQuiet r t (place_at l at) floor looked (item_numbered id) }
    {
        if !line.is_near(id, looked) {
            return false;
        }
        self.firsts.is_told(Question::Behind, number, ItemId(id))
    }

    /// The number behind the last item of a list, whose numbers rise, that is below another one and may
    /// start at a column; 0 where there is none.
    fn next_open(&self, asked: &Asked, list: &[u32], left: usize, search: &Search<'_>) -> usize
        ensures next { IsNonDecreasing list.now → (t : Text) (l : ℕ) →
            AreKnown (rules_by asked.now) t l self.now
            search.now.line.now → search.now.at ≤ length (line_at t l) →
            HoldsLine search.now.looked l →
            IsNextIn (rules_by asked.now) t (place_at l search.now.at)
            search.now.floor search.now.looked (reverse search.now.tried.now) list.now left
            result }
        ensures last { (j : ℕ) → result ≡ suc j → IsListed list.now j
            × (list_any (same_item (item_numbered j)) (reverse search.now.tried.now) ≡ false) }
    {
        let mut count = count_below(list, left);
        'items: while count > 0 {
            count -= 1;
            let id = list[count];
            if !self.is_over(asked, id, search) {
                return id as usize + 1;
            }
        }
        0
    }

    /// The number of items that are left by a row, if it was made.
    #[inline(always)]
    fn left_by(
        &self,
        asked: &Asked,
        choice: Choice,
        number: u16,
        search: &Search<'_>,
        left: usize,
    ) -> Option<usize>
        requires { left ≤ length asked.now.parts.now.items.now }
        ensures free { AreTablesOf (rules_by asked.now) self.now → IfSome result
            (IsLastFree (rules_by asked.now) (reverse search.now.tried.now) choice) }
        ensures next { (t : Text) (l : ℕ) →
            AreKnown (rules_by asked.now) t l self.now
            search.now.line.now →
            IsNumberAt (rules_by asked.now) (line_at t l) search.now.at
            number → HoldsLine search.now.looked l →
            IfSome result (IsNextAt (rules_by asked.now) t
            (place_at l search.now.at) search.now.floor search.now.looked
            (reverse search.now.tried.now) choice left) }
    {
        let row = self.row(choice, number)?;
        Some(self.next_open(asked, &row.items, left, search))
    }

    /// The number of items that are left, once those behind them are passed over that a choice
    /// hasn't, or that don't start at a column whose key has a number. A row that was made is there.
    pub(crate) fn left_in(
        &mut self,
        asked: &Asked,
        choice: Choice,
        number: u16,
        search: &Search<'_>,
        left: usize,
    ) -> Result<usize, Memory>
        requires choice { ChoiceFits (rules_by asked.now) choice }
        requires stands { AreTablesOf (rules_by asked.now) self.old }
        requires items { left ≤ length asked.now.parts.now.items.now }
        ensures stands { AreTablesOf (rules_by asked.now) self.new }
        ensures free { IfOk result
            (IsLastFree (rules_by asked.now) (reverse search.now.tried.now) choice) }
        ensures next { (t : Text) (l : ℕ) →
            LineStands (rules_by asked.now) t l search.now.line.now →
            IsNumberAt (rules_by asked.now) (line_at t l) search.now.at
            number → HoldsLine search.now.looked l →
            IfOk result (IsNextAt (rules_by asked.now) t
            (place_at l search.now.at) search.now.floor search.now.looked
            (reverse search.now.tried.now) choice left) }
    {
        match self.left_by(asked, choice, number, search, left) {
            Some(next) => Ok(next),
            None => self.left_in_new(asked, choice, number, search, left),
        }
    }

    /// The same, where the row wasn't made yet.
    #[inline(never)]
    fn left_in_new(
        &mut self,
        asked: &Asked,
        choice: Choice,
        number: u16,
        search: &Search<'_>,
        left: usize,
    ) -> Result<usize, Memory>
        requires choice { ChoiceFits (rules_by asked.now) choice }
        requires stands { AreTablesOf (rules_by asked.now) self.old }
        requires items { left ≤ length asked.now.parts.now.items.now }
        ensures stands { AreTablesOf (rules_by asked.now) self.new }
        ensures free { IfOk result
            (IsLastFree (rules_by asked.now) (reverse search.now.tried.now) choice) }
        ensures next { (t : Text) (l : ℕ) →
            LineStands (rules_by asked.now) t l search.now.line.now →
            IsNumberAt (rules_by asked.now) (line_at t l) search.now.at
            number → HoldsLine search.now.looked l →
            IfOk result (IsNextAt (rules_by asked.now) t
            (place_at l search.now.at) search.now.floor search.now.looked
            (reverse search.now.tried.now) choice left) }
    {
        self.make(asked, choice, number)?;
        match self.left_by(asked, choice, number, search, left) {
            Some(next) => Ok(next),
            None => Err(Memory),
        }
    }
}

/// How many numbers of a list that rises are below one.
fn count_below(list: &[u32], bound: usize) -> usize
    ensures within { result ≤ length list.now }
    ensures below { IsNonDecreasing list.now → (k : ℕ) → k < result → get_or list.now k 0 < bound }
    ensures rest { IsNonDecreasing list.now → (k : ℕ) → result ≤ k → k < length list.now →
        bound ≤ get_or list.now k 0 }
{
    match list.last() {
        Some(last) => {
            if (*last as usize) < bound {
                return list.len();
            }
        }
        None => return 0,
    }
    list.partition_point(
        |number: &u32| -> bool
            ensures { result ≡ nat_lt number.now bound }
        { (*number as usize) < bound },
    )
}
