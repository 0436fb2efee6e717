//! Columns at which no item starts, since those that wander are known not to and the others are idle.
ghost use Rattle.std.specs.Prelude.{◌<◌, ◌≤◌, ◌+◌, ℕ, length, get_or, IfSome, IsTrue, false};
ghost use Rattle.item_pick.specs.Common.{Text, line_at, Rules, place_at, IsQuiet, item_numbered, HoldsLine, ArePassed, AreSettled, AreKnown, IsNumberAt, LineStands, rules_by};

use crate::asked::Asked;
use crate::choice::Choice;
use crate::line_known::LineKnown;
use crate::rows::ANY;
use crate::runs::Search;
use crate::tables::Tables;
use syn_base::Looked;

impl Search<'_> {
    /// The first column from its own on at which it isn't known of all items of a list that they have no
    /// match there.
    fn settled_until(&self, list: &[u32]) -> usize
        ensures { (r : Rules) (t : Text) (l : ℕ) → LineStands r t l self.now.line.now →
            HoldsLine self.now.looked l → (k : ℕ) → k < length list.now →
            (c : ℕ) → self.now.at ≤ c → c < result →
            IsQuiet r t (place_at l c) self.now.floor self.now.looked
            (item_numbered (get_or list.now k 0)) }
    {
        let mut end = self.line.numbers.len();
        for id in list {
            if self.line.is_barren(*id) {
                continue;
            }
            let to = self.line.told_to(*id, self);
            if to <= self.at {
                return self.at;
            }
            end = end.min(to);
        }
        end
    }
}

impl Tables {
    /// The first column from that of a search on at which it isn't known of all those items of a choice
    /// that wander.
    pub(crate) fn settled_until(&self, choice: Choice, search: &Search<'_>) -> usize
        ensures { (r : Rules) (t : Text) (l : ℕ) →
            AreKnown r t l self.now search.now.line.now → HoldsLine search.now.looked l →
            AreSettled r t l choice search.now.floor search.now.looked search.now.at result }
    {
        let Some(all) = self.row(choice, ANY) else {
            return search.at;
        };
        match &all.wandering {
            Some(list) => search.settled_until(list.as_slice()),
            None => search.at,
        }
    }

    /// Whether an item is known not to start at a column whose key has a number, by that, by the number of
    /// the key one column behind, or by the line.
    #[inline(always)]
    fn rests(
        &self,
        _asked: &Asked,
        id: u32,
        line: &LineKnown,
        number: u16,
        behind: u16,
        looked: Looked,
    ) -> bool
        ensures { IsTrue result → (t : Text) (l col floor : ℕ) →
            AreKnown (rules_by _asked.now) t l self.now line.now →
            IsNumberAt (rules_by _asked.now) (line_at t l) col number → 0 < col →
            IsNumberAt (rules_by _asked.now) (line_at t l) (col + 1) behind →
            HoldsLine looked l →
            IsQuiet (rules_by _asked.now) t (place_at l col) floor looked (item_numbered id) }
    {
        if line.is_barren(id) {
            return true;
        }
        if self.firsts.is_idle(id, behind) {
            return true;
        }
        self.fails_behind(id, line, number, looked)
    }

    /// Whether all items of a list are known not to start at a column whose key has a number.
    #[inline(always)]
    fn are_still(
        &self,
        _asked: &Asked,
        list: &[u32],
        line: &LineKnown,
        number: u16,
        col: usize,
        looked: Looked,
    ) -> bool
        ensures { IsTrue result → (t : Text) (l : ℕ) →
            AreKnown (rules_by _asked.now) t l self.now line.now →
            IsNumberAt (rules_by _asked.now) (line_at t l) col number →
            (floor : ℕ) → HoldsLine looked l →
            (k : ℕ) → k < length list.now → IsQuiet (rules_by _asked.now) t (place_at l col) floor
            looked (item_numbered (get_or list.now k 0)) }
    {
        if list.is_empty() {
            return true;
        }
        let Some(behind) = line.number_behind(col) else {
            return false;
        };
        for id in list {
            if !self.rests(_asked, *id, line, number, behind, looked) {
                return false;
            }
        }
        true
    }

    /// Whether those items of a choice that don't wander are known not to start at a column whose key
    /// has a number. Nothing is said where the row wasn't made.
    #[inline(always)]
    pub(crate) fn is_still(
        &self,
        line: &LineKnown,
        asked: &Asked,
        choice: Choice,
        number: u16,
        col: usize,
        looked: Looked,
    ) -> Option<bool>
        ensures { IfSome result (λ still. IsTrue still → (t : Text) (l : ℕ) →
            AreKnown (rules_by asked.now) t l self.now line.now →
            IsNumberAt (rules_by asked.now) (line_at t l) col number →
            (floor : ℕ) → HoldsLine looked l →
            ArePassed (rules_by asked.now) t l choice floor looked false
            col) }
    {
        let row = self.row(choice, number)?;
        Some(self.are_still(asked, row.resting.as_slice(), line, number, col, looked))
    }
}
