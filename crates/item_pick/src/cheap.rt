//! Items of which each attempt in vain is within the budget.
ghost use Rattle.std.specs.Prelude.{◌≡◌, ℕ, slice_get, Some, IsTrue, true};
ghost use Rattle.item_pick.specs.Common.{is_cheap, StartCheaply, StartsCheaply, rules_by};
ghost use Rattle.syntax_set.specs.declared.item.Pattern.{Pattern as PatternOf};

use crate::asked::Asked;
use pattern_screens::failing_cost;
use region_ends::item_of;
use syn_base::ItemId;
use syntax_set::{ItemKind, Pattern};

impl Asked<'_> {
    /// Whether an attempt in vain by a pattern costs at most the budget.
    pub(crate) fn is_cheap(&self, pattern: &Pattern) -> bool
        ensures { IsTrue result → is_cheap self.now.budget pattern.now ≡ true }
    {
        match failing_cost(&pattern.tree) {
            Some(cost) => cost <= self.budget,
            None => false,
        }
    }

    /// Whether one by any of some patterns does.
    fn are_cheap(&self, patterns: &[Pattern]) -> bool
        ensures { IsTrue result → (n : ℕ) (p : PatternOf) → Some p ≡ slice_get patterns.now n →
            is_cheap self.now.budget p ≡ true }
    {
        for pattern in patterns {
            if !self.is_cheap(pattern) {
                return false;
            }
        }
        true
    }

    /// Whether an item is there, and one by any of its start patterns does.
    fn starts_cheaply(&self, id: ItemId) -> bool
        ensures { IsTrue result → StartsCheaply (rules_by self.now) id }
    {
        if id.0 as usize >= self.parts.items.added() {
            return false;
        }
        match &item_of(self.parts.items, id).kind {
            ItemKind::Keyword => true,
            ItemKind::Match(pattern) => self.is_cheap(pattern),
            ItemKind::Region { starts, .. } => self.are_cheap(starts.as_slice()),
        }
    }

    /// Whether that is so of all items of a list.
    pub(crate) fn start_cheaply(&self, items: &[u32]) -> bool
        ensures { IsTrue result → StartCheaply (rules_by self.now) items.now }
    {
        for id in items {
            if !self.starts_cheaply(ItemId(*id)) {
                return false;
            }
        }
        true
    }
}
