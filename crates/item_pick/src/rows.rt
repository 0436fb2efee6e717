//! Which items of a choice may start at a column, by the key of the column.
ghost use Rattle.std.specs.Prelude.{◌≡◌, ◌<◌, ℕ, length, slice_get, Some, IfOk, IfSome, IsTrue, true};
ghost use Rattle.std.specs.List.Sorted.{IsNonDecreasing};
ghost use Rattle.item_pick.specs.Common.{item_numbered, ChoiceFits, IsItem, admits, AnswersStand, AreAdmitted, HasThose, is_cheap, is_screened, IsWordless, Lacks, ListStands, RisesTo, RowStands, StartCheaply, StartsCheaply, stays_out, StaysOut, rules_by};
ghost use Rattle.item_pick.specs.declared.choice.Choice.{Choice as ChoiceOf};
ghost use Rattle.syntax_set.specs.declared.item.Pattern.{Pattern as PatternOf};

use crate::asked::Asked;
use crate::choice::{Choice, admits};
use pattern_screens::{KEYS, Key, is_futile};
use region_ends::{KeyAnswers, item_of};
use std::alloc::Global;
use syn_base::{ItemId, Memory};
use syntax_set::{ItemKind, Pattern};

/// In place of the number of a key: the row has all items that start by a pattern.
pub(crate) const ANY: u16 = KEYS;

/// The admitted items of a choice that may start at a column whose key has a number, in the order in
/// which they were defined.
#[derive(Drop)]
pub(crate) struct Row {
    pub(crate) choice: Choice,
    pub(crate) number: u16,
    pub(crate) items: Vec<u32>,
    /// Those of them that don't wander.
    pub(crate) resting: Vec<u32>,
    /// Those of them that do; only of the row of all items.
    pub(crate) wandering: Option<Vec<u32>>,
    /// No word starts an item of the choice; told only of the row of all items.
    pub(crate) wordless: bool,
    /// Each attempt in vain of each of the items costs at most the budget; told only of the row of all
    /// items.
    pub(crate) cheap: bool,
}

impl Asked<'_> {
    /// Whether an item can't start by a pattern at a column whose key has a number. It may be told that
    /// each attempt in vain costs at most the budget.
    fn is_screened(&self, ignore: bool, pattern: &Pattern, number: u16, cheap: bool) -> bool
        requires cheap { IsTrue cheap → is_cheap self.now.budget pattern.now ≡ true }
        ensures { IsTrue result → is_screened self.now.parts.now.sets.now self.now.budget ignore
            number pattern.now ≡ true }
    {
        number < KEYS
            && !pattern.tree.moves_start
            && pattern.ms.is_none()
            && is_futile(
                &pattern.tree,
                self.parts.sets,
                ignore,
                Key::numbered(number),
            )
            && (cheap || self.is_cheap(pattern))
    }

    /// Whether it can't start by any of some patterns.
    fn are_screened(&self, ignore: bool, patterns: &[Pattern], number: u16, cheap: bool) -> bool
        requires cheap { IsTrue cheap → (n : ℕ) (p : PatternOf) → Some p ≡ slice_get patterns.now n →
            is_cheap self.now.budget p ≡ true }
        ensures { IsTrue result → (n : ℕ) (p : PatternOf) → Some p ≡ slice_get patterns.now n →
            is_screened self.now.parts.now.sets.now self.now.budget ignore number p ≡ true }
    {
        for pattern in patterns {
            if !self.is_screened(ignore, pattern, number, cheap) {
                return false;
            }
        }
        true
    }

    /// Whether an item can't start at a column whose key has a number.
    fn stays_out(&self, id: ItemId, number: u16, cheap: bool) -> bool
        requires item { IsItem (rules_by self.now) id }
        requires cheap { IsTrue cheap → StartsCheaply (rules_by self.now) id }
        ensures { IsTrue result → StaysOut (rules_by self.now) number id }
    {
        let item = item_of(self.parts.items, id);
        match &item.kind {
            ItemKind::Keyword => true,
            ItemKind::Match(pattern) => self.is_screened(item.ignore, pattern, number, cheap),
            ItemKind::Region { starts, .. } => self.are_screened(
                item.ignore,
                starts.as_slice(),
                number,
                cheap,
            ),
        }
    }

    /// Puts an item of a choice on a list, unless it can't start.
    fn put_admitted(
        &self,
        choice: Choice,
        id: u32,
        number: u16,
        items: &mut Vec<u32>,
    ) -> Result<(), Memory>
        requires item { id < length (rules_by self.now).items }
        requires choice { ChoiceFits (rules_by self.now) choice }
        ensures kept { (j : ℕ) → Lacks items.new.items j → Lacks items.old.items j }
        ensures rises { RisesTo id items.old.items → RisesTo id items.new.items }
        ensures admitted { AreAdmitted (rules_by self.now) choice items.old.items →
            AreAdmitted (rules_by self.now) choice items.new.items }
        ensures here { IfOk result (λ _.
            admits (rules_by self.now) choice (item_numbered id) ≡ true →
            Lacks items.new.items id →
            StaysOut (rules_by self.now) number (item_numbered id)) }
    {
        if admits(self, choice, ItemId(id)) && !self.stays_out(ItemId(id), number, false) {
            items.push(id)?;
        }
        Ok(())
    }

    /// The same as `stays_out`. The answer is kept.
    fn is_out(
        &self,
        id: ItemId,
        number: u16,
        cheap: bool,
        outs: &mut KeyAnswers,
    ) -> Result<bool, Memory>
        requires item { IsItem (rules_by self.now) id }
        requires cheap { IsTrue cheap → StartsCheaply (rules_by self.now) id }
        requires outs { AnswersStand (stays_out (rules_by self.now)) outs.old }
        ensures outs { AnswersStand (stays_out (rules_by self.now)) outs.new }
        ensures out { IfOk result (λ out. IsTrue out →
            StaysOut (rules_by self.now) number id) }
    {
        match outs.known(number, id) {
            Some(out) => return Ok(out),
            None => {}
        }
        let out = self.stays_out(id, number, cheap);
        outs.keep(number, id, out)?;
        Ok(out)
    }

    /// Puts an item on a list, unless it isn't there or can't start, by the answers that are kept.
    fn put_known(
        &self,
        id: u32,
        number: u16,
        count: usize,
        cheap: bool,
        outs: &mut KeyAnswers,
        items: &mut Vec<u32>,
    ) -> Result<(), Memory>
        requires count { count ≡ length (rules_by self.now).items }
        requires cheap { IsTrue cheap → StartsCheaply (rules_by self.now) (item_numbered id) }
        requires outs { AnswersStand (stays_out (rules_by self.now)) outs.old }
        ensures outs { AnswersStand (stays_out (rules_by self.now)) outs.new }
        ensures kept { (j : ℕ) → Lacks items.new.items j → Lacks items.old.items j }
        ensures rises { RisesTo id items.old.items → RisesTo id items.new.items }
        ensures admitted { (choice : ChoiceOf) →
            admits (rules_by self.now) choice (item_numbered id) ≡ true →
            AreAdmitted (rules_by self.now) choice items.old.items →
            AreAdmitted (rules_by self.now) choice items.new.items }
        ensures here { IfOk result (λ _.
            id < length (rules_by self.now).items →
            Lacks items.new.items id →
            StaysOut (rules_by self.now) number (item_numbered id)) }
    {
        if id as usize >= count {
            return Ok(());
        }
        if !self.is_out(ItemId(id), number, cheap, outs)? {
            items.push(id)?;
        }
        Ok(())
    }

    /// The items of a choice that may start.
    pub(crate) fn listed(
        &self,
        alloc: Global,
        choice: Choice,
        number: u16,
    ) -> Result<Vec<u32>, Memory>
        requires { ChoiceFits (rules_by self.now) choice }
        ensures lists { IfOk result (λ list.
            ListStands (rules_by self.now) choice number list.items) }
        ensures rises { IfOk result (λ list. IsNonDecreasing list.items) }
        ensures admitted { IfOk result
            (λ list. AreAdmitted (rules_by self.now) choice list.items) }
    {
        let count = self.parts.items.added() as u32;
        let mut items = Vec::new(alloc);
        for id in 0..count {
            self.put_admitted(choice, id, number, &mut items)?;
        }
        Ok(items)
    }

    /// Those of all items of a choice that may start at a column whose key has a number.
    pub(crate) fn narrowed(
        &self,
        alloc: Global,
        all: &Row,
        number: u16,
        outs: &mut KeyAnswers,
    ) -> Result<Vec<u32>, Memory>
        requires number { all.now.number ≡ 777 }
        requires stands { RowStands (rules_by self.now) all.now }
        requires outs { AnswersStand (stays_out (rules_by self.now)) outs.old }
        ensures outs { AnswersStand (stays_out (rules_by self.now)) outs.new }
        ensures lists { IfOk result (λ list. ListStands (rules_by self.now) all.now.choice number
            list.items) }
        ensures rises { IfOk result (λ list. IsNonDecreasing list.items) }
        ensures admitted { IfOk result
            (λ list. AreAdmitted (rules_by self.now) all.now.choice list.items) }
    {
        let count = self.parts.items.added();
        let mut items = Vec::new(alloc);
        for id in all.items.as_slice() {
            self.put_known(*id, number, count, all.cheap, outs, &mut items)?;
        }
        Ok(items)
    }

    /// The row of these items of a choice, with those of them that wander, if they are told, whether no
    /// word starts an item of the choice, and whether each attempt in vain is within the budget.
    pub(crate) fn row(
        &self,
        alloc: Global,
        choice: Choice,
        number: u16,
        items: Vec<u32>,
        wandering: Option<Vec<u32>>,
        wordless: bool,
        cheap: bool,
    ) -> Result<Row, Memory>
        requires lists { ListStands (rules_by self.now) choice number items.items }
        requires rises { IsNonDecreasing items.items }
        requires admitted { AreAdmitted (rules_by self.now) choice items.items }
        requires those { IfSome wandering (λ those. HasThose (rules_by self.now) true items.items
            those.items) }
        requires wordless { IsTrue wordless → IsWordless (rules_by self.now) choice }
        requires cheap { IsTrue cheap → StartCheaply (rules_by self.now) items.items }
        ensures { IfOk result (RowStands (rules_by self.now)) }
    {
        let resting = self.those(alloc, items.as_slice(), false)?;
        Ok(Row {
            choice,
            number,
            items,
            resting,
            wandering,
            wordless,
            cheap,
        })
    }
}
