//! What a line must hold so that an item has a match in it.
ghost use Rattle.std.specs.Prelude.{◌≡◌, ℕ, slice_get, Some, IfOk, IfSome, IsTrue};
ghost use Rattle.item_pick.specs.Common.{Text, Rules, IsLineNeedOf, IsItem, AreTablesOf, IsBarren, IsNeededBy, IsWanted, MemoryStands, rules_by};
ghost use Rattle.syntax_set.specs.declared.item.Pattern.{Pattern as PatternOf};

use crate::asked::Asked;
use crate::memory::PickMemory;
use crate::tables::Tables;
use pattern_needs::LineNeed;
use region_ends::item_of;
use syn_base::{ItemId, Memory};
use syntax_set::{ItemKind, Pattern};

/// From so many times on it pays to find out what an item needs.
const OFTEN: u8 = 100;

/// What a line must hold so that an item has a match in it.
#[derive(Clone, Copy)]
pub(crate) struct Wanted {
    pub(crate) item: ItemId,
    pub(crate) need: LineNeed,
}

impl Asked<'_> {
    /// What a line must hold so that a pattern has a way in it.
    fn need_by(&self, ignore: bool, pattern: &Pattern) -> Option<LineNeed>
        ensures { IfSome result (IsLineNeedOf self.now.parts.now.sets.now ignore self.now.budget
            (pattern.now).tree) }
    {
        LineNeed::of(&pattern.tree, self.parts.sets, ignore, self.budget)
    }

    /// The same of one of some patterns.
    fn need_of_any(&self, ignore: bool, patterns: &[Pattern]) -> Option<LineNeed>
        ensures { IfSome result (λ need. (n : ℕ) (p : PatternOf) →
            Some p ≡ slice_get patterns.now n →
            IsLineNeedOf self.now.parts.now.sets.now ignore self.now.budget p.tree need) }
    {
        let mut need = self.need_by(ignore, patterns.get(0)?)?;
        for pattern in patterns {
            need = need.either(&self.need_by(ignore, pattern)?);
        }
        Some(need)
    }

    /// What a line must hold so that an item has a match in it.
    pub(crate) fn need_of(&self, id: ItemId) -> Option<LineNeed>
        requires { IsItem (rules_by self.now) id }
        ensures { IfSome result
            (IsNeededBy (rules_by self.now) id) }
    {
        let item = item_of(self.parts.items, id);
        match &item.kind {
            ItemKind::Keyword => None,
            ItemKind::Match(pattern) => self.need_by(item.ignore, pattern),
            ItemKind::Region { starts, .. } => self.need_of_any(item.ignore, starts.as_slice()),
        }
    }
}

/// For how much a question counts in a line of so many characters: attempts may cost the square of
/// them.
fn weight_in(width: usize) -> u8 {
    let wide = (width / 64).min(10) as u8;
    wide.saturating_mul(wide).saturating_add(1)
}

impl Tables {
    /// Whether it was found out already what an item needs.
    #[inline(always)]
    fn is_past_due(&self, id: ItemId) -> bool {
        match self.times.get(id.0 as usize) {
            Some(times) => times > OFTEN,
            None => false,
        }
    }

    /// Whether it was asked so often what an item needs that it pays to find it out: so once. A question
    /// counts by its weight.
    fn is_due(&mut self, id: ItemId, weight: u8) -> Result<bool, Memory>
        ensures { (r : Rules) → AreTablesOf r self.old → AreTablesOf r self.new }
    {
        let times = self.times.get(id.0 as usize).unwrap_or(0);
        let more = times.saturating_add(weight);
        self.times.put(id.0 as usize, more)?;
        Ok(times <= OFTEN && OFTEN < more)
    }

    /// For how much a question about an item counts in a line of so many characters: for all that it
    /// takes where the first attempt may cost much.
    fn weight(&self, asked: &Asked, id: ItemId, width: usize) -> u8
        requires { IsItem (rules_by asked.now) id }
    {
        match self.times.get(id.0 as usize) {
            None if asked.is_dear(id) => OFTEN + 1,
            _ => weight_in(width),
        }
    }

    /// Keeps what an item needs.
    fn want(&mut self, wanted: Wanted) -> Result<(), Memory>
        ensures { (r : Rules) → IsWanted r wanted → AreTablesOf r self.old → AreTablesOf r self.new }
    {
        self.wanted.push(wanted)?;
        Ok(())
    }
}

impl PickMemory {
    /// Whether an item is known to start nowhere in the line, also by what it needs, which is kept.
    #[inline(always)]
    pub(crate) fn starts_nowhere(&mut self, asked: &Asked, id: ItemId) -> Result<bool, Memory>
        requires item { IsItem (rules_by asked.now) id }
        ensures stands { (t : Text) (l : ℕ) →
            MemoryStands (rules_by asked.now) t l self.old →
            MemoryStands (rules_by asked.now) t l self.new }
        ensures nowhere { IfOk result (λ nowhere. IsTrue nowhere → (t : Text) (l : ℕ) →
            MemoryStands (rules_by asked.now) t l self.old →
            IsBarren (rules_by asked.now) t l id) }
    {
        if self.line.is_barren(id.0) {
            return Ok(true);
        }
        if self.tables.is_past_due(id) {
            return Ok(false);
        }
        self.lacks_need(asked, id)
    }

    /// Whether the line is found to lack what an item needs, once it pays to find out what that is.
    #[inline(never)]
    fn lacks_need(&mut self, asked: &Asked, id: ItemId) -> Result<bool, Memory>
        requires item { IsItem (rules_by asked.now) id }
        ensures stands { (t : Text) (l : ℕ) →
            MemoryStands (rules_by asked.now) t l self.old →
            MemoryStands (rules_by asked.now) t l self.new }
        ensures nowhere { IfOk result (λ nowhere. IsTrue nowhere → (t : Text) (l : ℕ) →
            MemoryStands (rules_by asked.now) t l self.old →
            IsBarren (rules_by asked.now) t l id) }
    {
        let weight = self.tables.weight(asked, id, self.line.width());
        let due = self.tables.is_due(id, weight)?;
        if !due {
            return Ok(false);
        }
        match asked.need_of(id) {
            Some(need) => {
                self.tables.want(Wanted { item: id, need })?;
                self.line.note_all_lacking(self.tables.wanted.as_slice())?;
                Ok(self.line.is_barren(id.0))
            }
            None => Ok(false),
        }
    }
}
