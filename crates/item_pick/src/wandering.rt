//! Items whose start says nothing of where their match begins.
ghost use Rattle.std.specs.Prelude.{◌≡◌, ◌&&◌, ◌<◌, ℕ, length, true, IfOk, IsTrue};
ghost use Rattle.item_pick.specs.Common.{item_of, sits_by, item_wanders, wanders, has_one_start, IsItem, HasThose, Lacks, rules_by};

use crate::asked::Asked;
use pattern_screens::takes_first;
use region_ends::item_of;
use std::alloc::Global;
use syn_base::{ItemId, Memory};
use syntax_set::{ItemKind, Pattern};

/// Whether a match by a pattern may have its item start elsewhere than its offset from the first
/// column says.
pub(crate) fn wanders(pattern: &Pattern) -> bool
    ensures { result ≡ wanders pattern.now }
{
    pattern.tree.moves_start || !pattern.ms.is_none()
}

impl Asked<'_> {
    /// Whether an item starts by this pattern alone, where its match begins, and that begins with a piece
    /// of one character.
    pub(crate) fn sits(&self, id: ItemId, pattern: &Pattern) -> bool
        requires { IsItem (rules_by self.now) id }
        ensures { IsTrue result →
            (has_one_start (item_of (rules_by self.now).items id).kind
            && sits_by pattern.now) ≡ true }
    {
        self.has_one_start(id)
            && !pattern.tree.moves_start
            && pattern.ms.is_none()
            && takes_first(&pattern.tree, true)
    }

    /// Whether an item wanders by the first of its start patterns.
    fn item_wanders(&self, id: ItemId) -> bool
        requires { IsItem (rules_by self.now) id }
        ensures { result ≡ item_wanders (rules_by self.now) id.0 }
    {
        match &item_of(self.parts.items, id).kind {
            ItemKind::Keyword => false,
            ItemKind::Match(pattern) => wanders(pattern),
            ItemKind::Region { starts, .. } => match starts.as_slice().get(0) {
                Some(pattern) => wanders(pattern),
                None => false,
            },
        }
    }

    /// The same of an item of a number, if it is there.
    fn number_wanders(&self, id: u32) -> bool
        ensures { id < length (rules_by self.now).items →
            result ≡ item_wanders (rules_by self.now) id }
    {
        if id as usize >= self.parts.items.added() {
            return false;
        }
        self.item_wanders(ItemId(id))
    }

    /// Puts an item on a list, if it wanders, or if it doesn't.
    fn put_if(&self, id: u32, wandering: bool, those: &mut Vec<u32>) -> Result<(), Memory>
        ensures kept { (j : ℕ) → Lacks those.new.items j → Lacks those.old.items j }
        ensures here { IfOk result (λ _.
            id < length (rules_by self.now).items →
            item_wanders (rules_by self.now) id ≡ wandering →
            Lacks those.new.items id → ⊥) }
    {
        if self.number_wanders(id) == wandering {
            those.push(id)?;
        }
        Ok(())
    }

    /// Those items of a list that wander, or those that don't.
    pub(crate) fn those(
        &self,
        alloc: Global,
        list: &[u32],
        wandering: bool,
    ) -> Result<Vec<u32>, Memory>
        ensures { IfOk result (λ those. HasThose
            (rules_by self.now) wandering list.now those.items) }
    {
        let mut those = Vec::new(alloc);
        for id in list {
            self.put_if(*id, wandering, &mut those)?;
        }
        Ok(those)
    }
}
