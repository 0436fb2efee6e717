//! An item with its liveness.
ghost use Rattle.std.specs.Prelude.{◌≡◌};
ghost use Rattle.syntax_set.specs.Allowed.{cleared, is_free};

use crate::Item;
use syn_base::GroupId;

/// An item that was added, and whether it is live.
#[derive(Drop)]
pub struct AddedItem {
    pub item: Item,
    pub live: bool,
}

impl AddedItem {
    /// Ends the item's life if it is of the group, or if none is given.
    pub(crate) fn clear(&mut self, group: Option<GroupId>)
        ensures { self.new ≡ cleared group self.old }
    {
        match group {
            None => self.live = false,
            Some(group) => {
                if self.item.group.0 == group.0 {
                    self.live = false;
                }
            }
        }
    }

    /// Whether the item may start on an empty stack.
    pub(crate) fn is_free(&self) -> bool
        ensures { result ≡ is_free self.now }
    {
        self.live && !self.item.contained && self.item.include == 0
    }
}
