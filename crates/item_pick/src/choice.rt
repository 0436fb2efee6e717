//! Among which items one may start.
ghost use Rattle.std.specs.Prelude.{◌≡◌, reverse};
ghost use Rattle.item_pick.specs.Common.{item_of, admits, is_free, ChoiceFits, IsItem, rules_by};

use crate::asked::Asked;
use crate::picking::Picking;
use syn_base::{ItemId, Lines};
use syntax_set::Item;

/// Among which items one may start.
#[derive(Clone, Copy, Debug, PartialEq, Eq)]
pub(crate) enum Choice {
    /// Those of the nextgroup of a waiting item.
    ListOf(ItemId),
    /// Those allowed in a container, or on the empty stack.
    Within(Option<ItemId>),
    NoItem,
}

/// Whether a choice has an item.
pub(crate) fn admits(asked: &Asked, choice: Choice, id: ItemId) -> bool
    requires item { IsItem (rules_by asked.now) id }
    requires choice { ChoiceFits (rules_by asked.now) choice }
    ensures { result ≡ admits (rules_by asked.now) choice id }
{
    let items = asked.parts.items;
    let clusters = asked.parts.clusters;
    match choice {
        Choice::ListOf(waiting) => items.follows(clusters, id, waiting),
        Choice::Within(container) => items.allowed(clusters, id, container),
        Choice::NoItem => false,
    }
}

impl<T: Lines> Picking<'_, T> {
    /// The item of a number.
    pub(crate) fn item(&self, id: ItemId) -> &Item
        requires { IsItem (rules_by self.now.asked.now) id }
        ensures { result.now ≡ item_of (rules_by self.now.asked.now).items id }
    {
        self.asked.parts.items.item(id)
    }

    /// Whether a choice has an item that hasn't started here.
    pub(crate) fn is_free(&self, choice: Choice, id: ItemId) -> bool
        requires item { IsItem (rules_by self.now.asked.now) id }
        requires choice { ChoiceFits (rules_by self.now.asked.now) choice }
        ensures { result ≡ is_free (rules_by self.now.asked.now) (reverse self.now.tried.now) choice
            id }
    {
        !self.tried.has(id) && admits(self.asked, choice, id)
    }
}
