//! The items of a syntax by number.
ghost use Rattle.std.specs.Prelude.{◌≡◌, ◌≤◌, ◌<◌, ◌==◌, [], ◌∷◌, ◌++◌, length, map, count_by, slice_get, Some, option_map, IsErrOf, IfOk, OnOk, OnErr, ◌↔◌, true, false};
ghost use Rattle.std.specs.Option.{ForSome};
ghost use Rattle.syntax_set.specs.Allowed.{cleared, follows, is_allowed, is_in_next};
ghost use Rattle.syntax_set.specs.Items.{with_item};

use crate::kept_item::KeptItem;
use crate::{AddedItem, Clusters, GroupList, Item, SetError};
use std::alloc::Global;
use std::marker::Model;
use syn_base::{GroupId, ItemId, Memory};

/// The most items that are ever added to a set, those that are no longer live included.
pub const MOST_ITEMS: usize = 32_000;

/// Items, which contracts see as the list of all that were added, each with its liveness.
#[derive(Drop)]
pub struct ItemSet {
    alloc: Global,
    added: Vec<KeptItem>,
}

impl Model for ItemSet {
    ghost use Rattle.std.specs.Prelude.{List, length, ◌≤◌};
    ghost use Rattle.std.specs.Coded.{coded_list};
    ghost use Rattle.syntax_set.specs.declared.added_item.AddedItem.{AddedItem};
    ghost use Rattle.syntax_set.specs.contracts.added_item.AddedItem as added_item;

    ghost Value = { List AddedItem };

    ghost coded = { coded_list added_item.the_row.coded };

    ghost view = { λ a. a.added.items };

    ghost invariant = { λ a. length a.added.items ≤ 32000 };
}

impl ItemSet {
    /// No items. It takes no memory.
    pub fn new(alloc: Global) -> ItemSet
        ensures { result ≡ [] }
    {
        ItemSet {
            alloc,
            added: Vec::new(alloc),
        }
    }

    /// Adds a live item (`:syn-define`). An item that is refused is dropped.
    pub fn add_item(&mut self, item: Item) -> Result<ItemId, SetError>
        ensures added { OnOk result (self.new ≡ with_item true self.old item) }
        ensures number { IfOk result (λ id. id.0 ≡ length self.old) }
        ensures too_many { IsErrOf result SetError.TooManyItems ↔ (length self.old ≡ 32000) }
        ensures no_groups { ¬ (IsErrOf result SetError.TooManyGroups) }
        ensures unchanged { OnErr result (self.new ≡ self.old) }
    {
        self.add(AddedItem { item, live: true })
    }

    /// Adds an item that isn't live. An item that is refused is dropped.
    pub fn add_dead(&mut self, item: Item) -> Result<ItemId, SetError>
        ensures added { OnOk result (self.new ≡ with_item false self.old item) }
        ensures number { IfOk result (λ id. id.0 ≡ length self.old) }
        ensures too_many { IsErrOf result SetError.TooManyItems ↔ (length self.old ≡ 32000) }
        ensures no_groups { ¬ (IsErrOf result SetError.TooManyGroups) }
        ensures unchanged { OnErr result (self.new ≡ self.old) }
    {
        self.add(AddedItem { item, live: false })
    }

    fn add(&mut self, added: AddedItem) -> Result<ItemId, SetError>
        ensures added { OnOk result (self.new ≡ self.old ++ added ∷ []) }
        ensures number { IfOk result (λ id. id.0 ≡ length self.old) }
        ensures too_many { IsErrOf result SetError.TooManyItems ↔ (length self.old ≡ 32000) }
        ensures no_groups { ¬ (IsErrOf result SetError.TooManyGroups) }
        ensures unchanged { OnErr result (self.new ≡ self.old) }
    {
        let number = self.added.len();
        if number == MOST_ITEMS {
            return Err(SetError::TooManyItems);
        }
        self.push(added)?;
        Ok(ItemId(number as u32))
    }

    fn push(&mut self, added: AddedItem) -> Result<(), Memory>
        requires { length self.old < 32000 }
        ensures added { OnOk result (self.new ≡ self.old ++ added ∷ []) }
        ensures unchanged { OnErr result (self.new ≡ self.old) }
    {
        let kept = KeptItem::of(self.alloc, added)?;
        Ok(self.added.push(kept)?)
    }

    /// An item, live or not.
    pub fn item(&self, id: ItemId) -> &Item
        requires { id.0 < length self.now }
        ensures { Some result.now ≡ option_map (λ added. added.item) (slice_get self.now id.0) }
    {
        &self.at(id).added().item
    }

    /// Whether an item is live.
    pub fn live(&self, id: ItemId) -> bool
        requires { id.0 < length self.now }
        ensures { Some result ≡ option_map (λ added. added.live) (slice_get self.now id.0) }
    {
        self.at(id).added().live
    }

    /// How many live items there are.
    pub fn len(&self) -> usize
        ensures { result ≡ count_by (λ added. added.live) self.now }
    {
        count_live(&self.added)
    }

    /// Whether there is no live item.
    pub fn is_empty(&self) -> bool
        ensures { result ≡ (count_by (λ added. added.live) self.now == 0) }
    {
        self.len() == 0
    }

    /// How many items were ever added.
    pub fn added(&self) -> usize
        ensures number { result ≡ length self.now }
        ensures most { result ≤ 32000 }
    {
        self.added.len()
    }

    /// Ends the life of the items of a group, or of all (`:syn-clear`).
    pub fn clear(&mut self, group: Option<GroupId>)
        ensures { self.new ≡ map (cleared group) self.old }
    {
        clear_all(&mut self.added, group);
    }

    /// Whether an item may start in this container, or on an empty stack (`:syn-contains`,
    /// `:syn-containedin`).
    pub fn allowed(&self, clusters: &Clusters, id: ItemId, container: Option<ItemId>) -> bool
        requires item { id.0 < length self.now }
        requires container { ForSome container (λ other. other.0 < length self.now) }
        ensures { result ≡ is_allowed self.now clusters.now.lists id container }
    {
        let added = self.at(id);
        match container {
            Some(container) => added.is_allowed_in(clusters, self.at(container)),
            None => added.added().is_free(),
        }
    }

    /// Whether a list that is owned outside all includes, as a `nextgroup`, has an item
    /// (`:syn-nextgroup`).
    pub fn in_next(&self, clusters: &Clusters, id: ItemId, list: &GroupList) -> bool
        requires { id.0 < length self.now }
        ensures { result ≡ is_in_next self.now clusters.now.lists id list.now }
    {
        self.at(id).is_member(clusters, list, 0)
    }

    /// Whether the `nextgroup` of another item has an item (`:syn-nextgroup`). It answers as `in_next`,
    /// and is quick where the list is long.
    pub fn follows(&self, clusters: &Clusters, id: ItemId, other: ItemId) -> bool
        requires item { id.0 < length self.now }
        requires other { other.0 < length self.now }
        ensures { result ≡ follows self.now clusters.now.lists id other }
    {
        self.at(id).follows(clusters, self.at(other))
    }

    fn at(&self, id: ItemId) -> &KeptItem
        requires { id.0 < length self.now }
        ensures { Some result.now ≡ slice_get self.now id.0 }
    {
        &self.added[id.0 as usize]
    }
}

fn count_live(items: &[KeptItem]) -> usize
    ensures { result ≡ count_by (λ added. added.live) items.now }
{
    let mut count = 0;
    for added in items {
        if added.added().live {
            count += 1;
        }
    }
    count
}

fn clear_all(items: &mut [KeptItem], group: Option<GroupId>)
    ensures { items.new ≡ map (cleared group) items.old }
{
    for added in items.iter_mut() {
        added.clear(group);
    }
}
