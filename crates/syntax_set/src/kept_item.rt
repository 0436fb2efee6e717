//! An item that was added, with what its lists name.
ghost use Rattle.std.specs.Prelude.{◌≡◌, IfOk, Some, option_map};
ghost use Rattle.syntax_set.specs.Allowed.{cleared, is_allowed_in};
ghost use Rattle.syntax_set.specs.Membership.{entries_have, has_by, is_member, is_member_of_option};
ghost use Rattle.syntax_set.specs.NamedLists.{IsNamedBy};

use crate::list_names::{ListNames, names_of};
use crate::named::Named;
use crate::{AddedItem, Clusters, Entry, GroupList, Item, Special};
use std::alloc::Global;
use std::marker::Model;
use syn_base::{GroupId, List, Memory};

/// An item that was added, which is what contracts see, and what its long lists name, by number.
#[derive(Drop)]
pub(crate) struct KeptItem {
    added: AddedItem,
    names: Option<Box<ListNames>>,
}

impl Model for KeptItem {
    ghost use Rattle.syntax_set.specs.declared.added_item.AddedItem.{AddedItem};
    ghost use Rattle.syntax_set.specs.contracts.added_item.AddedItem as added_item;
    ghost use Rattle.syntax_set.specs.NamedLists.{AreNamedBy};

    ghost Value = { AddedItem };

    ghost coded = { added_item.the_row.coded };

    ghost view = { λ a. a.added };

    ghost invariant = { λ a. AreNamedBy a.names a.added.item };
}

impl KeptItem {
    /// The item, with what its long lists name.
    pub(crate) fn of(alloc: Global, added: AddedItem) -> Result<KeptItem, Memory>
        ensures { IfOk result (λ kept. kept ≡ added) }
    {
        let names = names_of(alloc, &added.item)?;
        Ok(KeptItem { added, names })
    }

    pub(crate) fn added(&self) -> &AddedItem
        ensures { result.now ≡ self.now }
    {
        &self.added
    }

    /// Ends the item's life if it is of the group, or if none is given.
    pub(crate) fn clear(&mut self, group: Option<GroupId>)
        ensures { self.new ≡ cleared group self.old }
    {
        self.added.clear(group);
    }

    /// Whether the item may start in this container.
    pub(crate) fn is_allowed_in(&self, clusters: &Clusters, container: &KeptItem) -> bool
        ensures { result ≡ is_allowed_in clusters.now.lists self.now container.now }
    {
        self.added.live
            && (self.is_contained(clusters, container) || container.is_named_within(clusters, self))
    }

    /// Whether the item is a member of the container's `contains`.
    fn is_contained(&self, clusters: &Clusters, container: &KeptItem) -> bool
        ensures { result ≡ is_member_of_option clusters.now.lists
            container.now.item.contains container.now.item.include self.now }
    {
        let within = &container.added.item;
        self.is_among(
            clusters,
            &within.contains,
            container.contains_named(),
            within.include,
        )
    }

    /// Whether the item is a member of another's `containedin`.
    fn is_named_within(&self, clusters: &Clusters, other: &KeptItem) -> bool
        ensures { result ≡ is_member_of_option clusters.now.lists
            other.now.item.containedin other.now.item.include self.now }
    {
        let item = &other.added.item;
        self.is_among(
            clusters,
            &item.containedin,
            other.containedin_named(),
            item.include,
        )
    }

    /// Whether the item is a member of another's `nextgroup`.
    pub(crate) fn follows(&self, clusters: &Clusters, other: &KeptItem) -> bool
        ensures { result ≡ is_member_of_option clusters.now.lists
            other.now.item.nextgroup 0 self.now }
    {
        self.is_among(
            clusters,
            &other.added.item.nextgroup,
            other.nextgroup_named(),
            0,
        )
    }

    /// What `contains` names, where that is kept.
    fn contains_named(&self) -> Option<&Named>
        ensures { IsNamedBy self.now.item.contains (option_map (λ named. named.now) result) }
    {
        match &self.names {
            Some(names) => names.contains.as_ref(),
            None => None,
        }
    }

    /// What `containedin` names, where that is kept.
    fn containedin_named(&self) -> Option<&Named>
        ensures { IsNamedBy self.now.item.containedin (option_map (λ named. named.now) result) }
    {
        match &self.names {
            Some(names) => names.containedin.as_ref(),
            None => None,
        }
    }

    /// What `nextgroup` names, where that is kept.
    fn nextgroup_named(&self) -> Option<&Named>
        ensures { IsNamedBy self.now.item.nextgroup (option_map (λ named. named.now) result) }
    {
        match &self.names {
            Some(names) => names.nextgroup.as_ref(),
            None => None,
        }
    }

    /// Whether the item is a member of a list that may be absent, whose names may be kept.
    fn is_among(
        &self,
        clusters: &Clusters,
        list: &Option<GroupList>,
        named: Option<&Named>,
        include: u32,
    ) -> bool
        requires { IsNamedBy list.now (option_map (λ named. named.now) named) }
        ensures { result ≡ is_member_of_option clusters.now.lists list.now include self.now }
    {
        match list {
            Some(list) => self.added.live
                && has_item(clusters, list, named, include, &self.added.item),
            None => false,
        }
    }

    /// Whether the item is a member of a list whose owner has this include number.
    pub(crate) fn is_member(&self, clusters: &Clusters, list: &GroupList, include: u32) -> bool
        ensures { result ≡ is_member clusters.now.lists list.now include self.now }
    {
        self.added.live && has_item(clusters, list, None, include, &self.added.item)
    }
}

fn has_item(
    clusters: &Clusters,
    list: &GroupList,
    named: Option<&Named>,
    include: u32,
    item: &Item,
) -> bool
    requires { IsNamedBy (Some list.now) (option_map (λ named. named.now) named) }
    ensures { result ≡ has_by clusters.now.lists
        list.now.special list.now.entries include item.now }
{
    let own = item.include == include;
    let group = item.group;
    match list.special {
        Special::Plain => has_group(clusters, list, named, group),
        Special::All => true,
        Special::AllBut => !has_group(clusters, list, named, group),
        Special::Top => own && !item.contained && !has_group(clusters, list, named, group),
        Special::Contained => own && item.contained && !has_group(clusters, list, named, group),
        Special::Nothing => false,
    }
}

/// Whether the entries of a list name the group, or a cluster that has it.
fn has_group(clusters: &Clusters, list: &GroupList, named: Option<&Named>, group: GroupId) -> bool
    requires { IsNamedBy (Some list.now) (option_map (λ named. named.now) named) }
    ensures { result ≡ entries_have clusters.now.lists list.now.entries group }
{
    match named {
        Some(named) => clusters.names_have(named, group),
        None => entries_have(clusters, &list.entries, group),
    }
}

/// Whether entries name the group, or a cluster that has it.
fn entries_have(clusters: &Clusters, entries: &List<Entry>, group: GroupId) -> bool
    ensures { result ≡ entries_have clusters.now.lists entries.now group }
{
    let mut names = entries.as_slice().iter();
    names.any(|entry| clusters.entry_has(*entry, group))
}
