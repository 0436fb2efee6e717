//! What one cluster has.
ghost use Rattle.std.specs.Prelude.{◌≡◌, ◌≤◌, ◌++◌, IfOk, OnOk, OnErr, drop, length, map};
ghost use Rattle.syntax_set.specs.ClusterLists.{changed, entries_of, group_entry, less, with_entries, BeginsWith, IsListOf};
ghost use Rattle.syntax_set.specs.ClusterTable.{no_list};

use crate::named::Named;
use crate::number_set::NumberSet;
use crate::{Change, Entry, GroupList, Special};
use std::alloc::Global;
use std::marker::Model;
use syn_base::{GroupId, List, Memory};

/// The groups and clusters that a cluster names, each once: by kind, and as one list.
#[derive(Drop)]
pub(crate) struct ClusterList {
    named: Named,
    list: GroupList,
}

impl Model for ClusterList {
    ghost use Rattle.syntax_set.specs.ClusterTable as table;

    ghost Value = { table.ClusterList };

    ghost use Rattle.syntax_set.specs.ClusterLists.{IsListOf};

    ghost view = { λ a. a.named };

    ghost invariant = { λ a. IsListOf a.named a.list };
}

impl ClusterList {
    /// The list that names nothing. It takes no memory.
    pub(crate) fn new(alloc: Global) -> ClusterList
        ensures { result ≡ no_list }
    {
        ClusterList {
            named: Named::new(alloc),
            list: GroupList {
                special: Special::Plain,
                entries: List::new(alloc),
            },
        }
    }

    pub(crate) fn groups(&self) -> &NumberSet
        ensures { result.now ≡ self.now.groups }
    {
        self.named.groups()
    }

    pub(crate) fn clusters(&self) -> &[u32]
        ensures { result.now ≡ self.now.clusters }
    {
        self.named.clusters()
    }

    pub(crate) fn list(&self) -> &GroupList
        ensures { IsListOf self.now result.now }
    {
        &self.list
    }

    /// Carries out one part of a cluster command.
    pub(crate) fn change(
        &mut self,
        alloc: Global,
        how: Change,
        entries: &List<Entry>,
    ) -> Result<(), Memory>
        ensures ok { OnOk result (self.new ≡ changed how self.old entries.now) }
        ensures err { OnErr result (self.new ≡ self.old) }
    {
        match how {
            Change::Set => self.set(alloc, entries),
            Change::Add => self.add(alloc, entries),
            Change::Remove => self.remove(alloc, entries),
        }
    }

    fn set(&mut self, alloc: Global, entries: &List<Entry>) -> Result<(), Memory>
        ensures ok { OnOk result (self.new ≡ with_entries no_list entries.now) }
        ensures err { OnErr result (self.new ≡ self.old) }
    {
        *self = listed(alloc, Named::of(alloc, entries)?)?;
        Ok(())
    }

    /// Takes the entries out.
    fn remove(&mut self, alloc: Global, entries: &List<Entry>) -> Result<(), Memory>
        ensures ok { OnOk result (self.new ≡ less self.old (with_entries no_list entries.now)) }
        ensures err { OnErr result (self.new ≡ self.old) }
    {
        *self = listed(alloc, self.named.without(alloc, entries)?)?;
        Ok(())
    }

    /// Puts the entries at the end, or none of them.
    fn add(&mut self, alloc: Global, entries: &List<Entry>) -> Result<(), Memory>
        ensures ok { OnOk result (self.new ≡ with_entries self.old entries.now) }
        ensures err { OnErr result (self.new ≡ self.old) }
    {
        let groups = self.named.groups().len();
        let clusters = self.named.clusters().len();
        match insert_all(alloc, &mut self.named, &mut self.list.entries, entries) {
            Ok(()) => Ok(()),
            Err(memory) => {
                self.named.truncate(groups, clusters);
                Err(memory)
            }
        }
    }
}

/// What a cluster has that names these.
fn listed(alloc: Global, named: Named) -> Result<ClusterList, Memory>
    ensures { IfOk result (λ list. list ≡ named) }
{
    let entries = entries_of(alloc, named.groups().as_slice(), named.clusters())?;
    let list = GroupList {
        special: Special::Plain,
        entries,
    };
    Ok(ClusterList { named, list })
}

/// Names these entries too, and puts those that are new behind the list. Where memory is wanting,
/// perhaps some of them are named, and none is put.
fn insert_all(
    alloc: Global,
    named: &mut Named,
    list: &mut List<Entry>,
    more: &List<Entry>,
) -> Result<(), Memory>
    ensures begins { BeginsWith named.new named.old }
    ensures named { OnOk result (named.new ≡ with_entries named.old more.now) }
    ensures listed { OnOk result (list.new ≡ list.old
        ++ entries_of (drop (length named.old.groups) named.new.groups)
        (drop (length named.old.clusters) named.new.clusters)) }
    ensures unlisted { OnErr result (list.new ≡ list.old) }
{
    let groups = named.groups().len();
    let clusters = named.clusters().len();
    named.insert_all(more)?;
    let new = entries_from(alloc, named, groups, clusters)?;
    list.extend_from_slice(new.as_slice())
}

/// What is named from these places on.
fn entries_from(
    alloc: Global,
    named: &Named,
    groups: usize,
    clusters: usize,
) -> Result<List<Entry>, Memory>
    requires groups { groups ≤ length named.now.groups }
    requires clusters { clusters ≤ length named.now.clusters }
    ensures { IfOk result (λ entries. entries ≡ entries_of
        (drop groups named.now.groups) (drop clusters named.now.clusters)) }
{
    entries_of(
        alloc,
        &named.groups().as_slice()[groups..],
        &named.clusters()[clusters..],
    )
}

/// The entries of these groups, and of these clusters behind them.
fn entries_of(alloc: Global, groups: &[u32], clusters: &[u32]) -> Result<List<Entry>, Memory>
    ensures { IfOk result (λ entries. entries ≡ entries_of groups.now clusters.now) }
{
    let mut entries = List::from_vec(groups_of(alloc, groups)?);
    entries.extend_from_slice(&clusters_of(alloc, clusters)?)?;
    Ok(entries)
}

/// The entries of groups.
fn groups_of(alloc: Global, groups: &[u32]) -> Result<Vec<Entry>, Memory>
    ensures { IfOk result (λ entries. entries.items ≡ map group_entry groups.now) }
{
    let named = groups.iter().map(|group| Entry::Group(GroupId(*group)));
    Ok(named.collect(alloc)?)
}

/// The entries of clusters.
fn clusters_of(alloc: Global, clusters: &[u32]) -> Result<Vec<Entry>, Memory>
    ensures { IfOk result (λ entries. entries.items ≡ map Entry.Cluster clusters.now) }
{
    let named = clusters.iter().map(|cluster| Entry::Cluster(*cluster));
    Ok(named.collect(alloc)?)
}
