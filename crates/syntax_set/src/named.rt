//! The numbers of what one cluster names.
ghost use Rattle.std.specs.Prelude.{◌≡◌, IfOk, OnOk, OnErr, take};
ghost use Rattle.syntax_set.specs.ClusterLists.{less, with_entries, with_entry, BeginsWith};
ghost use Rattle.syntax_set.specs.ClusterTable.{no_list};

use crate::Entry;
use crate::number_set::NumberSet;
use std::alloc::Global;
use std::marker::Model;
use syn_base::{List, Memory};

/// The groups and clusters that a cluster names, each once.
#[derive(Drop)]
pub(crate) struct Named {
    groups: NumberSet,
    clusters: NumberSet,
}

impl Model for Named {
    ghost use Rattle.syntax_set.specs.ClusterTable as table;

    ghost Value = { table.ClusterList };

    ghost view = { λ a. record { groups = a.groups; clusters = a.clusters } };
}

impl Named {
    /// Nothing. It takes no memory.
    pub(crate) fn new(alloc: Global) -> Named
        ensures { result ≡ no_list }
    {
        Named {
            groups: NumberSet::new(alloc),
            clusters: NumberSet::new(alloc),
        }
    }

    pub(crate) fn groups(&self) -> &NumberSet
        ensures { result.now ≡ self.now.groups }
    {
        &self.groups
    }

    pub(crate) fn clusters(&self) -> &[u32]
        ensures { result.now ≡ self.now.clusters }
    {
        self.clusters.as_slice()
    }

    /// What these entries name.
    pub(crate) fn of(alloc: Global, entries: &List<Entry>) -> Result<Named, Memory>
        ensures { IfOk result (λ named. named ≡ with_entries no_list entries.now) }
    {
        let mut named = Named::new(alloc);
        named.insert_all(entries)?;
        Ok(named)
    }

    /// Puts the entries at the end, perhaps not all of them where memory is wanting.
    pub(crate) fn insert_all(&mut self, entries: &List<Entry>) -> Result<(), Memory>
        ensures ok { OnOk result (self.new ≡ with_entries self.old entries.now) }
        ensures begins { BeginsWith self.new self.old }
    {
        for entry in entries.as_slice() {
            self.insert(*entry)?;
        }
        Ok(())
    }

    fn insert(&mut self, entry: Entry) -> Result<(), Memory>
        ensures ok { OnOk result (self.new ≡ with_entry self.old entry) }
        ensures err { OnErr result (self.new ≡ self.old) }
    {
        match entry {
            Entry::Group(group) => self.groups.insert(group.0),
            Entry::Cluster(cluster) => self.clusters.insert(cluster),
        }
    }

    /// Takes away the groups and the clusters from these places on.
    pub(crate) fn truncate(&mut self, groups: usize, clusters: usize)
        ensures { self.new ≡ record {
          groups = take groups self.old.groups;
          clusters = take clusters self.old.clusters;
        } }
    {
        self.groups.truncate(groups);
        self.clusters.truncate(clusters);
    }

    /// What is left without the entries.
    pub(crate) fn without(&self, alloc: Global, entries: &List<Entry>) -> Result<Named, Memory>
        ensures { IfOk result (λ left. left ≡ less self.now (with_entries no_list entries.now)) }
    {
        let other = Named::of(alloc, entries)?;
        self.less(alloc, &other)
    }

    /// What another doesn't name.
    fn less(&self, alloc: Global, other: &Named) -> Result<Named, Memory>
        ensures { IfOk result (λ left. left ≡ less self.now other.now) }
    {
        let groups = self.groups.without(alloc, &other.groups)?;
        let clusters = self.clusters.without(alloc, &other.clusters)?;
        Ok(Named { groups, clusters })
    }
}
