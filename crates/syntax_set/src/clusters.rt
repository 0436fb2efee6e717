//! Clusters by name.
ghost use Rattle.std.specs.Prelude.{◌≡◌, ◌≤◌, ◌<◌, ◌==◌, [], length, slice_get, Some, IfOk, IfErr, OnOk, OnErr};
ghost use Rattle.std.specs.List.{list_any};
ghost use Rattle.syntax_set.specs.ClusterLists.{cluster_of, list_at, with_change, with_cluster, IsListOf};
ghost use Rattle.syntax_set.specs.ClusterTable.{no_clusters};
ghost use Rattle.syntax_set.specs.Groups.{IsRefusedGroup};
ghost use Rattle.syntax_set.specs.Membership.{cluster_has, entry_has};
ghost use Rattle.syntax_set.specs.NamedLists.{named_has};

use crate::cluster_graph::{Column, MOST_LEVELS, all_columns, has_within, leads_to_group};
use crate::cluster_list::ClusterList;
use crate::named::Named;
use crate::{Entry, GroupList, Groups, SetError};
use std::alloc::Global;
use std::marker::Model;
use syn_base::{GroupId, Memory};

/// The parts of a cluster command (`:syn-cluster`).
#[derive(Clone, Copy, Debug, PartialEq, Eq)]
pub enum Change {
    /// `contains`.
    Set,
    /// `add`.
    Add,
    /// `remove`.
    Remove,
}

/// The clusters in order of definition, which contracts see as their names, as first written, and
/// their lists.
#[derive(Drop)]
pub struct Clusters {
    alloc: Global,
    // clusters are numbered, limited and named as groups are
    names: Groups,
    lists: Vec<ClusterList>,
    // which clusters each one leads to, once they are settled
    reached: Option<Vec<Column>>,
}

impl Model for Clusters {
    ghost use Rattle.syntax_set.specs.ClusterTable as table;

    ghost Value = { table.ClusterTable };

    ghost use Rattle.std.specs.Prelude.{option_map};
    ghost use Rattle.syntax_set.specs.Reached.{HoldsReached};

    ghost view = { λ a. record { names = a.names; lists = a.lists.items } };

    ghost invariant = { λ a. HoldsReached a.names a.lists.items
        (option_map (λ columns. columns.items) a.reached) };
}

impl Clusters {
    /// No clusters. It takes no memory.
    pub fn new(alloc: Global) -> Clusters
        ensures { result ≡ no_clusters }
    {
        Clusters {
            alloc,
            names: Groups::new(alloc),
            lists: Vec::new(alloc),
            reached: None,
        }
    }

    /// How many clusters there are.
    pub fn len(&self) -> usize
        ensures lists { result ≡ length self.now.lists }
        ensures names { result ≡ length self.now.names }
    {
        self.lists.len()
    }

    /// Whether there are none.
    pub fn is_empty(&self) -> bool
        ensures { result ≡ (length self.now.lists == 0) }
    {
        self.lists.is_empty()
    }

    /// The cluster of a name. Case is ignored in ASCII letters alone.
    pub fn find(&self, name: &str) -> Result<Option<u32>, Memory>
        ensures { IfOk result (λ found. found ≡ cluster_of self.now name.now) }
    {
        match self.names.find(name)? {
            Some(group) => Ok(Some(group.0)),
            None => Ok(None),
        }
    }

    /// The cluster of a name, which is made without entries if it is new (`:syn-cluster`). At most
    /// as many clusters as groups are made. Where one is made, what was settled is so no longer.
    pub fn number(&mut self, name: &str) -> Result<u32, SetError>
        ensures number { IfOk result (λ cluster. cluster_of self.new name.now ≡ Some cluster) }
        ensures table { OnOk result (self.new ≡ with_cluster self.old name.now) }
        ensures most { OnOk result (length self.new.names ≤ 20000) }
        ensures refused { IfErr result (IsRefusedGroup self.old.names name.now) }
        ensures unchanged { OnErr result (self.new ≡ self.old) }
    {
        if let Some(cluster) = self.find(name)? {
            return Ok(cluster);
        }
        let cluster = self.lists.len() as u32;
        self.lists.reserve(1)?;
        self.names.number(name)?;
        self.lists.push(ClusterList::new(self.alloc)).unwrap();
        self.reached = None;
        Ok(cluster)
    }

    /// The name of a cluster as it was first written.
    pub fn name(&self, cluster: u32) -> &str
        requires { cluster < length self.now.lists }
        ensures { Some result.now ≡ slice_get self.now.names cluster }
    {
        self.names.name(GroupId(cluster))
    }

    /// What a cluster has: groups and clusters, each once. Each of the two kinds stands in the order in
    /// which it was first named; how the kinds are mixed says nothing.
    pub fn list(&self, cluster: u32) -> &GroupList
        requires { cluster < length self.now.lists }
        ensures { IsListOf (list_at self.now.lists cluster) result.now }
    {
        self.lists[cluster as usize].list()
    }

    /// Carries out one part of a cluster command (`:syn-cluster`). Of the list its entries alone
    /// count. What was settled is so no longer.
    pub fn cluster_change(
        &mut self,
        cluster: u32,
        how: Change,
        list: GroupList,
    ) -> Result<(), Memory>
        requires { cluster < length self.old.lists }
        ensures changed { OnOk result (self.new ≡ with_change self.old cluster how list.entries) }
        ensures unchanged { OnErr result (self.new ≡ self.old) }
    {
        self.lists[cluster as usize].change(self.alloc, how, &list.entries)?;
        self.reached = None;
        Ok(())
    }

    /// Finds where the clusters lead, so that a question looks up the clusters that one leads to and
    /// follows nothing. That takes a bit for each pair of clusters. Without it, or after a change, a
    /// question follows the lists themselves, which takes long where each of many levels names
    /// several clusters of the next.
    pub fn settle(&mut self) -> Result<(), Memory>
        ensures { self.new ≡ self.old }
    {
        self.reached = Some(all_columns(self.alloc, &self.lists)?);
        Ok(())
    }

    /// Whether an entry is the group, or a cluster that has it.
    pub(crate) fn entry_has(&self, entry: Entry, group: GroupId) -> bool
        ensures { result ≡ entry_has self.now.lists group entry }
    {
        match entry {
            Entry::Group(named) => group.0 == named.0,
            Entry::Cluster(cluster) => self.cluster_has(cluster, group.0),
        }
    }

    /// Whether the group is named, or a cluster that has it.
    pub(crate) fn names_have(&self, named: &Named, group: GroupId) -> bool
        ensures { result ≡ named_has self.now.lists named.now group }
    {
        named.groups().contains(group.0) || self.any_has(named.clusters(), group.0)
    }

    /// Whether one of these clusters has the group.
    fn any_has(&self, clusters: &[u32], group: u32) -> bool
        ensures { result ≡ list_any (cluster_has self.now.lists 30 group) clusters.now }
    {
        let mut clusters = clusters.iter();
        clusters.any(|cluster| self.cluster_has(*cluster, group))
    }

    fn cluster_has(&self, cluster: u32, group: u32) -> bool
        ensures { result ≡ cluster_has self.now.lists 30 group cluster }
    {
        match &self.reached {
            Some(columns) => leads_to_group(&self.lists, columns, cluster, group),
            None => has_within(&self.lists, MOST_LEVELS, cluster, group),
        }
    }
}
