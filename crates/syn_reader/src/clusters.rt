//! Cluster commands (`:syn-cluster`), and what is cleared (`:syn-clear`).
ghost use Rattle.std.specs.Prelude.{◌≡◌, ◌<◌, length, OnOk};
ghost use Rattle.syn_reader.specs.Answers.{Leaves};
ghost use Rattle.syn_reader.specs.Clusters as spec;

use crate::contents::{ReadChange, changes_read};
use crate::lists::list_made;
use crate::names::{Names, text_of};
use crate::reading::Reading;
use crate::refusal::Refusal;
use keyword_table::Keywords;
use std::alloc::Global;
use syn_base::{List, Memory};
use syn_words::{Named, NamedList};
use syntax_set::{Change, Clusters, GroupList, Special};

/// Carries out one part of a cluster command.
fn make_change(
    alloc: Global,
    names: &mut Names,
    cluster: u32,
    change: &ReadChange,
) -> Result<(), Refusal>
    requires { cluster < length names.old.clusters.lists }
    ensures change { Leaves result names.new (spec.with_change_made cluster names.old change.now) }
    ensures within { OnOk result (cluster < length names.new.clusters.lists) }
{
    let list = list_made(alloc, names, &change.list)?;
    names.clusters.cluster_change(cluster, change.how, list)?;
    Ok(())
}

/// Carries out the parts of a cluster command in the order written.
fn make_changes(
    alloc: Global,
    names: &mut Names,
    name: &[char],
    changes: &[ReadChange],
) -> Result<(), Refusal>
    ensures { Leaves result names.new (spec.changes_made names.old name.now changes.now) }
{
    let cluster = names.cluster(alloc, name)?;
    for change in changes {
        make_change(alloc, names, cluster, change)?;
    }
    Ok(())
}

impl Reading {
    /// `:syn-cluster`.
    pub(crate) fn cluster(
        &mut self,
        alloc: Global,
        name: &[char],
        changes: List<(Change, NamedList)>,
    ) -> Result<(), Refusal>
        ensures { Leaves result self.new (spec.cluster_command self.old name.now changes) }
    {
        let read = changes_read(alloc, &self.names.groups, changes)?;
        make_changes(alloc, &mut self.names, name, read.as_slice())
    }

    /// `:syn-clear` without names. It takes no memory.
    pub(crate) fn clear_all(&mut self, alloc: Global)
        ensures { self.new ≡ spec.all_cleared self.old }
    {
        self.names.clusters = Clusters::new(alloc);
        self.items.clear(None);
        self.keywords = Keywords::new(alloc);
        self.ignore = false;
    }

    /// Clears the items of a group. A name that isn't known is no fault.
    fn clear_group(&mut self, name: &str) -> Result<(), Memory>
        ensures { OnOk result (self.new ≡ spec.group_cleared_by self.old name.now) }
    {
        match self.names.groups.find(name)? {
            None => Ok(()),
            Some(group) => {
                self.items.clear(Some(group));
                Ok(())
            }
        }
    }

    /// Clears the entries of a cluster.
    fn clear_cluster(&mut self, alloc: Global, name: &str) -> Result<(), Memory>
        ensures { OnOk result (self.new ≡ spec.cluster_cleared_by self.old name.now) }
    {
        match self.names.clusters.find(name)? {
            None => Ok(()),
            Some(cluster) => {
                // each name has a list
                let _count = self.names.clusters.len();
                let nothing = GroupList {
                    special: Special::Plain,
                    entries: List::new(alloc),
                };
                self.names
                    .clusters
                    .cluster_change(cluster, Change::Set, nothing)
            }
        }
    }

    fn clear_name(&mut self, alloc: Global, name: &Named) -> Result<(), Memory>
        ensures { OnOk result (self.new ≡ spec.name_cleared self.old name.now) }
    {
        match name {
            Named::Group(name) => self.clear_group(text_of(alloc, name.as_slice())?.as_str()),
            Named::Cluster(name) => {
                self.clear_cluster(alloc, text_of(alloc, name.as_slice())?.as_str())
            }
            Named::Names(_) => Ok(()),
        }
    }

    /// `:syn-clear` with names.
    pub(crate) fn clear_names(&mut self, alloc: Global, names: &[Named]) -> Result<(), Memory>
        ensures { OnOk result (self.new ≡ spec.names_cleared self.old names.now) }
    {
        for name in names {
            self.clear_name(alloc, name)?;
        }
        Ok(())
    }
}
