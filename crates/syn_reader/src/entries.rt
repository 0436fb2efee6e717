//! Entries of a list, each once.
ghost use Rattle.std.specs.Prelude.{◌≡◌, [], IfOk};
ghost use Rattle.syn_reader.specs.NamedLists.{with_entry};

use indexmap::IndexSet;
use std::alloc::Global;
use std::marker::Model;
use syn_base::{List, Memory};
use syntax_set::Entry;

/// Entries of a list, each once, in the order in which they came. Contracts see them as a list.
#[derive(Drop)]
pub(crate) struct Entries {
    entries: List<Entry>,
    groups: IndexSet<u32>,
    clusters: IndexSet<u32>,
}

impl Model for Entries {
    ghost use Rattle.std.specs.Prelude.{◌≡◌, List};
    ghost use Rattle.syntax_set.specs.declared.item.Entry.{Entry};
    ghost use Rattle.syn_reader.specs.NamedLists.{groups_in, clusters_in};

    ghost Value = { List Entry };

    ghost view = { λ a. a.entries };

    ghost invariant = { λ a.
        (a.groups.keys ≡ groups_in a.entries) × (a.clusters.keys ≡ clusters_in a.entries) };
}

impl Entries {
    /// No entries. It takes no memory.
    pub(crate) fn new(alloc: Global) -> Entries
        ensures { result ≡ [] }
    {
        Entries {
            entries: List::new(alloc),
            groups: IndexSet::new(alloc),
            clusters: IndexSet::new(alloc),
        }
    }

    /// With one more, unless it is there.
    pub(crate) fn with_entry(self, entry: Entry) -> Result<Entries, Memory>
        ensures { IfOk result (λ more. more ≡ with_entry self entry) }
    {
        let Entries {
            mut entries,
            mut groups,
            mut clusters,
        } = self;
        let is_new = match entry {
            Entry::Group(group) => groups.insert(group.0)?,
            Entry::Cluster(cluster) => clusters.insert(cluster)?,
        };
        if is_new {
            entries.push(entry)?;
        }
        Ok(Entries {
            entries,
            groups,
            clusters,
        })
    }

    /// The entries as a list.
    pub(crate) fn into_list(self) -> List<Entry>
        ensures { result ≡ self }
    {
        self.entries
    }
}
