//! Includes (`:syn-include`).
ghost use Rattle.std.specs.Prelude.{◌≡◌, ◌<◌, length, slice_get, IfOk};
ghost use Rattle.syn_reader.specs.Answers.{Leaves};
ghost use Rattle.syn_reader.specs.Includes as spec;

use crate::names::Names;
use crate::reading::Reading;
use crate::refusal::Refusal;
use std::alloc::Global;
use syn_base::{ItemId, List, Memory};
use syn_words::Cause;
use syntax_set::{Change, Entry, GroupList, ItemSet, Special};

/// The most includes, those by `runtime` among them.
pub(crate) const MOST_INCLUDES: u32 = 999;

/// Whether an item is a live one of this include that was written without `contained`.
fn is_open_in(items: &ItemSet, id: ItemId, number: u32) -> bool
    requires { id.0 < length items.now }
    ensures { result ≡ spec.is_open_at number (slice_get items.now id.0) }
{
    let item = items.item(id);
    items.live(id) && !item.contained && item.include == number
}

/// The groups of the live items of this include that were written without `contained`.
fn open_groups(alloc: Global, items: &ItemSet, number: u32) -> Result<List<Entry>, Memory>
    ensures { IfOk result (λ entries. entries ≡ spec.open_groups number items.now) }
{
    let mut entries = List::new(alloc);
    for place in 0..items.added() {
        let id = ItemId(place as u32);
        if is_open_in(items, id, number) {
            entries.push(Entry::Group(items.item(id).group))?;
        }
    }
    Ok(entries)
}

/// Makes the cluster of an include, if there is none of its name.
fn begin_cluster(
    alloc: Global,
    names: &mut Names,
    cluster: &Option<List<char>>,
) -> Result<(), Refusal>
    ensures { Leaves result names.new (spec.cluster_begun names.old cluster.now) }
{
    match cluster {
        None => Ok(()),
        Some(name) => {
            names.cluster(alloc, name.as_slice())?;
            Ok(())
        }
    }
}

/// What has been read, and how many includes there were, those by `runtime` too.
#[derive(Drop)]
pub(crate) struct Progress {
    pub reading: Reading,
    pub includes: u32,
}

impl Progress {
    /// Counts one include more, or one file by `runtime`.
    pub(crate) fn count_include(&mut self) -> Result<(), Refusal>
        ensures { Leaves result self.new (spec.counted self.old) }
    {
        if self.includes >= MOST_INCLUDES {
            return Err(Refusal::Fault(Cause::TooManyIncludes));
        }
        self.includes += 1;
        Ok(())
    }

    /// An include begins.
    pub(crate) fn begin_include(&mut self) -> Result<(), Refusal>
        ensures { Leaves result self.new (spec.include_begun self.old) }
    {
        self.count_include()?;
        self.reading.include = self.includes;
        Ok(())
    }

    /// Names the cluster of an include.
    pub(crate) fn name_cluster(
        &mut self,
        alloc: Global,
        cluster: &Option<List<char>>,
    ) -> Result<(), Refusal>
        ensures named { Leaves result self.new (spec.cluster_named self.old cluster.now) }
        ensures includes { self.new.includes ≡ self.old.includes }
    {
        begin_cluster(alloc, &mut self.reading.names, cluster)
    }
}

/// The groups of an include's items join a cluster.
fn join_cluster(
    alloc: Global,
    names: &mut Names,
    items: &ItemSet,
    number: u32,
    name: &[char],
) -> Result<(), Refusal>
    ensures { Leaves result names.new (spec.cluster_joined names.old items.now number name.now) }
{
    let place = names.cluster(alloc, name)?;
    let list = GroupList {
        special: Special::Plain,
        entries: open_groups(alloc, items, number)?,
    };
    names.clusters.cluster_change(place, Change::Add, list)?;
    Ok(())
}

impl Reading {
    /// The groups of an include's items join its cluster.
    fn join(
        &mut self,
        alloc: Global,
        number: u32,
        cluster: &Option<List<char>>,
    ) -> Result<(), Refusal>
        ensures { Leaves result self.new (spec.joined self.old number cluster.now) }
    {
        match cluster {
            None => Ok(()),
            Some(name) => {
                join_cluster(alloc, &mut self.names, &self.items, number, name.as_slice())
            }
        }
    }

    /// An include ends, and the one around it goes on.
    pub(crate) fn end_include(
        &mut self,
        alloc: Global,
        number: u32,
        around: u32,
        cluster: &Option<List<char>>,
    ) -> Result<(), Refusal>
        ensures { Leaves result self.new (spec.include_ended self.old number around cluster.now) }
    {
        self.join(alloc, number, cluster)?;
        self.include = around;
        Ok(())
    }
}
