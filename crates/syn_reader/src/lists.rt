//! Lists of groups, with their new names made.
ghost use Rattle.syn_reader.specs.Answers.{Makes};
ghost use Rattle.syn_reader.specs.NamedLists as spec;

use crate::entries::Entries;
use crate::names::Names;
use crate::read_list::{ReadList, ReadName};
use crate::refusal::Refusal;
use std::alloc::Global;
use syntax_set::{Entry, GroupList};

/// The entry of a name, which is made if it is new.
fn entry_made(alloc: Global, names: &mut Names, name: &ReadName) -> Result<Entry, Refusal>
    ensures { Makes result names.new (spec.entry_made names.old name.now) }
{
    match name {
        ReadName::Group(name) => Ok(Entry::Group(names.group(alloc, name.as_slice())?)),
        ReadName::Cluster(name) => Ok(Entry::Cluster(names.cluster(alloc, name.as_slice())?)),
        ReadName::Found(group) => Ok(Entry::Group(*group)),
    }
}

/// The entries with that of a name.
fn with_name(
    alloc: Global,
    names: &mut Names,
    entries: Entries,
    name: &ReadName,
) -> Result<Entries, Refusal>
    ensures { Makes result names.new (spec.with_entry_made (entries, names.old) name.now) }
{
    let entry = entry_made(alloc, names, name)?;
    Ok(entries.with_entry(entry)?)
}

/// A list with its new names made, from left to right.
pub(crate) fn list_made(
    alloc: Global,
    names: &mut Names,
    list: &ReadList,
) -> Result<GroupList, Refusal>
    ensures { Makes result names.new (spec.list_made names.old list.now) }
{
    let mut entries = Entries::new(alloc);
    for name in list.names.as_slice() {
        entries = with_name(alloc, names, entries, name)?;
    }
    Ok(GroupList {
        special: list.special,
        entries: entries.into_list(),
    })
}
