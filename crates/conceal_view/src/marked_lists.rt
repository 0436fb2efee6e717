//! Lists that name marks.
ghost use Rattle.std.specs.Prelude.{◌≡◌, ◌++◌, map, option_map, IfOk, OnOk};
ghost use Rattle.paint_marks.specs.Naming.{entry_with_marks, marked_list};
ghost use Rattle.syntax_set.specs.ClusterLists.{group_entry};
ghost use Rattle.conceal_view.specs.MarkTables.{numbers_at};

use crate::group_marks::GroupMarks;
use std::alloc::Global;
use syn_base::{GroupId, List, Memory};
use syntax_set::{Entry, GroupList};

/// The list with the marks of each group behind it, if there is one.
pub(crate) fn marked_option(
    alloc: Global,
    list: &Option<GroupList>,
    marks: &GroupMarks,
) -> Result<Option<GroupList>, Memory>
    ensures { IfOk result (λ marked.
        marked ≡ option_map (marked_list (numbers_at marks.now)) list.now) }
{
    match list {
        Some(list) => Ok(Some(marked_list(alloc, list, marks)?)),
        None => Ok(None),
    }
}

/// The list with the marks of each group behind it.
pub(crate) fn marked_list(
    alloc: Global,
    list: &GroupList,
    marks: &GroupMarks,
) -> Result<GroupList, Memory>
    ensures { IfOk result (λ marked. marked ≡ marked_list (numbers_at marks.now) list.now) }
{
    let mut entries = List::new(alloc);
    for entry in list.entries.as_slice() {
        push_entry(&mut entries, *entry, marks)?;
    }
    Ok(GroupList {
        special: list.special,
        entries,
    })
}

/// Puts an entry at the end, and the marks of its group behind it.
fn push_entry(entries: &mut List<Entry>, entry: Entry, marks: &GroupMarks) -> Result<(), Memory>
    ensures { OnOk result (entries.new
        ≡ entries.old ++ entry_with_marks (numbers_at marks.now) entry) }
{
    entries.push(entry)?;
    match entry {
        Entry::Group(group) => push_groups(entries, marks.of_group(group)),
        Entry::Cluster(_) => Ok(()),
    }
}

fn push_groups(entries: &mut List<Entry>, groups: &[u32]) -> Result<(), Memory>
    ensures { OnOk result (entries.new ≡ entries.old ++ map group_entry groups.now) }
{
    for group in groups {
        entries.push(Entry::Group(GroupId(*group)))?;
    }
    Ok(())
}
