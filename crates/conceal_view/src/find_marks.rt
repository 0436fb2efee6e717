//! Marks as they are made.
ghost use Rattle.std.specs.Prelude.{◌≡◌, ◌+◌, ◌++◌, ◌∷◌, [], length, IfOk, OnOk};
ghost use Rattle.conceal_view.specs.MarkTables.{added_as};
ghost use Rattle.conceal_view.specs.Marks.{groups_to_mark, marks_for, marks_of};
ghost use Rattle.syntax_set.specs.Groups.{group_numbered};

use crate::Mark;
use crate::area_marks::concealed_areas;
use crate::marks::FIRST_MARK;
use std::alloc::Global;
use syn_base::{GroupId, ItemId, List, Memory};
use syntax_set::{Item, ItemSet};

/// The marks of all items.
pub(crate) fn marks_of(alloc: Global, items: &ItemSet) -> Result<List<Mark>, Memory>
    ensures { IfOk result (λ marks. marks ≡ marks_of items.now) }
{
    let mut marks = List::new(alloc);
    for place in 0..items.added() {
        let id = ItemId(place as u32);
        let groups = groups_to_mark(alloc, items.item(id), items.live(id))?;
        push_marks(&mut marks, id, groups.as_slice())?;
    }
    Ok(marks)
}

/// The groups for which an item gets marks.
fn groups_to_mark(alloc: Global, item: &Item, live: bool) -> Result<List<u32>, Memory>
    ensures { IfOk result (λ groups.
        groups ≡ groups_to_mark (added_as live item.now)) }
{
    let mut groups = List::new(alloc);
    if !live {
        return Ok(groups);
    }
    if item.conceal {
        groups.push(item.group.0)?;
    }
    let areas = concealed_areas(alloc, item)?;
    groups.extend_from_slice(areas.as_slice())?;
    Ok(groups)
}

/// Puts the marks of an item for some groups at the end.
fn push_marks(marks: &mut List<Mark>, item: ItemId, groups: &[u32]) -> Result<(), Memory>
    ensures { OnOk result (marks.new
        ≡ marks.old ++ marks_for (20000 + length marks.old) item.0 groups.now) }
{
    for group in groups {
        push_mark(marks, item, GroupId(*group))?;
    }
    Ok(())
}

fn push_mark(marks: &mut List<Mark>, item: ItemId, shown: GroupId) -> Result<(), Memory>
    ensures { OnOk result (marks.new ≡ marks.old ++ record {
      number = group_numbered (20000 + length marks.old);
      item = item;
      shown = shown;
    } ∷ []) }
{
    let number = number_behind(FIRST_MARK, marks.len())?;
    marks.push(Mark {
        number: GroupId(number),
        item,
        shown,
    })
}

/// The number so far behind another. Memory is at its end before numbers are.
pub(crate) fn number_behind(number: u32, by: usize) -> Result<u32, Memory>
    ensures { IfOk result (λ behind. behind ≡ number + by) }
{
    if by > (u32::MAX - number) as usize {
        return Err(Memory);
    }
    Ok(number + by as u32)
}
