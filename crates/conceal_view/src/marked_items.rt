//! The items of a marked syntax.
ghost use Rattle.std.specs.Prelude.{◌≡◌, ◌+◌, ◌++◌, length, IfOk, OnOk};
ghost use Rattle.conceal_view.specs.MarkTables.{added_as, numbers_at};
ghost use Rattle.conceal_view.specs.Marking.{in_marks, marked_from, marked_item, with_marks_named};
ghost use Rattle.conceal_view.specs.Marking.{body_in_mark, areas_in_marks};
ghost use Rattle.conceal_view.specs.Marks.{concealed_areas, concealed_body, number_behind};
ghost use Rattle.syntax_set.specs.Items.{with_item};

use crate::area_marks::{AreaMarks, marked_kind};
use crate::find_marks::number_behind;
use crate::group_marks::GroupMarks;
use crate::marked_lists::marked_option;
use crate::marks::FIRST_MARK;
use std::alloc::Global;
use syn_base::{GroupId, ItemId, Memory};
use syntax_set::{Item, ItemSet};

/// The items in their marks, with lists that name the marks of each group.
pub(crate) fn marked_items(
    alloc: Global,
    items: &ItemSet,
    marks: &GroupMarks,
) -> Result<ItemSet, Memory>
    ensures { IfOk result (λ marked.
        marked ≡ marked_from (numbers_at marks.now) 20000 items.now) }
{
    let mut marked = ItemSet::new(alloc);
    let mut number = FIRST_MARK;
    for place in 0..items.added() {
        let id = ItemId(place as u32);
        let live = items.live(id);
        let item = marked_item(alloc, items.item(id), live, &mut number, marks)?;
        add(&mut marked, item, live)?;
    }
    Ok(marked)
}

/// Adds an item as it is. No set has more items than may be added to another.
fn add(items: &mut ItemSet, item: Item, live: bool) -> Result<(), Memory>
    ensures { OnOk result (items.new ≡ with_item live items.old item) }
{
    let added = if live {
        items.add_item(item)
    } else {
        items.add_dead(item)
    };
    match added {
        Ok(_) => Ok(()),
        Err(_) => Err(Memory),
    }
}

/// An item in its marks, of which the first has this number, with lists that name marks. The number
/// becomes that behind them.
fn marked_item(
    alloc: Global,
    item: &Item,
    live: bool,
    number: &mut u32,
    marks: &GroupMarks,
) -> Result<Item, Memory>
    ensures item { IfOk result (λ marked. marked
        ≡ (marked_item (numbers_at marks.now) number.old (added_as live item.now)).item) }
    ensures number { OnOk result (number.new
        ≡ number_behind number.old (added_as live item.now)) }
{
    let mut marked = item.copy(alloc)?;
    if live {
        marked = in_marks(alloc, marked, number)?;
    }
    name_marks(alloc, &mut marked, marks)?;
    Ok(marked)
}

/// A live item in its marks.
fn in_marks(alloc: Global, item: Item, number: &mut u32) -> Result<Item, Memory>
    ensures item { IfOk result (λ marked. marked ≡ in_marks number.old item) }
    ensures number { OnOk result (number.new
        ≡ number.old + length (concealed_body item ++ concealed_areas item)) }
{
    let mut item = item;
    mark_body(&mut item, number)?;
    mark_areas(alloc, item, number)
}

fn mark_body(item: &mut Item, number: &mut u32) -> Result<(), Memory>
    ensures item { OnOk result (item.new ≡ body_in_mark number.old item.old) }
    ensures number { OnOk result (number.new
        ≡ number.old + length (concealed_body item.old)) }
{
    if item.conceal {
        item.group = GroupId(*number);
        *number = number_behind(*number, 1)?;
    }
    Ok(())
}

fn mark_areas(alloc: Global, item: Item, number: &mut u32) -> Result<Item, Memory>
    ensures item { IfOk result (λ marked. marked ≡ areas_in_marks number.old item) }
    ensures number { OnOk result (number.new
        ≡ number.old + length (concealed_areas item)) }
{
    let mut item = item;
    let areas = AreaMarks::of(alloc, &item, *number)?;
    item.kind = marked_kind(item.kind, &areas);
    *number = areas.behind();
    Ok(item)
}

/// Lets the lists of an item name the marks of each group.
fn name_marks(alloc: Global, item: &mut Item, marks: &GroupMarks) -> Result<(), Memory>
    ensures { OnOk result (item.new ≡ with_marks_named (numbers_at marks.now) item.old) }
{
    item.contains = marked_option(alloc, &item.contains, marks)?;
    item.containedin = marked_option(alloc, &item.containedin, marks)?;
    item.nextgroup = marked_option(alloc, &item.nextgroup, marks)?;
    Ok(())
}
