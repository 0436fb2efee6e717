//! The items that have started at a place.
ghost use Rattle.std.specs.Prelude.{◌≡◌, ◌∷◌, List, reverse, IfOk};
ghost use Rattle.std.specs.List.{list_any};
ghost use Rattle.item_pick.specs.Common.{same_item, AreMarks};
ghost use Rattle.syn_base.specs.declared.places.ItemId.{ItemId as ItemIdOf};

use std::alloc::Global;
use std::marker::Model;
use syn_base::{ItemId, List, Memory};

/// From so many items on each has a mark.
const MANY: usize = 16;

/// The items that have started at a place, in order. Where they are many, each item of the syntax
/// has a mark that says whether it is among them, so that many starts at one place cost no walk
/// over those before.
#[derive(Drop)]
pub(crate) struct Tried<'a> {
    items: &'a List<ItemId>,
    marks: Vec<bool>,
}

impl<'a> Model for Tried<'a> {
    ghost use Rattle.std.specs.Prelude.{List, reverse};
    ghost use Rattle.syn_base.specs.declared.places.ItemId.{ItemId};
    ghost use Rattle.item_pick.specs.Marks.{AreMarks};

    ghost Value = { List ItemId };

    ghost view = { λ t. t.items.now };

    ghost invariant = { λ t. AreMarks t.marks.items (reverse t.items.now) };
}

impl<'a> Tried<'a> {
    /// These items, of a syntax that has so many.
    pub(crate) fn new(
        alloc: Global,
        items: &'a List<ItemId>,
        count: usize,
    ) -> Result<Tried<'a>, Memory>
        ensures { IfOk result (λ t. t ≡ items.now) }
    {
        if items.len() < MANY {
            return Ok(Tried {
                items,
                marks: Vec::new(alloc),
            });
        }
        let marks = marks_of(alloc, items.as_slice(), count)?;
        Ok(Tried { items, marks })
    }

    /// Whether an item is among them.
    pub(crate) fn has(&self, id: ItemId) -> bool
        ensures { result ≡ list_any (same_item id) (reverse self.now) }
    {
        match self.marks.get(id.0 as usize) {
            Some(marked) => *marked,
            None => self.items.as_slice().iter().rev().any(|t| t.0 == id.0),
        }
    }
}

/// A mark for each item of a syntax that has so many.
fn marks_of(alloc: Global, items: &[ItemId], count: usize) -> Result<Vec<bool>, Memory>
    ensures { IfOk result (λ marks. AreMarks marks.items (reverse items.now)) }
{
    let mut marks = Vec::new(alloc);
    marks.resize(count, false)?;
    for id in items {
        mark(&mut marks, *id);
    }
    Ok(marks)
}

/// Marks one item more.
fn mark(marks: &mut Vec<bool>, id: ItemId)
    ensures { (items : List ItemIdOf) → AreMarks marks.old.items items
        → AreMarks marks.new.items (id ∷ items) }
{
    if let Some(marked) = marks.get_mut(id.0 as usize) {
        *marked = true;
    }
}
