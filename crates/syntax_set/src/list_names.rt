//! What the lists of an item name, by number.
ghost use Rattle.std.specs.Prelude.{◌≡◌, IfOk};
ghost use Rattle.syntax_set.specs.NamedLists.{IsNamedBy, AreNamedBy, AreNames};

use crate::named::Named;
use crate::{GroupList, Item};
use std::alloc::Global;
use syn_base::Memory;

/// From so many entries on, what a list names is kept by number.
const MANY: usize = 16;

/// What the lists of an item name, of each that has many entries.
#[derive(Drop)]
pub(crate) struct ListNames {
    pub contains: Option<Named>,
    pub containedin: Option<Named>,
    pub nextgroup: Option<Named>,
}

/// What the lists of an item name, if one of them has many entries.
pub(crate) fn names_of(alloc: Global, item: &Item) -> Result<Option<Box<ListNames>>, Memory>
    ensures { IfOk result (λ names. AreNamedBy names item.now) }
{
    if is_long(&item.contains) || is_long(&item.containedin) || is_long(&item.nextgroup) {
        let names = all_names(alloc, item)?;
        Ok(Some(Box::new(alloc, names)?))
    } else {
        Ok(None)
    }
}

fn all_names(alloc: Global, item: &Item) -> Result<ListNames, Memory>
    ensures { IfOk result (λ names. AreNames names item.now) }
{
    Ok(ListNames {
        contains: named_by(alloc, &item.contains)?,
        containedin: named_by(alloc, &item.containedin)?,
        nextgroup: named_by(alloc, &item.nextgroup)?,
    })
}

/// What a list names, where it has many entries.
fn named_by(alloc: Global, list: &Option<GroupList>) -> Result<Option<Named>, Memory>
    ensures { IfOk result (λ named. IsNamedBy list.now named) }
{
    match list {
        Some(list) => {
            if list.entries.len() < MANY {
                Ok(None)
            } else {
                Ok(Some(Named::of(alloc, &list.entries)?))
            }
        }
        None => Ok(None),
    }
}

/// Whether a list has many entries.
fn is_long(list: &Option<GroupList>) -> bool {
    match list {
        Some(list) => list.entries.len() >= MANY,
        None => false,
    }
}
