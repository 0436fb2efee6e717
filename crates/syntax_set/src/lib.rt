//! What a syntax is made of: highlight groups and clusters by name, and the items.
//!
//! An item is known by its number, in order of definition, and so are groups and clusters. Whether
//! a list has an item goes by the item's group: the list names it, or a cluster that names it, or
//! a cluster that names such a cluster, so many levels deep. Once the clusters are settled it is kept
//! which ones each leads to, and a look into a list follows nothing; before that, and after a change,
//! it follows the lists. Either way it takes no memory.
#![tactic(auto)]

mod added_item;
mod cluster_graph;
mod cluster_list;
mod clusters;
mod copy;
mod groups;
mod item;
mod item_set;
mod kept_item;
mod list_names;
mod named;
mod number_set;
mod set_error;

pub use added_item::AddedItem;
pub use clusters::{Change, Clusters};
pub use groups::{Groups, MOST_GROUPS};
pub use item::{Entry, GroupList, Item, ItemKind, Offset, Pattern, Special};
pub use item_set::{ItemSet, MOST_ITEMS};
pub use set_error::SetError;
