//! Marks: groups that stand for others.

use syn_base::{GroupId, ItemId};

/// The number of the first mark.
pub(crate) const FIRST_MARK: u32 = 20_000;

/// A group by which an item shows where it is concealed.
#[derive(Clone, Copy, Debug, PartialEq, Eq)]
pub struct Mark {
    /// The group that is the mark, from 20,000 on.
    pub number: GroupId,
    /// The item whose body, keyword or areas show it.
    pub item: ItemId,
    /// The group that it stands for.
    pub shown: GroupId,
}
