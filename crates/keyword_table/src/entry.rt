//! What the table keeps of a definition.
ghost use Rattle.std.specs.Prelude.{◌≡◌};
ghost use Rattle.std.specs.Coded.{Coded-set};

use crate::Definition;
use std::snapshot::Snapshot;
use syn_base::ItemId;

/// What is kept of a definition beside the key that finds it. Of the whole definition clauses alone
/// speak.
#[derive(Drop)]
pub(crate) struct Entry {
    pub definition: Snapshot<Definition>,
    /// What the word starts.
    pub item: ItemId,
    /// The place of the last definition before this one that is found alike.
    pub earlier: Option<usize>,
    ghost starts: { item ≡ definition.value.item } by { Coded-set item-code item
        definition.value.item },
}
