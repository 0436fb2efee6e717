//! The keywords of a syntax.
ghost use Rattle.std.specs.Prelude.{◌≡◌, ◌<◌, ◌≤◌, ◌↔◌, ◌++◌, [], ◌∷◌, length, slice_get, Err, IfOk, OnOk, OnErr};
ghost use Rattle.std.specs.Option.{ForSome, option_map};
ghost use Rattle.keyword_table.specs.Candidates.{candidates};
ghost use Rattle.keyword_table.specs.Chains.{definitions, items_from, IsChained};

use crate::KeywordError;
use crate::entry::Entry;
use crate::last_table::{LastTable, folded, last_at, last_at_fold, put_last};
use std::alloc::Global;
use std::collections::HashMap;
use std::marker::Model;
use std::snapshot::Snapshot;
use syn_base::{ItemId, List, Memory};

/// The most characters that the word of a keyword has.
pub const MOST_WORD_CHARS: usize = 80;

/// A definition of a keyword (`:syn-keyword`).
#[derive(Drop)]
pub struct Definition {
    /// The whole word.
    pub word: List<char>,
    /// What the word starts.
    pub item: ItemId,
    /// Whether words that differ in case alone start it too (`:syn-case`).
    pub ignore: bool,
}

/// The keywords of a syntax. A contract sees their definitions, in the order in which they were
/// added.
#[derive(Drop)]
pub struct Keywords {
    alloc: Global,
    entries: Vec<Entry>,
    by_word: LastTable,
    by_fold: LastTable,
}

impl Model for Keywords {
    ghost use Rattle.std.specs.Prelude.{List};
    ghost use Rattle.keyword_table.specs.declared.table.Definition.{Definition};
    ghost use Rattle.keyword_table.specs.Chains.{definitions, IsTable};

    ghost Value = { List Definition };

    ghost view = { λ k. definitions k.entries.items };

    ghost invariant = { λ k. IsTable k.entries.items k.by_word k.by_fold };
}

impl Keywords {
    /// No keywords. It takes no memory.
    pub fn new(alloc: Global) -> Keywords
        ensures { result ≡ [] }
    {
        Keywords {
            alloc,
            entries: Vec::new(alloc),
            by_word: HashMap::new(alloc),
            by_fold: HashMap::new(alloc),
        }
    }

    /// How many definitions there are. Each word of an abbreviated keyword counts as one.
    pub fn len(&self) -> usize
        ensures { result ≡ length self.now }
    {
        self.entries.len()
    }

    /// The item that the definition of this number starts. They are numbered from 0, in the order in
    /// which they were added.
    pub fn item(&self, number: usize) -> Option<ItemId>
        ensures { result ≡ option_map (λ definition. definition.item)
            (slice_get self.now number) }
    {
        Some(self.entries.get(number)?.item)
    }

    /// Adds a definition: the word starts the item, where `ignore` says that case is ignored.
    pub fn add(&mut self, word: List<char>, item: ItemId, ignore: bool) -> Result<(), KeywordError>
        ensures ok { OnOk result (self.new ≡ self.old
            ++ record { word = word; item = item; ignore = ignore } ∷ []) }
        ensures too_long { (result ≡ Err KeywordError.TooLongWord) ↔ (80 < length word) }
        ensures err { OnErr result (self.new ≡ self.old) }
    {
        if word.len() > MOST_WORD_CHARS {
            return Err(KeywordError::TooLongWord);
        }
        self.entries.reserve(1)?;
        let place = self.entries.len();
        let definition = Definition { word, item, ignore };
        let kept = Snapshot::of(&definition);
        let word = definition.word.into_vec();
        let earlier = if ignore {
            put_last(&mut self.by_fold, folded(word), place)?
        } else {
            put_last(&mut self.by_word, word, place)?
        };
        self.entries.push_reserved(Entry {
            definition: kept,
            item,
            earlier,
        });
        Ok(())
    }

    /// The items that the whole word may start, in the order of choice: those of its definitions
    /// that match case, then those that ignore it, and of either the last one defined first.
    pub fn candidates(&self, alloc: Global, word: &[char]) -> Result<List<ItemId>, Memory>
        ensures { IfOk result (λ items. items ≡ candidates self.now word.now) }
    {
        let mut items = List::new(alloc);
        push_chain(&self.entries, last_at(&self.by_word, word), &mut items)?;
        if self.by_fold.is_empty() {
            return Ok(items);
        }
        let last = last_at_fold(&self.by_fold, alloc, word)?;
        push_chain(&self.entries, last, &mut items)?;
        Ok(items)
    }
}

/// Puts the items of a chain at the end, from the definition at `last` back.
fn push_chain(
    entries: &[Entry],
    last: Option<usize>,
    items: &mut List<ItemId>,
) -> Result<(), Memory>
    requires chained { IsChained entries.now }
    requires within { ForSome last (λ k. k < length entries.now) }
    ensures { OnOk result (items.new ≡ items.old ++ items_from (definitions entries.now) last) }
{
    let mut at = last;
    while let Some(k) = at {
        let entry = &entries[k];
        items.push(entry.item)?;
        at = entry.earlier;
    }
    Ok(())
}
