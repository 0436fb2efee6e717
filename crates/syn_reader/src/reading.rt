//! What the commands so far have made.
ghost use Rattle.std.specs.Prelude.{◌≡◌};
ghost use Rattle.syn_reader.specs.Answers.{Gives, Leaves, Makes};
ghost use Rattle.syn_reader.specs.Items as item_spec;
ghost use Rattle.syn_reader.specs.Items.{with_names};
ghost use Rattle.syn_reader.specs.Commands as spec;

use crate::contents::{Content, contents_of};
use crate::draft::Draft;
use crate::names::{Names, text_of};
use crate::names_pattern::usual_sets;
use crate::patterns::Patterns;
use crate::refusal::Refusal;
use char_class::{CharSet, Sets};
use hi_links::Links;
use keyword_table::{KeywordError, Keywords};
use std::alloc::Global;
use syn_base::{ItemId, List};
use syn_words::{Cause, ItemCommand, Piece, What};
use syntax_set::{Item, ItemSet};

/// What the commands so far have made, and what holds for the next one.
#[derive(Drop)]
pub(crate) struct Reading {
    pub names: Names,
    pub items: ItemSet,
    pub patterns: Patterns,
    pub keywords: Keywords,
    pub links: Links,
    pub sets: Sets,
    /// Case is ignored (`:syn-case`).
    pub ignore: bool,
    /// The number of the include that is being read, 0 outside all.
    pub include: u32,
}

/// Puts a word of an item at the end.
fn add_word(
    keywords: &mut Keywords,
    id: ItemId,
    ignore: bool,
    word: List<char>,
) -> Result<(), Refusal>
    ensures { Leaves result keywords.new (item_spec.with_definition id ignore keywords.old word) }
{
    match keywords.add(word, id, ignore) {
        Ok(()) => Ok(()),
        Err(KeywordError::TooLongWord) => Err(Refusal::Fault(Cause::TooLongWord)),
        Err(KeywordError::Memory) => Err(Refusal::Memory),
    }
}

/// Puts the words of an item at the end.
fn add_words(
    keywords: &mut Keywords,
    id: ItemId,
    ignore: bool,
    words: List<List<char>>,
) -> Result<(), Refusal>
    ensures { Leaves result keywords.new (item_spec.with_definitions keywords.old id ignore words) }
{
    for word in words.into_vec() {
        add_word(keywords, id, ignore, word)?;
    }
    Ok(())
}

/// The set of a value.
fn set_of(alloc: Global, value: &[char]) -> Result<CharSet, Refusal>
    ensures { Gives result (spec.set_at value.now) }
{
    let text = text_of(alloc, value)?;
    match CharSet::from_option(text.as_str()) {
        Ok(set) => Ok(set),
        Err(_) => Err(Refusal::Fault(Cause::BadOptionValue)),
    }
}

/// The set of a value, or the usual one.
fn keyword_set(alloc: Global, value: &Option<List<char>>) -> Result<CharSet, Refusal>
    ensures { Gives result (spec.keyword_set value.now) }
{
    match value {
        None => Ok(usual_sets().keyword),
        Some(value) => set_of(alloc, value.as_slice()),
    }
}

impl Reading {
    /// Adds an item and its words.
    fn add(&mut self, item: Item, words: List<List<char>>) -> Result<(), Refusal>
        ensures { Leaves result self.new (item_spec.item_added self.old item words) }
    {
        let ignore = item.ignore;
        let id = self.items.add_item(item)?;
        add_words(&mut self.keywords, id, ignore, words)
    }

    /// The item of pieces that are read, of which nothing but its kind is left to say.
    fn drafted(
        &mut self,
        alloc: Global,
        group: &[char],
        contents: List<Content>,
    ) -> Result<Draft, Refusal>
        ensures drafted { Makes result self.new.names (item_spec.drafted self.old group.now contents) }
        ensures names_alone { self.new ≡ with_names self.old self.new.names }
    {
        let own = self.names.group(alloc, group)?;
        let mut draft = Draft::new(alloc, own, self.ignore, self.include);
        draft.take_all(alloc, &mut self.names, contents)?;
        Ok(draft)
    }

    fn add_drafted(&mut self, kind: ItemCommand, draft: Draft) -> Result<(), Refusal>
        ensures { Leaves result self.new (item_spec.finished self.old kind (draft, self.old.names)) }
    {
        let (item, words) = draft.finish(kind)?;
        self.add(item, words)
    }

    /// The item of pieces that are read.
    #[tactic(auto, using(crate::proofs::ItemLaws::finished_with_names))]
    fn add_contents(
        &mut self,
        alloc: Global,
        kind: ItemCommand,
        group: &[char],
        contents: List<Content>,
    ) -> Result<(), Refusal>
        ensures { Leaves result self.new (item_spec.item_of self.old kind group.now contents) }
    {
        let draft = self.drafted(alloc, group, contents)?;
        self.add_drafted(kind, draft)
    }

    /// A command that defines an item (`:syn-define`).
    pub(crate) fn item(
        &mut self,
        alloc: Global,
        kind: ItemCommand,
        group: &[char],
        pieces: List<Piece>,
    ) -> Result<(), Refusal>
        ensures { Leaves result self.new (item_spec.item_command self.old kind group.now pieces) }
    {
        let contents = contents_of(alloc, &self.names.groups, &mut self.patterns, pieces)?;
        self.add_contents(alloc, kind, group, contents)
    }

    /// `:syn-iskeyword`; none for `clear`.
    pub(crate) fn iskeyword(
        &mut self,
        alloc: Global,
        value: Option<List<char>>,
    ) -> Result<(), Refusal>
        ensures { Leaves result self.new (spec.iskeyword_command self.old value) }
    {
        self.sets.keyword = keyword_set(alloc, &value)?;
        Ok(())
    }

    /// `:syn-sync`.
    fn sync(&mut self, accepted: bool) -> Result<(), Refusal>
        ensures { Leaves result self.new (spec.sync_command self.old accepted) }
    {
        if accepted {
            Ok(())
        } else {
            Err(Refusal::Fault(Cause::SyncMethod))
        }
    }

    /// Carries out a command that asks for no file. `assume` says that each sync method counts as
    /// `fromstart`.
    pub(crate) fn carry_out(
        &mut self,
        alloc: Global,
        assume: bool,
        what: What,
    ) -> Result<(), Refusal>
        ensures { Leaves result self.new (spec.effect assume self.old what) }
    {
        match what {
            What::Nothing => Ok(()),
            What::CaseIgnore(ignore) => {
                self.ignore = ignore;
                Ok(())
            }
            What::Iskeyword(value) => self.iskeyword(alloc, value),
            What::Item {
                kind,
                group,
                pieces,
            } => self.item(alloc, kind, group.as_slice(), pieces),
            What::Cluster { name, changes } => self.cluster(alloc, name.as_slice(), changes),
            What::Sync { fromstart } => self.sync(fromstart || assume),
            What::ClearAll => {
                self.clear_all(alloc);
                Ok(())
            }
            What::Clear(names) => Ok(self.clear_names(alloc, names.as_slice())?),
            What::Link {
                from,
                to,
                unset,
                force,
            } => self.link(alloc, from.as_slice(), &to, unset, force),
            What::Style {
                group,
                parts,
                unset,
            } => self.style(alloc, group.as_slice(), parts.as_slice(), unset),
            What::Runtime(_) => Ok(()),
            What::Include {
                cluster: _,
                name: _,
            } => Ok(()),
        }
    }
}
