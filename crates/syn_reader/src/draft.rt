//! An item while its pieces are put together.
ghost use Rattle.std.specs.Prelude.{◌≡◌, ◌++◌, ◌∷◌, [], OnOk};
ghost use Rattle.syn_reader.specs.Answers.{Gives, Leaves};
ghost use Rattle.syn_reader.specs.Items as spec;

use crate::abbreviation::Words;
use crate::contents::Content;
use crate::lists::list_made;
use crate::names::Names;
use crate::refusal::Refusal;
use std::alloc::Global;
use syn_base::{GroupId, List, Memory};
use syn_words::{Cause, Field, Flag, ItemCommand, Role};
use syntax_set::{GroupList, Item, ItemKind, Pattern};
use word_values::is_none;

/// An item while its pieces are put together.
#[derive(Drop)]
pub(crate) struct Draft {
    /// The item without its patterns.
    pub item: Item,
    /// The group of the matched text of the start and end patterns to come.
    pub matchgroup: Option<GroupId>,
    /// `excludenl` holds for the patterns to come.
    pub excludenl: bool,
    pub matched: Option<Pattern>,
    pub starts: List<Pattern>,
    pub skip: Option<Pattern>,
    pub ends: List<Pattern>,
    pub words: List<List<char>>,
}

fn new_item(group: GroupId, ignore: bool, include: u32) -> Item
    ensures { result ≡ spec.new_item group ignore include }
{
    let mut item = Item::plain(group);
    item.ignore = ignore;
    item.include = include;
    item
}

fn with_kind(item: Item, kind: ItemKind) -> Item
    ensures { result ≡ record item { kind = kind } }
{
    let mut item = item;
    item.kind = kind;
    item
}

/// The group of a matchgroup, unless it is the item's own.
fn unless_own(own: GroupId, group: GroupId) -> Option<GroupId>
    ensures { result ≡ spec.unless_own own group }
{
    if group.0 == own.0 { None } else { Some(group) }
}

fn match_kind(matched: Option<Pattern>) -> Result<ItemKind, Refusal>
    ensures { Gives result (spec.match_kind matched) }
{
    match matched {
        Some(pattern) => Ok(ItemKind::Match(pattern)),
        None => Err(Refusal::Fault(Cause::NoPattern)),
    }
}

/// What an item is, by its command.
fn kind_of(
    kind: ItemCommand,
    matched: Option<Pattern>,
    starts: List<Pattern>,
    skip: Option<Pattern>,
    ends: List<Pattern>,
) -> Result<ItemKind, Refusal>
    ensures { Gives result (spec.kind_by kind matched starts skip ends) }
{
    match kind {
        ItemCommand::Keyword => Ok(ItemKind::Keyword),
        ItemCommand::Match => match_kind(matched),
        ItemCommand::Region => Ok(ItemKind::Region { starts, skip, ends }),
    }
}

/// Puts a pattern behind others. A list of one, as most are, has room for no more.
fn put_behind(alloc: Global, patterns: &mut List<Pattern>, pattern: Pattern) -> Result<(), Memory>
    ensures { OnOk result (patterns.new ≡ patterns.old ++ pattern ∷ []) }
{
    if !patterns.is_empty() {
        return patterns.push(pattern);
    }
    let mut alone = Vec::with_capacity(alloc, 1)?;
    alone.push(pattern)?;
    *patterns = List::from_vec(alone);
    Ok(())
}

impl Draft {
    /// An item of which nothing is said yet. It takes no memory.
    pub(crate) fn new(alloc: Global, group: GroupId, ignore: bool, include: u32) -> Draft
        ensures { result ≡ spec.new_draft group ignore include }
    {
        Draft {
            item: new_item(group, ignore, include),
            matchgroup: None,
            excludenl: false,
            matched: None,
            starts: List::new(alloc),
            skip: None,
            ends: List::new(alloc),
            words: List::new(alloc),
        }
    }

    fn set_flag(&mut self, flag: Flag)
        ensures { self.new ≡ spec.with_flag self.old flag }
    {
        match flag {
            Flag::Contained => self.item.contained = true,
            Flag::Oneline => self.item.oneline = true,
            Flag::Keepend => self.item.keepend = true,
            Flag::Extend => self.item.extend = true,
            Flag::Excludenl => self.excludenl = true,
            Flag::Transparent => self.item.transparent = true,
            Flag::Skipwhite => self.item.skipwhite = true,
            Flag::Skipnl => self.item.skipnl = true,
            Flag::Skipempty => self.item.skipempty = true,
            Flag::Display => {}
            Flag::Fold => self.item.fold = true,
            Flag::Conceal => self.item.conceal = true,
            Flag::Concealends => self.item.concealends = true,
        }
    }

    fn set_list(&mut self, field: Field, list: GroupList)
        ensures { self.new ≡ spec.with_list self.old field list }
    {
        match field {
            Field::Contains => self.item.contains = Some(list),
            Field::Containedin => self.item.containedin = Some(list),
            Field::Nextgroup => self.item.nextgroup = Some(list),
        }
    }

    fn set_matchgroup(
        &mut self,
        alloc: Global,
        names: &mut Names,
        name: &[char],
    ) -> Result<(), Refusal>
        ensures { Leaves result (self.new, names.new)
            (spec.matchgroup_made self.old names.old name.now) }
    {
        if is_none(name) {
            self.matchgroup = None;
            return Ok(());
        }
        let group = names.group(alloc, name)?;
        self.matchgroup = unless_own(self.item.group, group);
        Ok(())
    }

    /// Puts a pattern in its place, with what holds there.
    fn put(&mut self, alloc: Global, role: Role, pattern: Pattern) -> Result<(), Memory>
        ensures { OnOk result (self.new ≡ spec.with_quote self.old role pattern) }
    {
        let mut pattern = pattern;
        pattern.excludenl = self.excludenl;
        match role {
            Role::Match => {
                self.matched = Some(pattern);
                Ok(())
            }
            Role::Skip => {
                self.skip = Some(pattern);
                Ok(())
            }
            Role::Start => {
                pattern.matchgroup = self.matchgroup;
                put_behind(alloc, &mut self.starts, pattern)
            }
            Role::End => {
                pattern.matchgroup = self.matchgroup;
                put_behind(alloc, &mut self.ends, pattern)
            }
        }
    }

    fn push_words(&mut self, words: Words) -> Result<(), Memory>
        ensures { OnOk result (self.new ≡ spec.with_words self.old words) }
    {
        words.put_behind(&mut self.words)
    }

    /// Takes one piece more.
    fn take(&mut self, alloc: Global, names: &mut Names, content: Content) -> Result<(), Refusal>
        ensures { Leaves result (self.new, names.new)
            (spec.with_content (self.old, names.old) content) }
    {
        match content {
            Content::Has(flag) => {
                self.set_flag(flag);
                Ok(())
            }
            Content::Cchar(c) => {
                self.item.cchar = Some(c);
                Ok(())
            }
            Content::Names(field, list) => {
                let list = list_made(alloc, names, &list)?;
                self.set_list(field, list);
                Ok(())
            }
            Content::Matchgroup(name) => self.set_matchgroup(alloc, names, name.as_slice()),
            Content::Quote(role, pattern) => Ok(self.put(alloc, role, pattern.into_pattern())?),
            Content::Words(words) => Ok(self.push_words(words)?),
        }
    }

    /// Takes all pieces.
    pub(crate) fn take_all(
        &mut self,
        alloc: Global,
        names: &mut Names,
        contents: List<Content>,
    ) -> Result<(), Refusal>
        ensures { Leaves result (self.new, names.new)
            (spec.with_contents (self.old, names.old) contents) }
    {
        for content in contents.into_vec() {
            self.take(alloc, names, content)?;
        }
        Ok(())
    }

    /// The item with its patterns, and the words of a keyword.
    pub(crate) fn finish(self, kind: ItemCommand) -> Result<(Item, List<List<char>>), Refusal>
        ensures { Gives result (spec.item_finished kind self) }
    {
        let kind = kind_of(kind, self.matched, self.starts, self.skip, self.ends)?;
        Ok((with_kind(self.item, kind), self.words))
    }
}
