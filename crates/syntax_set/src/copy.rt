//! Copies of items.
ghost use Rattle.std.specs.Prelude.{◌≡◌, IfOk};

use crate::{GroupList, Item, ItemKind, Pattern};
use std::alloc::Global;
use syn_base::{List, Memory};

fn copied_list(alloc: Global, list: &GroupList) -> Result<GroupList, Memory>
    ensures { IfOk result (λ copy. copy ≡ list.now) }
{
    Ok(GroupList {
        special: list.special,
        entries: List::from_slice(alloc, list.entries.as_slice())?,
    })
}

fn copied_list_option(alloc: Global, list: &Option<GroupList>) -> Result<Option<GroupList>, Memory>
    ensures { IfOk result (λ copy. copy ≡ list.now) }
{
    match list {
        Some(list) => Ok(Some(copied_list(alloc, list)?)),
        None => Ok(None),
    }
}

fn copied_pattern(alloc: Global, pattern: &Pattern) -> Result<Pattern, Memory>
    ensures { IfOk result (λ copy. copy ≡ pattern.now) }
{
    Ok(Pattern {
        id: pattern.id,
        tree: pattern.tree.copy(alloc)?,
        ms: pattern.ms,
        me: pattern.me,
        hs: pattern.hs,
        he: pattern.he,
        rs: pattern.rs,
        re: pattern.re,
        lc: pattern.lc,
        matchgroup: pattern.matchgroup,
        excludenl: pattern.excludenl,
    })
}

fn copied_pattern_option(
    alloc: Global,
    pattern: &Option<Pattern>,
) -> Result<Option<Pattern>, Memory>
    ensures { IfOk result (λ copy. copy ≡ pattern.now) }
{
    match pattern {
        Some(pattern) => Ok(Some(copied_pattern(alloc, pattern)?)),
        None => Ok(None),
    }
}

fn copied_patterns(alloc: Global, patterns: &[Pattern]) -> Result<List<Pattern>, Memory>
    ensures { IfOk result (λ copy. copy ≡ patterns.now) }
{
    let mut copy = List::new(alloc);
    for pattern in patterns {
        copy.push(copied_pattern(alloc, pattern)?)?;
    }
    Ok(copy)
}

fn copied_kind(alloc: Global, kind: &ItemKind) -> Result<ItemKind, Memory>
    ensures { IfOk result (λ copy. copy ≡ kind.now) }
{
    match kind {
        ItemKind::Keyword => Ok(ItemKind::Keyword),
        ItemKind::Match(pattern) => Ok(ItemKind::Match(copied_pattern(alloc, pattern)?)),
        ItemKind::Region { starts, skip, ends } => Ok(ItemKind::Region {
            starts: copied_patterns(alloc, starts.as_slice())?,
            skip: copied_pattern_option(alloc, skip)?,
            ends: copied_patterns(alloc, ends.as_slice())?,
        }),
    }
}

/// The lists of an item's options.
#[derive(Drop)]
struct Lists {
    contains: Option<GroupList>,
    containedin: Option<GroupList>,
    nextgroup: Option<GroupList>,
}

fn copied_lists(alloc: Global, item: &Item) -> Result<Lists, Memory>
    ensures { IfOk result (λ lists. lists ≡ record {
      contains = item.now.contains;
      containedin = item.now.containedin;
      nextgroup = item.now.nextgroup;
    }) }
{
    Ok(Lists {
        contains: copied_list_option(alloc, &item.contains)?,
        containedin: copied_list_option(alloc, &item.containedin)?,
        nextgroup: copied_list_option(alloc, &item.nextgroup)?,
    })
}

/// The item with these in place of what takes memory.
fn with_copies(item: &Item, kind: ItemKind, lists: Lists) -> Item
    ensures { result ≡ record item.now {
      kind = kind;
      contains = lists.contains;
      containedin = lists.containedin;
      nextgroup = lists.nextgroup;
    } }
{
    Item {
        group: item.group,
        kind,
        contained: item.contained,
        include: item.include,
        ignore: item.ignore,
        contains: lists.contains,
        containedin: lists.containedin,
        nextgroup: lists.nextgroup,
        skipwhite: item.skipwhite,
        skipnl: item.skipnl,
        skipempty: item.skipempty,
        transparent: item.transparent,
        oneline: item.oneline,
        keepend: item.keepend,
        extend: item.extend,
        fold: item.fold,
        conceal: item.conceal,
        concealends: item.concealends,
        cchar: item.cchar,
    }
}

impl Item {
    /// An equal item.
    pub fn copy(&self, alloc: Global) -> Result<Item, Memory>
        ensures { IfOk result (λ copy. copy ≡ self.now) }
    {
        let kind = copied_kind(alloc, &self.kind)?;
        let lists = copied_lists(alloc, self)?;
        Ok(with_copies(self, kind, lists))
    }
}
