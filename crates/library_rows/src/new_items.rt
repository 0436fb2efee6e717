//! Items, made of what a call says.

use crate::fault::{Fault, range_of, short_number_of, two_of};
use crate::patterns::tree_of;
use std::alloc::Global;
use syn_base::{GroupId, List, Memory, PatternId};
use syntax_set::{Entry, GroupList, Item, ItemKind, Pattern, Special};
use vim_pattern::Tree;

/// A plain list of one entry.
pub(crate) fn list_of(alloc: Global, entry: Entry) -> Result<GroupList, Memory> {
    let mut entries = List::new(alloc);
    entries.push(entry)?;
    Ok(GroupList {
        special: Special::Plain,
        entries,
    })
}

/// A keyword item of a group, which contains what a cluster has.
pub(crate) fn item(alloc: Global, rest: &str, contained: bool) -> Result<Item, Fault> {
    let (group, cluster) = two_of(rest)?;
    let (group, cluster) = (short_number_of(group)?, short_number_of(cluster)?);
    let contains = list_of(alloc, Entry::Cluster(cluster))?;
    let mut item = Item::plain(GroupId(group));
    item.contained = contained;
    item.contains = Some(contains);
    Ok(item)
}

/// A region of a group with one start pattern, and no end.
pub(crate) fn region(alloc: Global, rest: &str) -> Result<Item, Fault> {
    let (group, pattern) = two_of(rest)?;
    let group = short_number_of(group)?;
    let tree = tree_of(alloc, pattern)?;
    let mut starts = List::new(alloc);
    starts.push(pattern_of(tree))?;
    let mut item = Item::plain(GroupId(group));
    item.kind = ItemKind::Region {
        starts,
        skip: None,
        ends: List::new(alloc),
    };
    Ok(item)
}

/// A pattern of which nothing is said but its tree.
fn pattern_of(tree: Tree) -> Pattern {
    Pattern {
        id: PatternId(0),
        tree,
        ms: None,
        me: None,
        hs: None,
        he: None,
        rs: None,
        re: None,
        lc: 0,
        matchgroup: None,
        excludenl: false,
    }
}

/// A keyword item of a group, whose `nextgroup` names the groups of a range.
pub(crate) fn leading(alloc: Global, rest: &str) -> Result<Item, Fault> {
    let (group, groups) = two_of(rest)?;
    let group = short_number_of(group)?;
    let (first, last) = range_of(groups)?;
    let nextgroup = groups_from(alloc, first, last)?;
    let mut item = Item::plain(GroupId(group));
    item.nextgroup = Some(nextgroup);
    Ok(item)
}

/// A plain list of the groups of these numbers.
fn groups_from(alloc: Global, first: usize, last: usize) -> Result<GroupList, Fault> {
    let mut entries = List::new(alloc);
    for number in first..=last {
        let Ok(number) = u32::try_from(number) else {
            return Err(Fault::BadCase);
        };
        entries.push(Entry::Group(GroupId(number)))?;
    }
    Ok(GroupList {
        special: Special::Plain,
        entries,
    })
}

/// A concealed item of a group, which contains what a cluster has.
pub(crate) fn hidden(alloc: Global, rest: &str) -> Result<Item, Fault> {
    let mut item = item(alloc, rest, false)?;
    item.conceal = true;
    Ok(item)
}

/// A region of a group whose start and end are concealed, both with this matchgroup.
pub(crate) fn with_ends(alloc: Global, rest: &str) -> Result<Item, Fault> {
    let (group, shown) = two_of(rest)?;
    let (group, shown) = (short_number_of(group)?, short_number_of(shown)?);
    let starts = shown_pattern(alloc, GroupId(shown))?;
    let ends = shown_pattern(alloc, GroupId(shown))?;
    let mut item = Item::plain(GroupId(group));
    item.concealends = true;
    item.kind = ItemKind::Region {
        starts,
        skip: None,
        ends,
    };
    Ok(item)
}

/// A pattern with a matchgroup, as a list.
fn shown_pattern(alloc: Global, group: GroupId) -> Result<List<Pattern>, Fault> {
    let mut pattern = pattern_of(tree_of(alloc, "a")?);
    pattern.matchgroup = Some(group);
    let mut patterns = List::new(alloc);
    patterns.push(pattern)?;
    Ok(patterns)
}
