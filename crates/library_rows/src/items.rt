//! Calls of `Clusters` and `ItemSet` of `syntax_set`.
//!
//! The arguments of `items` are calls in order:
//!
//!     cluster A       the number of a cluster, which is made if it is new
//!     find A          the number of a cluster, if there is one
//!     name 0          the name of a cluster
//!     set 0 1         the cluster has the group of this number from now on
//!     add 0 @1        it has the cluster of this number besides, or a group
//!     remove 0 1      it has it no longer
//!     list 0          what a cluster has
//!     free 0 0        an item of a group, which contains what the cluster of this number has
//!     contained 1 0   so a contained item
//!     dead 1 0        so an item that isn't live
//!     hidden 1 0      so an item with `conceal`
//!     start 1 a\|b    a region of a group with this start pattern
//!     leads 1 2-4     an item of a group, whose `nextgroup` names these groups
//!     ends 1 2        a region of a group with `concealends`, whose start and end show this matchgroup
//!     copy 0          a copy of an item, live if that is
//!     tree 0          what is told of the tree of the first start pattern of an item
//!     group 1         the group of an item
//!     allowed 1 0     whether an item may start in another one
//!     next 1 1        whether an item is one of the group
//!     follows 1 0     whether the `nextgroup` of another item has an item
//!     mark 0          the marks of the syntax, each with its item and the group that it stands for; the items
//!                     and clusters are the marked ones from now on
//!     nexts 1         what the `nextgroup` of an item names
//!     shown 1         the matchgroups of a region
//!     clear 1         the items of a group end
//!     live 1          whether an item is live
//!     settle 0        the clusters are settled
//!     count 0         how many clusters there are, how many items were added and how many are live

ghost use Rattle.std.specs.Prelude.{◌<◌, IfOk, length};

use crate::answer::{add_found, add_number, add_whether, add_word, begin_answer};
use crate::fault::{Fault, short_number_of, two_of};
use crate::new_items::{hidden, item, leading, list_of, region, with_ends};
use crate::patterns::write_tree;
use conceal_view::{Mark, mark};
use std::alloc::Global;
use syn_base::{GroupId, ItemId};
use syntax_set::{Change, Clusters, Entry, GroupList, Item, ItemKind, ItemSet, Pattern};

/// Clusters and items.
#[derive(Drop)]
struct Sets {
    clusters: Clusters,
    items: ItemSet,
}

impl Sets {
    /// Makes a call: it changes something, or adds an answer.
    fn carry_out(&mut self, alloc: Global, call: &str, answers: &mut String) -> Result<(), Fault> {
        let (name, rest) = two_of(call)?;
        match name {
            "set" => self.change(alloc, Change::Set, rest),
            "add" => self.change(alloc, Change::Add, rest),
            "remove" => self.change(alloc, Change::Remove, rest),
            "clear" => self.clear(rest),
            "settle" => Ok(self.clusters.settle()?),
            "cluster" => add_number(answers, self.clusters.number(rest)? as usize),
            "next" => self.is_next(alloc, rest, answers),
            "mark" => self.mark(alloc, answers),
            "free" | "contained" | "dead" | "start" | "copy" | "leads" | "hidden" | "ends" => {
                let id = self.add(alloc, name, rest)?;
                add_number(answers, id.0 as usize)
            }
            _ => self.ask(name, rest, answers),
        }
    }

    fn change(&mut self, alloc: Global, how: Change, rest: &str) -> Result<(), Fault> {
        let (cluster, entry) = two_of(rest)?;
        let cluster = self.cluster_of(cluster)?;
        let list = list_of(alloc, entry_of(entry)?)?;
        self.clusters.cluster_change(cluster, how, list)?;
        Ok(())
    }

    /// The cluster of a number.
    fn cluster_of(&self, text: &str) -> Result<u32, Fault>
        ensures { IfOk result (λ cluster. cluster < length self.now.clusters.lists) }
    {
        let number = short_number_of(text)?;
        if number as usize >= self.clusters.len() {
            return Err(Fault::BadCase);
        }
        Ok(number)
    }

    fn clear(&mut self, rest: &str) -> Result<(), Fault> {
        self.items.clear(Some(GroupId(short_number_of(rest)?)));
        Ok(())
    }

    /// Adds an item.
    fn add(&mut self, alloc: Global, name: &str, rest: &str) -> Result<ItemId, Fault> {
        let id = match name {
            "free" => self.items.add_item(item(alloc, rest, false)?)?,
            "contained" => self.items.add_item(item(alloc, rest, true)?)?,
            "dead" => self.items.add_dead(item(alloc, rest, false)?)?,
            "start" => self.items.add_item(region(alloc, rest)?)?,
            "leads" => self.items.add_item(leading(alloc, rest)?)?,
            "hidden" => self.items.add_item(hidden(alloc, rest)?)?,
            "ends" => self.items.add_item(with_ends(alloc, rest)?)?,
            _ => self.add_copy(alloc, self.item_of(rest)?)?,
        };
        Ok(id)
    }

    fn add_copy(&mut self, alloc: Global, id: ItemId) -> Result<ItemId, Fault>
        requires { id.0 < length self.old.items }
    {
        let copy = self.items.item(id).copy(alloc)?;
        if self.items.live(id) {
            Ok(self.items.add_item(copy)?)
        } else {
            Ok(self.items.add_dead(copy)?)
        }
    }

    /// Marks the items and clusters.
    fn mark(&mut self, alloc: Global, answers: &mut String) -> Result<(), Fault> {
        let marked = mark(alloc, &self.items, &self.clusters)?;
        add_marks(answers, marked.marks.as_slice())?;
        self.items = marked.items;
        self.clusters = marked.clusters;
        Ok(())
    }

    /// Makes a call that changes nothing.
    fn ask(&self, name: &str, rest: &str, answers: &mut String) -> Result<(), Fault> {
        match name {
            "find" => self.find(rest, answers),
            "name" => add_word(answers, self.clusters.name(self.cluster_of(rest)?)),
            "list" => add_list(answers, self.clusters.list(self.cluster_of(rest)?)),
            "group" => add_number(
                answers,
                self.items.item(self.item_of(rest)?).group.0 as usize,
            ),
            "allowed" => self.is_allowed(rest, answers),
            "follows" => self.is_behind(rest, answers),
            "live" => add_whether(answers, self.items.live(self.item_of(rest)?)),
            "tree" => add_tree(answers, &self.items.item(self.item_of(rest)?).kind),
            "nexts" => add_nexts(answers, self.items.item(self.item_of(rest)?)),
            "shown" => add_shown(answers, &self.items.item(self.item_of(rest)?).kind),
            "count" => self.count(answers),
            _ => Err(Fault::BadCase),
        }
    }

    fn find(&self, name: &str, answers: &mut String) -> Result<(), Fault> {
        match self.clusters.find(name)? {
            Some(number) => add_number(answers, number as usize),
            None => add_found(answers, None),
        }
    }

    /// The item of a number.
    fn item_of(&self, text: &str) -> Result<ItemId, Fault>
        ensures { IfOk result (λ id. id.0 < length self.now.items) }
    {
        let number = short_number_of(text)?;
        if number as usize >= self.items.added() {
            return Err(Fault::BadCase);
        }
        Ok(ItemId(number))
    }

    fn is_allowed(&self, rest: &str, answers: &mut String) -> Result<(), Fault> {
        let (id, container) = two_of(rest)?;
        let id = self.item_of(id)?;
        let container = self.item_of(container)?;
        let holds = self.items.allowed(&self.clusters, id, Some(container));
        add_whether(answers, holds)
    }

    fn is_behind(&self, rest: &str, answers: &mut String) -> Result<(), Fault> {
        let (id, other) = two_of(rest)?;
        let id = self.item_of(id)?;
        let other = self.item_of(other)?;
        add_whether(answers, self.items.follows(&self.clusters, id, other))
    }

    fn is_next(&self, alloc: Global, rest: &str, answers: &mut String) -> Result<(), Fault> {
        let (id, group) = two_of(rest)?;
        let id = self.item_of(id)?;
        let group = GroupId(short_number_of(group)?);
        let list = list_of(alloc, Entry::Group(group))?;
        add_whether(answers, self.items.in_next(&self.clusters, id, &list))
    }

    fn count(&self, answers: &mut String) -> Result<(), Fault> {
        let clusters = self.clusters.len();
        let added = self.items.added();
        let live = self.items.len();
        begin_answer(answers)?;
        write!(answers, "{clusters},{added},{live}")?;
        Ok(())
    }
}

/// A group by its number, or a cluster by its number behind `@`.
fn entry_of(text: &str) -> Result<Entry, Fault> {
    match text.strip_prefix('@') {
        Some(cluster) => Ok(Entry::Cluster(short_number_of(cluster)?)),
        None => Ok(Entry::Group(GroupId(short_number_of(text)?))),
    }
}

/// Adds what a list names, or a dash for nothing.
fn add_list(answers: &mut String, list: &GroupList) -> Result<(), Fault> {
    if list.entries.is_empty() {
        return add_word(answers, "");
    }
    for entry in list.entries.as_slice() {
        begin_answer(answers)?;
        match entry {
            Entry::Group(group) => write!(answers, "{}", group.0)?,
            Entry::Cluster(cluster) => write!(answers, "@{cluster}")?,
        }
    }
    Ok(())
}

/// Adds what is told of the tree of the first start pattern.
fn add_tree(answers: &mut String, kind: &ItemKind) -> Result<(), Fault> {
    let ItemKind::Region { starts, .. } = kind else {
        return Err(Fault::BadCase);
    };
    match starts.as_slice().first() {
        Some(start) => {
            begin_answer(answers)?;
            write_tree(answers, &start.tree)
        }
        None => Err(Fault::BadCase),
    }
}

/// Adds what the `nextgroup` of an item names.
fn add_nexts(answers: &mut String, item: &Item) -> Result<(), Fault> {
    match &item.nextgroup {
        Some(list) => add_list(answers, list),
        None => Err(Fault::BadCase),
    }
}

/// Adds the matchgroups of a region's starts, and those of its ends.
fn add_shown(answers: &mut String, kind: &ItemKind) -> Result<(), Fault> {
    let ItemKind::Region { starts, ends, .. } = kind else {
        return Err(Fault::BadCase);
    };
    add_matchgroups(answers, starts.as_slice())?;
    add_matchgroups(answers, ends.as_slice())
}

fn add_matchgroups(answers: &mut String, patterns: &[Pattern]) -> Result<(), Fault> {
    for pattern in patterns {
        add_found(answers, pattern.matchgroup.map(|group| group.0 as usize))?;
    }
    Ok(())
}

/// Adds marks, each as `MARK=ITEM,GROUP`, or a dash for none.
fn add_marks(answers: &mut String, marks: &[Mark]) -> Result<(), Fault> {
    if marks.is_empty() {
        return add_word(answers, "");
    }
    for mark in marks {
        let (number, item, shown) = (mark.number.0, mark.item.0, mark.shown.0);
        begin_answer(answers)?;
        write!(answers, "{number}={item},{shown}")?;
    }
    Ok(())
}

pub(crate) fn carry_out_all(
    alloc: Global,
    calls: &[&str],
    answers: &mut String,
) -> Result<(), Fault> {
    let mut sets = Sets {
        clusters: Clusters::new(alloc),
        items: ItemSet::new(alloc),
    };
    for call in calls {
        sets.carry_out(alloc, call, answers)?;
    }
    Ok(())
}
