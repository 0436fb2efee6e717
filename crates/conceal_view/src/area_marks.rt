//! The marks of the areas of a region.
ghost use Rattle.std.specs.Prelude.{◌≡◌, ◌+◌, [], length, map, IfOk, OnOk};
ghost use Rattle.conceal_view.specs.Marking.{in_mark, marked_kind, marked_pattern};
ghost use Rattle.conceal_view.specs.Marks.{concealed_areas, matchgroups_in, matchgroups_of};
ghost use Rattle.syntax_set.specs.Numbers.{with_numbers};

use crate::find_marks::number_behind;
use indexmap::IndexSet;
use std::alloc::Global;
use std::marker::Model;
use syn_base::{GroupId, List, Memory};
use syntax_set::{Item, ItemKind, Pattern};

/// The matchgroups of a region, whose marks are numbered from a number on.
#[derive(Drop)]
pub(crate) struct AreaMarks {
    first: u32,
    groups: IndexSet<u32>,
}

impl Model for AreaMarks {
    ghost use Rattle.std.specs.Prelude.{length, ◌<◌, ◌+◌, ◌^◌};
    ghost use Rattle.conceal_view.specs.MarkTables as tables;

    ghost Value = { tables.AreaMarks };

    ghost view = { λ a. record { first = a.first; groups = a.groups.keys } };

    ghost invariant = { λ a. a.first + length a.groups.keys < 2 ^ 32 };
}

impl AreaMarks {
    /// The matchgroups of an item whose areas are concealed.
    pub(crate) fn of(alloc: Global, item: &Item, first: u32) -> Result<AreaMarks, Memory>
        ensures { IfOk result (λ areas.
            areas ≡ record { first = first; groups = concealed_areas item.now }) }
    {
        let groups = concealed_areas(alloc, item)?;
        let _behind = number_behind(first, groups.len())?;
        Ok(AreaMarks { first, groups })
    }

    /// The group in its mark.
    pub(crate) fn mark(&self, group: GroupId) -> GroupId
        ensures { result ≡ in_mark self.now.first self.now.groups group }
    {
        match self.groups.get_index_of(&group.0) {
            Some(place) => GroupId(self.first + place as u32),
            None => group,
        }
    }

    /// The number behind the marks.
    pub(crate) fn behind(&self) -> u32
        ensures { result ≡ self.now.first + length self.now.groups }
    {
        self.first + self.groups.len() as u32
    }
}

/// The matchgroups of an item whose areas are concealed, each once.
pub(crate) fn concealed_areas(alloc: Global, item: &Item) -> Result<IndexSet<u32>, Memory>
    ensures { IfOk result (λ groups. groups.keys ≡ concealed_areas item.now) }
{
    if item.concealends {
        matchgroups_in(alloc, &item.kind)
    } else {
        Ok(IndexSet::new(alloc))
    }
}

/// The matchgroups of a region, each once.
fn matchgroups_in(alloc: Global, kind: &ItemKind) -> Result<IndexSet<u32>, Memory>
    ensures { IfOk result (λ groups. groups.keys ≡ matchgroups_in kind.now) }
{
    let mut groups = IndexSet::new(alloc);
    if let ItemKind::Region { starts, ends, .. } = kind {
        add_matchgroups(&mut groups, starts.as_slice())?;
        add_matchgroups(&mut groups, ends.as_slice())?;
    }
    Ok(groups)
}

fn add_matchgroups(groups: &mut IndexSet<u32>, patterns: &[Pattern]) -> Result<(), Memory>
    ensures { OnOk result (groups.new.keys
        ≡ with_numbers groups.old.keys (matchgroups_of patterns.now)) }
{
    for pattern in patterns {
        if let Some(group) = pattern.matchgroup {
            groups.insert(group.0)?;
        }
    }
    Ok(())
}

/// A kind whose starts and ends show the marks of their matchgroups.
pub(crate) fn marked_kind(kind: ItemKind, areas: &AreaMarks) -> ItemKind
    ensures { result ≡ marked_kind (in_mark areas.now.first areas.now.groups) kind }
{
    match kind {
        ItemKind::Region { starts, skip, ends } => ItemKind::Region {
            starts: marked_patterns(starts, areas),
            skip,
            ends: marked_patterns(ends, areas),
        },
        other => other,
    }
}

fn marked_patterns(patterns: List<Pattern>, areas: &AreaMarks) -> List<Pattern>
    ensures { result ≡ map (marked_pattern (in_mark areas.now.first areas.now.groups)) patterns }
{
    let mut marked = patterns.into_vec();
    mark_all(&mut marked, areas);
    List::from_vec(marked)
}

fn mark_all(patterns: &mut [Pattern], areas: &AreaMarks)
    ensures { patterns.new
        ≡ map (marked_pattern (in_mark areas.now.first areas.now.groups)) patterns.old }
{
    for pattern in patterns.iter_mut() {
        mark_pattern(pattern, areas);
    }
}

fn mark_pattern(pattern: &mut Pattern, areas: &AreaMarks)
    ensures { pattern.new
        ≡ marked_pattern (in_mark areas.now.first areas.now.groups) pattern.old }
{
    if let Some(group) = pattern.matchgroup {
        pattern.matchgroup = Some(areas.mark(group));
    }
}
