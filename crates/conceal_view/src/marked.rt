//! Syntaxes in which what is concealed shows marks.
ghost use Rattle.std.specs.Prelude.{◌≡◌, ◌<◌, All, length, IfOk};
ghost use Rattle.conceal_view.specs.MarkedPaintings.{AllowTheSame, ListsHaveTheSame};
ghost use Rattle.conceal_view.specs.Marking.{marked_clusters, marked_items};
ghost use Rattle.conceal_view.specs.Marks.{marks_of};
ghost use Rattle.syntax_set.specs.NoMarks.{HaveNoMarks};
ghost use Rattle.conceal_view.specs.View.{AreNumbered};

use crate::Mark;
use crate::find_marks::marks_of;
use crate::group_marks::GroupMarks;
use crate::marked_clusters::marked_clusters;
use crate::marked_items::marked_items;
use std::alloc::Global;
use syn_base::{List, Memory};
use syntax_set::{Clusters, ItemSet};

/// A syntax in which each concealed item, and each matchgroup of concealed areas, shows a mark.
#[derive(Drop)]
pub struct Marked {
    /// The items under their old numbers. One that isn't live stays so.
    pub items: ItemSet,
    /// The clusters under their old names and numbers, settled.
    pub clusters: Clusters,
    /// In the order of their numbers.
    pub marks: List<Mark>,
}

/// Marks a copy of a syntax. Each live item with `conceal` shows a group of its own in its body or as a
/// keyword (`:syn-conceal`), and each live region with `concealends` one for each of its matchgroups in
/// its areas (`:syn-concealends`). These are numbered from 20,000 by item, for an item first that of its
/// body, then those of its starts, then those of its ends. Each list and each cluster names the marks of
/// a group behind it. Want of memory alone is refused.
pub fn mark(alloc: Global, items: &ItemSet, clusters: &Clusters) -> Result<Marked, Memory>
    ensures items { IfOk result (λ marked. marked.items ≡ marked_items items.now) }
    ensures clusters { IfOk result (λ marked.
        marked.clusters ≡ marked_clusters items.now clusters.now) }
    ensures marks { IfOk result (λ marked. marked.marks ≡ marks_of items.now) }
    ensures numbered { IfOk result (λ marked. AreNumbered 20000 marked.marks) }
    ensures of_items { IfOk result (λ marked.
        All (λ mark. mark.item.0 < length marked.items) marked.marks) }
    // where the syntax names no marks
    ensures shown { HaveNoMarks items.now clusters.now.lists
        → IfOk result (λ marked. All (λ mark. mark.shown.0 < 20000) marked.marks) }
    ensures allowed { HaveNoMarks items.now clusters.now.lists
        → IfOk result (λ marked. AllowTheSame
        items.now clusters.now.lists marked.items marked.clusters.lists) }
    ensures next { HaveNoMarks items.now clusters.now.lists
        → IfOk result (λ marked. ListsHaveTheSame
        items.now clusters.now.lists marked.items marked.clusters.lists) }
{
    let marks = marks_of(alloc, items)?;
    let of_groups = GroupMarks::of(alloc, marks.as_slice())?;
    let items = marked_items(alloc, items, &of_groups)?;
    let clusters = marked_clusters(alloc, clusters, &of_groups)?;
    Ok(Marked {
        items,
        clusters,
        marks,
    })
}
