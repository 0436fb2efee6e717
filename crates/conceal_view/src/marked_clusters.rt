//! The clusters of a marked syntax.
ghost use Rattle.std.specs.Prelude.{◌≡◌, ◌≤◌, ◌++◌, ◌∷◌, [], length, map, IfOk, OnOk};
ghost use Rattle.conceal_view.specs.MarkTables.{numbers_at};
ghost use Rattle.paint_marks.specs.Naming.{marked_cluster};
ghost use Rattle.syntax_set.specs.ClusterTable.{no_list};

use crate::group_marks::GroupMarks;
use crate::marked_lists::marked_list;
use std::alloc::Global;
use syn_base::Memory;
use syntax_set::{Change, Clusters};

/// The clusters with lists that name the marks of each group.
pub(crate) fn marked_clusters(
    alloc: Global,
    clusters: &Clusters,
    marks: &GroupMarks,
) -> Result<Clusters, Memory>
    ensures { IfOk result (λ marked. marked ≡ record clusters.now {
      lists = map (marked_cluster (numbers_at marks.now)) clusters.now.lists;
    }) }
{
    let mut marked = Clusters::new(alloc);
    for place in 0..clusters.len() {
        let cluster = place as u32;
        add_named(&mut marked, clusters.name(cluster))?;
        let list = marked_list(alloc, clusters.list(cluster), marks)?;
        marked.cluster_change(cluster, Change::Set, list)?;
    }
    marked.settle()?;
    Ok(marked)
}

/// Makes a cluster under a name that none has.
fn add_named(clusters: &mut Clusters, name: &str) -> Result<(), Memory>
    ensures added { OnOk result (clusters.new ≡ record {
      names = clusters.old.names ++ name.now ∷ [];
      lists = clusters.old.lists ++ no_list ∷ [];
    }) }
    ensures most { OnOk result (length clusters.new.names ≤ 20000) }
{
    let count = clusters.len();
    match clusters.number(name) {
        Ok(cluster) => {
            // a syntax has no two clusters of one name
            if cluster as usize == count {
                Ok(())
            } else {
                Err(Memory)
            }
        }
        Err(_) => Err(Memory),
    }
}
