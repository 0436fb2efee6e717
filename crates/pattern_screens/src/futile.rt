//! What the screen of a pattern says of a column.
ghost use Rattle.std.specs.Prelude.{◌≡◌};
ghost use Rattle.pattern_screens.specs.Common.{bare, is_dead, is_futile, still_of, IsSoundAt};

use crate::atoms::By;
use crate::key::Key;
use crate::parts::still_of;
use char_class::Sets;
use vim_pattern::{Node, Tree};

/// Whether an attempt at a column with this key is known to have no way and to look at exactly its
/// line, where `ignore` says that case is ignored unless the pattern says otherwise. It then costs at
/// most the `failing_cost` of the pattern.
#[tactic(auto, using(crate::proofs::Screened::laws))]
pub fn is_futile(tree: &Tree, sets: &Sets, ignore: bool, key: Key) -> bool
    ensures is { result ≡ is_futile sets.now ignore key tree.now }
    ensures sound { IsSoundAt tree.now sets.now ignore key result }
{
    let by = By {
        sets,
        ignore: tree.case.unwrap_or(ignore),
    };
    is_dead(&tree.node, &by, key)
}

/// Whether a node is known to reach no way there.
pub(crate) fn is_dead(node: &Node, by: &By, key: Key) -> bool
    ensures { result ≡ is_dead (still_of by.now.sets.now by.now.ignore key (bare node.now)) }
{
    match still_of(node, by, key) {
        Some(known) => !known.reaches,
        None => false,
    }
}
