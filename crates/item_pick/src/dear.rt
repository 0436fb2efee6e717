//! Items whose attempts may cost much in a short line.
ghost use Rattle.item_pick.specs.Common.{IsItem, rules_by};

use crate::asked::Asked;
use region_ends::item_of;
use syn_base::ItemId;
use syntax_set::{ItemKind, Pattern};
use vim_pattern::{Node, Pair, Parted, Wrap};

/// Whether a part that is counted has a choice or a count in it, so that each turn may double what an
/// attempt costs, as in `\%(a\|a\)*b`. `counted` says that the node stands in such a part.
#[cycle(dear)]
fn counts_choices(node: &Node, counted: bool) -> bool {
    let mut rest = node;
    let mut counted = counted;
    loop {
        match rest.parted() {
            Parted::Empty | Parted::One(_) => return false,
            Parted::Two(pair, a, b) => {
                if counted && is_choice(pair) || counts_choices(a, counted) {
                    return true;
                }
                rest = b;
            }
            Parted::Under(wrap, part) => {
                if counted && is_count(wrap) {
                    return true;
                }
                counted = counted || is_count(wrap);
                rest = part;
            }
        }
    }
}

fn is_choice(pair: Pair) -> bool {
    matches!(pair, Pair::Or)
}

fn is_count(wrap: Wrap) -> bool {
    matches!(wrap, Wrap::Repeat { .. })
}

fn is_dear(pattern: &Pattern) -> bool {
    counts_choices(&pattern.tree.node, false)
}

impl Asked<'_> {
    /// Whether attempts by a start pattern of an item may cost much in a short line.
    pub(crate) fn is_dear(&self, id: ItemId) -> bool
        requires { IsItem (rules_by self.now) id }
    {
        match &item_of(self.parts.items, id).kind {
            ItemKind::Keyword => false,
            ItemKind::Match(pattern) => is_dear(pattern),
            ItemKind::Region { starts, .. } => starts.as_slice().iter().any(is_dear),
        }
    }
}
