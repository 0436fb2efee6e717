//! What is true of each frame of a stack, seen by the frames' kinds.
ghost use Rattle.std.specs.Prelude.{◌≡◌, reverse, true, ℕ};
ghost use Rattle.std.specs.List.{list_all};
ghost use Rattle.line_paint.specs.Common.{anew_if, below_if, all_clear, is_so, none_keeps};

use crate::Site;
use state_stack::{Kind, Kinds, Stack};

/// Whether frames of a kind let what lies below them show, or, where that isn't asked, whether their
/// item is without `keepend`.
fn is_so<S: Site>(site: &S, clear: bool, kind: Kind) -> bool
    ensures { result ≡ is_so (S.here site.now).rules.items clear kind }
{
    if (kind.item.0 as usize) >= site.items().added() {
        return !clear;
    }
    let item = site.item(kind.item);
    if clear {
        !kind.in_area && item.transparent
    } else {
        !item.keepend
    }
}

fn are_so<S: Site>(site: &S, clear: bool, kinds: &Kinds) -> bool
    ensures { result ≡ list_all (is_so (S.here site.now).rules.items clear) kinds.now }
{
    match kinds.first_and_others() {
        None => true,
        Some((kind, others)) => is_so(site, clear, kind) && are_so(site, clear, others),
    }
}

/// Whether, by the kinds of its frames, no frame is of an item with `keepend`.
#[tactic(auto, using(crate::proofs::KindLaws::none_keeps_by))]
pub(crate) fn none_keeps<S: Site>(site: &S, stack: &Stack) -> bool
    ensures { result ≡ true
        → none_keeps (S.here site.now).rules.items (reverse stack.now) ≡ true }
{
    match stack.kinds() {
        None => true,
        Some(kinds) => are_so(site, false, kinds),
    }
}

/// Whether frames are to search below a top, where that is wanted: none does where none is of an item
/// with `keepend`.
#[tactic(auto, using(crate::proofs::KindLaws::unkept_below, crate::proofs::KindLaws::unkept_anew))]
pub(crate) fn may_search<S: Site>(site: &S, wanted: bool, stack: &Stack) -> bool
    ensures at_start { below_if (S.here site.now) result (reverse stack.now)
        ≡ below_if (S.here site.now) wanted (reverse stack.now) }
    ensures after_pop { (c : ℕ) → anew_if (S.here site.now) c result (reverse stack.now)
        ≡ anew_if (S.here site.now) c wanted (reverse stack.now) }
{
    wanted && !none_keeps(site, stack)
}

/// Whether, by the kinds of its frames, each frame lets what lies below it show.
#[tactic(auto, using(crate::proofs::KindLaws::all_clear_by))]
pub(crate) fn all_clear<S: Site>(site: &S, stack: &Stack) -> bool
    ensures { result ≡ true → all_clear (S.here site.now).rules (reverse stack.now) ≡ true }
{
    match stack.kinds() {
        None => true,
        Some(kinds) => are_so(site, true, kinds),
    }
}
