//! The levels of lines.
ghost use Rattle.std.specs.Prelude.{◌≡◌, count_by, reverse};
ghost use Rattle.state_stack.specs.TopFirst.{top_first};
ghost use Rattle.syn_folds.specs.Levels.{has_fold, is_counted, is_in_fold, line_level};

use paint_rules::Part;
use state_stack::{Frame, Stack, State};
use syn_base::ItemId;
use syntax_set::ItemSet;

/// The most levels of folds.
const MOST_LEVELS: usize = 20;

/// The level of a line, from the states before and after it (`:syn-fold`). A frame of an item that
/// these items don't have counts nothing. It takes no memory.
pub fn line_level(items: &ItemSet, before: &State, after: &State) -> usize
    ensures { result ≡ line_level items.now (top_first before.now) (top_first after.now) }
{
    let most = fold_count(items, &before.stack).max(fold_count(items, &after.stack));
    most.min(MOST_LEVELS)
}

/// How many frames of a stack count.
fn fold_count(items: &ItemSet, stack: &Stack) -> usize
    ensures { result ≡ count_by (is_counted items.now) (reverse stack.now) }
{
    let mut count = 0;
    let mut rest = stack;
    // at most 1,000, so the count fits
    let _few = rest.len();
    'frames: while let Some((frame, below)) = rest.top_and_below() {
        if is_counted(items, frame) {
            count += 1;
        }
        rest = below;
    }
    count
}

fn is_counted(items: &ItemSet, frame: &Frame) -> bool
    ensures { result ≡ is_counted items.now frame.now }
{
    is_in_fold(frame.part) && has_fold(items, frame.item)
}

fn is_in_fold(part: Part) -> bool
    ensures { result ≡ is_in_fold part }
{
    match part {
        Part::Body => true,
        Part::StartArea => false,
        Part::EndArea => true,
        Part::Keyword => false,
    }
}

fn has_fold(items: &ItemSet, id: ItemId) -> bool
    ensures { result ≡ has_fold items.now id }
{
    if (id.0 as usize) < items.added() {
        items.item(id).fold
    } else {
        false
    }
}
