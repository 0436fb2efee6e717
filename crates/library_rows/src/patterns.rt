//! Calls of `vim_pattern`.
//!
//!     collection TEXT 10    the place of the bracket that closes the one at this place, both from 0
//!     copy PATTERN          what is told of the copy of a start pattern's tree

use crate::answer::add_found;
use crate::fault::{Fault, number_of};
use std::alloc::Global;
use syn_base::List;
use vim_pattern::{PatternUse, Tree, collection_end, read_pattern};

pub(crate) fn collection(
    alloc: Global,
    arguments: &[&str],
    answer: &mut String,
) -> Result<(), Fault> {
    let [text, at] = arguments else {
        return Err(Fault::BadCase);
    };
    let at = number_of(at)?;
    let text = List::from_chars(alloc, text)?;
    add_found(answer, collection_end(text.as_slice(), at))
}

pub(crate) fn copied(alloc: Global, arguments: &[&str], answer: &mut String) -> Result<(), Fault> {
    let [pattern] = arguments else {
        return Err(Fault::BadCase);
    };
    let tree = tree_of(alloc, pattern)?;
    let copy = tree.copy(alloc)?;
    write_tree(answer, &copy)
}

/// The tree of a start pattern.
pub(crate) fn tree_of(alloc: Global, pattern: &str) -> Result<Tree, Fault> {
    let pattern = List::from_chars(alloc, pattern)?;
    Ok(read_pattern(alloc, pattern.as_slice(), PatternUse::Start)?)
}

/// Writes what is told of a tree.
pub(crate) fn write_tree(answer: &mut String, tree: &Tree) -> Result<(), Fault> {
    let groups = tree.groups;
    let externals = tree.externals;
    let case = match tree.case {
        Some(true) => "ignore",
        Some(false) => "match",
        None => "-",
    };
    let moves_start = u8::from(tree.moves_start);
    let line_end = u8::from(tree.line_end);
    write!(
        answer,
        "groups={groups} externals={externals} case={case} zs={moves_start} eol={line_end}"
    )?;
    Ok(())
}
