//! The line that tells where a painting is refused (this profile).
ghost use Rattle.std.specs.Prelude.{◌≡◌, ◌≢◌, ◌++◌, codes, IfOk, OnOk};
ghost use Rattle.paint_rules.specs.Rules.{item_of};
ghost use Rattle.vimsyn_cli.specs.Painting.{place_text, refusal_text, refused_line};
ghost use Rattle.vimsyn_cli.specs.Refusal.{IsRefusal};

use crate::fault::{Fault, FaultKind, Stop};
use byte_text::{push_bytes, push_number_from_one};
use state_cache::EditError;
use std::alloc::{AllocError, Global};
use syn_base::{GroupId, ItemId, List, Memory};
use syntax_set::{Groups, ItemSet};

/// The stop for the painting of the text of this name, which is refused. The item that it tells is one
/// of these, with its own group.
pub(crate) fn refusal(
    alloc: Global,
    name: &str,
    groups: &Groups,
    items: &ItemSet,
    error: EditError,
) -> Stop
    ensures { IsRefusal name.now groups.now items.now error result }
{
    match told(alloc, name, groups, items, error) {
        Ok(line) => Stop::Fault(Fault {
            line,
            cause: FaultKind::Content,
        }),
        Err(_) => Stop::Memory,
    }
}

fn told(
    alloc: Global,
    name: &str,
    groups: &Groups,
    items: &ItemSet,
    error: EditError,
) -> Result<List<u8>, Memory>
    ensures { IfOk result (λ line. (error ≢ EditError.Memory)
        × (line ≡ refused_line name.now groups.now items.now error)) }
{
    let mut line = Vec::from_slice(alloc, name.as_bytes())?;
    push_refusal(&mut line, groups, items, error)?;
    Ok(List::from_vec(line))
}

/// Appends what is told of a refusal.
fn push_refusal(
    out: &mut Vec<u8>,
    groups: &Groups,
    items: &ItemSet,
    error: EditError,
) -> Result<(), Memory>
    ensures known { OnOk result (error ≢ EditError.Memory) }
    ensures text { OnOk result (out.new.items ≡ out.old.items
        ++ refusal_text groups.now items.now error) }
{
    match error {
        EditError::TooCostly { line, col, item } => {
            let group = group_of(items, item);
            Ok(push_costly(out, line, col, groups.name(group))?)
        }
        EditError::TooDeep { line, col } => Ok(push_deep(out, line, col)?),
        EditError::Memory => Err(Memory),
    }
}

/// Appends the place of an attempt that is too costly, and the group of its item.
fn push_costly(out: &mut Vec<u8>, line: usize, col: usize, group: &str) -> Result<(), AllocError>
    ensures { OnOk result (out.new.items ≡ out.old.items ++ place_text line col
        ++ codes ": too costly: " ++ group.now ++ codes "\n") }
{
    push_place(out, line, col)?;
    push_bytes(out, b": too costly: ")?;
    push_bytes(out, group.as_bytes())?;
    push_bytes(out, b"\n")?;
    Ok(())
}

/// Appends the place where too many frames would be open.
fn push_deep(out: &mut Vec<u8>, line: usize, col: usize) -> Result<(), AllocError>
    ensures { OnOk result (out.new.items ≡ out.old.items ++ place_text line col
        ++ codes ": too deep\n") }
{
    push_place(out, line, col)?;
    push_bytes(out, b": too deep\n")?;
    Ok(())
}

/// Appends a line and a column, counted from 1.
fn push_place(out: &mut Vec<u8>, line: usize, col: usize) -> Result<(), AllocError>
    ensures { OnOk result (out.new.items ≡ out.old.items ++ place_text line col) }
{
    push_bytes(out, b":")?;
    push_number_from_one(out, line)?;
    push_bytes(out, b":")?;
    push_number_from_one(out, col)?;
    Ok(())
}

/// The group of an item.
pub(crate) fn group_of(items: &ItemSet, item: ItemId) -> GroupId
    ensures { result ≡ (item_of items.now item).group }
{
    if (item.0 as usize) < items.added() {
        items.item(item).group
    } else {
        GroupId(0)
    }
}
