//! Drawn edits: the kind first, then the line, then the words of a generated line.
ghost use Rattle.std.specs.Prelude.{◌≡◌, ◌<◌, ◌≤◌, ◌∷◌, [], IfOk, OnOk};
ghost use Rattle.large_session.specs.DrawnEdits.{drawn_addition, drawn_change, drawn_deletion, drawn_edit};
ghost use Rattle.large_session.specs.GeneratedText.{generated_line};
ghost use Rattle.large_session.specs.Steps.{FitsLines};

use crate::draws::Draws;
use crate::generated::generated_line;
use edit_session::Replacement;
use std::alloc::Global;
use syn_base::{List, Memory};
use text_buffer::Line;

/// A drawn edit of a text of so many lines.
pub(crate) fn drawn_edit(
    alloc: Global,
    draws: &mut Draws,
    count: usize,
) -> Result<Replacement, Memory>
    requires some { 0 < count }
    requires few { count < usize.MAX }
    ensures edit { IfOk result (λ edit. edit ≡ (drawn_edit count draws.old).value) }
    ensures draws { OnOk result (draws.new ≡ (drawn_edit count draws.old).next) }
    ensures fits { IfOk result (λ edit. FitsLines count edit) }
{
    match draws.draw(4) {
        0 | 1 => drawn_change(alloc, draws, count),
        2 => drawn_addition(alloc, draws, count),
        _ => drawn_deletion(alloc, draws, count),
    }
}

/// A line becomes a generated one.
fn drawn_change(alloc: Global, draws: &mut Draws, count: usize) -> Result<Replacement, Memory>
    requires { 0 < count }
    ensures edit { IfOk result (λ edit. edit ≡ (drawn_change count draws.old).value) }
    ensures draws { OnOk result (draws.new ≡ (drawn_change count draws.old).next) }
    ensures fits { IfOk result (λ edit. FitsLines count edit) }
{
    let at = draws.draw(count);
    let new = one_line(alloc, draws)?;
    Ok(Replacement {
        a: at,
        b: at + 1,
        new,
    })
}

/// A generated line is added before the first line, or behind one.
fn drawn_addition(alloc: Global, draws: &mut Draws, count: usize) -> Result<Replacement, Memory>
    requires { count < usize.MAX }
    ensures edit { IfOk result (λ edit. edit ≡ (drawn_addition count draws.old).value) }
    ensures draws { OnOk result (draws.new ≡ (drawn_addition count draws.old).next) }
    ensures fits { IfOk result (λ edit. FitsLines count edit) }
{
    let at = draws.draw(count + 1);
    let added = one_line(alloc, draws)?;
    Ok(Replacement {
        a: at,
        b: at,
        new: added,
    })
}

/// A line is deleted; in place of the only one comes an empty line.
fn drawn_deletion(alloc: Global, draws: &mut Draws, count: usize) -> Result<Replacement, Memory>
    requires { 0 < count }
    ensures edit { IfOk result (λ edit. edit ≡ (drawn_deletion count draws.old).value) }
    ensures draws { OnOk result (draws.new ≡ (drawn_deletion count draws.old).next) }
    ensures fits { IfOk result (λ edit. FitsLines count edit) }
{
    let at = draws.draw(count);
    let mut new = List::new(alloc);
    if count == 1 {
        new.push(List::new(alloc))?;
    }
    Ok(Replacement {
        a: at,
        b: at + 1,
        new,
    })
}

/// One generated line.
fn one_line(alloc: Global, draws: &mut Draws) -> Result<List<Line>, Memory>
    ensures line { IfOk result (λ lines. lines ≡ (generated_line draws.old).value ∷ []) }
    ensures draws { OnOk result (draws.new ≡ (generated_line draws.old).next) }
{
    let mut lines = List::new(alloc);
    lines.push(generated_line(alloc, draws)?)?;
    Ok(lines)
}
