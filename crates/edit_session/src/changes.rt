//! What a command does to the lines of a text: one replacement.
ghost use Rattle.std.specs.Prelude.{◌≡◌, ◌≤◌, ◌++◌, length, slice_range, IfOk, OnOk};
ghost use Rattle.edit_script.specs.Edits.{moved, put_in_place};

use std::alloc::Global;
use std::marker::Model;
use syn_base::{Lines, List, Memory};
use text_buffer::Line;

/// Lines `a` to `b - 1`, from 0, become these.
#[derive(Drop)]
pub struct Replacement {
    pub a: usize,
    pub b: usize,
    pub new: List<Line>,
}

impl Model for Replacement {
    ghost use Rattle.edit_script.specs.Edits as edits;

    ghost Value = { edits.Replacement };

    ghost view = { λ r. record { a = r.a; b = r.b; new = r.new } };
}

/// What a command by pattern comes to on a text.
#[derive(Drop)]
pub enum Substituted {
    /// Lines become others.
    Becomes(Replacement),
    /// So many matches are counted, and the text stays (`:s_n`).
    Counted(usize),
}

/// A text in place of lines `a` to `b - 1`; where a text would be left without lines, one empty
/// line.
pub(crate) fn put_in_place<T: Lines>(
    alloc: Global,
    text: &T,
    a: usize,
    b: usize,
    lines: List<Line>,
) -> Result<Replacement, Memory>
    requires { a ≤ b }
    ensures { IfOk result (λ made. made ≡ put_in_place (T.lines text.now) a b lines) }
{
    let mut new = lines;
    if new.is_empty() && text.len() == b - a {
        new.push(List::new(alloc))?;
    }
    Ok(Replacement { a, b, new })
}

/// Lines `a` to `b - 1` before line `dest`, by the least replacement; none where no line changes
/// its place.
pub(crate) fn moved<T: Lines>(
    alloc: Global,
    text: &T,
    a: usize,
    b: usize,
    dest: usize,
) -> Result<Replacement, Memory>
    requires ordered { a ≤ b }
    requires within { b ≤ length (T.lines text.now) }
    requires place { dest ≤ length (T.lines text.now) }
    ensures { IfOk result (λ made. made ≡ moved (T.lines text.now) a b dest) }
{
    if dest < a {
        return exchanged(alloc, text, dest, a, b);
    }
    if b < dest {
        return exchanged(alloc, text, a, b, dest);
    }
    Ok(Replacement {
        a,
        b: a,
        new: List::new(alloc),
    })
}

/// Lines `from` to `middle - 1` behind lines `middle` to `to - 1`.
fn exchanged<T: Lines>(
    alloc: Global,
    text: &T,
    from: usize,
    middle: usize,
    to: usize,
) -> Result<Replacement, Memory>
    requires first { from ≤ middle }
    requires second { middle ≤ to }
    requires within { to ≤ length (T.lines text.now) }
    ensures { IfOk result (λ made. made ≡ record {
      a = from;
      b = to;
      new = slice_range (T.lines text.now) middle to ++ slice_range (T.lines text.now) from middle;
    }) }
{
    let mut lines = List::new(alloc);
    push_lines(alloc, &mut lines, text, middle, to)?;
    push_lines(alloc, &mut lines, text, from, middle)?;
    Ok(Replacement {
        a: from,
        b: to,
        new: lines,
    })
}

/// Lines `a` to `b - 1` before line `dest` once more.
pub(crate) fn copied<T: Lines>(
    alloc: Global,
    text: &T,
    a: usize,
    b: usize,
    dest: usize,
) -> Result<Replacement, Memory>
    requires ordered { a ≤ b }
    requires within { b ≤ length (T.lines text.now) }
    ensures { IfOk result (λ made. made ≡ record {
      a = dest;
      b = dest;
      new = slice_range (T.lines text.now) a b;
    }) }
{
    let mut lines = List::new(alloc);
    push_lines(alloc, &mut lines, text, a, b)?;
    Ok(Replacement {
        a: dest,
        b: dest,
        new: lines,
    })
}

/// Puts copies of lines `a` to `b - 1` at the end.
fn push_lines<T: Lines>(
    alloc: Global,
    lines: &mut List<Line>,
    text: &T,
    a: usize,
    b: usize,
) -> Result<(), Memory>
    requires ordered { a ≤ b }
    requires within { b ≤ length (T.lines text.now) }
    ensures { OnOk result (lines.new ≡ lines.old ++ slice_range (T.lines text.now) a b) }
{
    for number in a..b {
        lines.push(List::from_slice(alloc, text.line(number))?)?;
    }
    Ok(())
}
