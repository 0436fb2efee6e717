//! Calls of `text_buffer`.
//!
//!     text 1537 511-512+3 ..  a text of so many lines, of which line 511 becomes three lines and so on,
//!                             against a plain list with the same changes: how many lines both have, or
//!                             the first line where they differ
//!     bytes a/b               the bytes of a text of these lines, and of its copy with room for more lines

ghost use Rattle.std.specs.Prelude.{◌≡◌, ◌<◌, ◌≤◌, length, IfOk};
ghost use Rattle.text_buffer.specs.TextSeen.{replaced};

use crate::answer::{add_bytes, write_characters};
use crate::fault::{Fault, number_of};
use std::alloc::Global;
use syn_base::{Lines, List};
use text_buffer::{Line, MOST_LINES, Text};

/// For how many lines room is made in a copy.
const MORE_LINES: usize = 1000;

/// A change: lines `a` to `b - 1` become `count` lines.
#[derive(Clone, Copy)]
struct Change {
    a: usize,
    b: usize,
    count: usize,
}

/// A change as `a-b+count`.
fn change_of(text: &str) -> Result<Change, Fault> {
    let (a, rest) = text.split_once('-').ok_or(Fault::BadCase)?;
    let (b, count) = rest.split_once('+').ok_or(Fault::BadCase)?;
    Ok(Change {
        a: number_of(a)?,
        b: number_of(b)?,
        count: number_of(count)?,
    })
}

/// The lines that a change puts in: no other change has such lines.
fn lines_of(alloc: Global, change: usize, count: usize) -> Result<Vec<Line>, Fault> {
    let mut lines = Vec::new(alloc);
    for number in 0..count {
        lines.push(line_of(alloc, change, number)?)?;
    }
    Ok(lines)
}

fn line_of(alloc: Global, change: usize, number: usize) -> Result<Line, Fault> {
    let line = format!(in alloc; "{change}.{number}")?;
    Ok(List::from_chars(alloc, line.as_str())?)
}

/// Changes a text, where the change is possible.
fn change_text(text: &mut Text, a: usize, b: usize, new: List<Line>) -> Result<(), Fault> {
    let count = text.len();
    if a > b || b > count {
        return Err(Fault::BadCase);
    }
    let left = a + (count - b);
    let lines = left.saturating_add(new.len());
    if lines == 0 || lines > MOST_LINES {
        return Err(Fault::BadCase);
    }
    Ok(text.replace(a, b, new)?)
}

/// Changes a plain list.
fn change_list(lines: &mut Vec<Line>, a: usize, b: usize, new: Vec<Line>) -> Result<(), Fault> {
    if a > b || b > lines.len() {
        return Err(Fault::BadCase);
    }
    let _ = lines.splice(a..b, new)?;
    Ok(())
}

/// The first line that a text and a plain list don't share.
fn first_difference(text: &Text, lines: &[Line]) -> Option<usize> {
    for i in 0..text.len() {
        match lines.get(i) {
            Some(line) if line.as_slice() == text.line(i) => {}
            _ => return Some(i),
        }
    }
    if lines.len() > text.len() {
        Some(text.len())
    } else {
        None
    }
}

pub(crate) fn changed(alloc: Global, arguments: &[&str], answer: &mut String) -> Result<(), Fault> {
    let [count, changes @ ..] = arguments else {
        return Err(Fault::BadCase);
    };
    let mut lines = lines_of(alloc, 0, number_of(count)?)?;
    let mut text = text_of_lines(alloc, &lines)?;
    for (i, change) in changes.iter().enumerate() {
        change_both(alloc, &mut text, &mut lines, i + 1, change_of(change)?)?;
    }
    write_difference(answer, &text, lines.as_slice())
}

/// Makes a change of this number in a text and in a plain list.
fn change_both(
    alloc: Global,
    text: &mut Text,
    lines: &mut Vec<Line>,
    number: usize,
    change: Change,
) -> Result<(), Fault> {
    let Change { a, b, count } = change;
    let new = List::from_vec(lines_of(alloc, number, count)?);
    change_text(text, a, b, new)?;
    let new = lines_of(alloc, number, count)?;
    change_list(lines, a, b, new)
}

/// Writes how many lines both have, or where they differ.
fn write_difference(answer: &mut String, text: &Text, lines: &[Line]) -> Result<(), Fault> {
    let count = text.len();
    match first_difference(text, lines) {
        None => write!(answer, "{count} lines")?,
        Some(line) => write!(answer, "they differ at {line}")?,
    }
    Ok(())
}

/// The text of a plain list of lines.
fn text_of_lines(alloc: Global, lines: &Vec<Line>) -> Result<Text, Fault> {
    let mut bytes = String::new(alloc);
    for line in lines {
        write_characters(&mut bytes, line.as_slice())?;
        bytes.push('\n')?;
    }
    Ok(Text::from_bytes(alloc, bytes.as_bytes())?)
}

pub(crate) fn bytes(alloc: Global, arguments: &[&str], answers: &mut String) -> Result<(), Fault> {
    let [lines] = arguments else {
        return Err(Fault::BadCase);
    };
    let text = text_of(alloc, lines)?;
    add_text(alloc, &text, answers)?;
    let mut copy = text.copy(alloc)?;
    copy.reserve_lines(MORE_LINES)?;
    add_text(alloc, &copy, answers)
}

/// The text of lines with a slash between any two.
pub(crate) fn text_of(alloc: Global, lines: &str) -> Result<Text, Fault> {
    let mut bytes = String::new(alloc);
    for c in lines.chars() {
        bytes.push(if c == '/' { '\n' } else { c })?;
    }
    Ok(Text::from_bytes(alloc, bytes.as_bytes())?)
}

/// Adds the bytes of a text.
fn add_text(alloc: Global, text: &Text, answers: &mut String) -> Result<(), Fault> {
    let bytes = text.to_bytes(alloc)?;
    add_bytes(answers, bytes.as_slice())
}
