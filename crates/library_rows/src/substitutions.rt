//! Calls of `ex_substitute`.
//!
//!     ex COMMAND a/b 0-2    what a command by pattern makes of these lines of a text: whether it counts alone,
//!                           the lines that it changes, how many matches or lines it met, and the new lines,
//!                           each with a slash behind it; or the cause

ghost use Rattle.std.specs.Prelude.{◌<◌, ◌≤◌, IsTrue, length};
ghost use Rattle.ex_substitute.specs.Commands.{BeginsCommand};

use crate::answer::{add_number, add_whether, add_word, begin_answer, write_characters};
use crate::fault::{Fault, range_of};
use crate::texts::text_of;
use ex_substitute::{Change, ExCommand, ExError};
use std::alloc::Global;
use syn_base::{Lines, List};
use text_buffer::Text;

/// How many ticks an attempt may cost.
const BUDGET: u64 = 1_000_000;

pub(crate) fn made(alloc: Global, arguments: &[&str], answer: &mut String) -> Result<(), Fault> {
    let [command, lines, range] = arguments else {
        return Err(Fault::BadCase);
    };
    let command = List::from_chars(alloc, command)?;
    if !begins_command(command.as_slice()) {
        return Err(Fault::BadCase);
    }
    let text = text_of(alloc, lines)?;
    match ExCommand::read(alloc, command.as_slice()) {
        Ok(command) => apply(alloc, &command, &text, range, answer),
        Err(cause) => add_cause(answer, &cause),
    }
}

/// Whether a text begins as a command does.
fn begins_command(text: &[char]) -> bool
    ensures { IsTrue result → BeginsCommand text.now }
{
    match text {
        [letter, slash, ..] => {
            (*letter == 's' || *letter == 'g' || *letter == 'v') && *slash == '/'
        }
        _ => false,
    }
}

/// Applies a command to a range of lines.
fn apply(
    alloc: Global,
    command: &ExCommand,
    text: &Text,
    range: &str,
    answer: &mut String,
) -> Result<(), Fault> {
    let (a, b) = range_of(range)?;
    if a >= b || b > text.len() {
        return Err(Fault::BadCase);
    }
    match command.apply(alloc, text, a, b, BUDGET) {
        Ok(change) => {
            add_whether(answer, command.count_only())?;
            add_change(answer, &change)
        }
        Err(cause) => add_cause(answer, &cause),
    }
}

fn add_change(answer: &mut String, change: &Change) -> Result<(), Fault> {
    let (a, b) = (change.a, change.b);
    begin_answer(answer)?;
    write!(answer, "{a}-{b}")?;
    add_number(answer, change.count)?;
    if change.new.is_empty() {
        return add_word(answer, "");
    }
    begin_answer(answer)?;
    for line in change.new.as_slice() {
        write_characters(answer, line.as_slice())?;
        answer.push('/')?;
    }
    Ok(())
}

fn add_cause(answer: &mut String, cause: &ExError) -> Result<(), Fault> {
    let words = match cause {
        ExError::EmptyPattern => "empty pattern",
        ExError::Pattern { .. } => "bad pattern",
        ExError::BadReplacement { .. } => "bad string",
        ExError::BadFlags => "bad flags",
        ExError::TooCostly(_) => "too costly",
        ExError::NoMatch => "no match",
        ExError::TooManyLines => "too many lines",
        ExError::LongLine => "long line",
        ExError::Memory => return Err(Fault::Memory),
    };
    add_word(answer, words)
}
