//! Calls of `edit_script`.
//!
//!     script 1a;x; .; ..    the entries that become whole with each piece of a script, a semicolon for each line
//!                           break, and those when it ends behind them: the line, from 0, and addresses, the
//!                           letter of the verb and how many lines of text, or the fault

use crate::answer::{add_word, begin_answer};
use crate::fault::Fault;
use edit_script::{EditCommand, Entry, Last, Script, ScriptFault, Verb};
use std::alloc::Global;

pub(crate) fn entries(alloc: Global, pieces: &[&str], answers: &mut String) -> Result<(), Fault> {
    let mut script = Script::new(alloc);
    for piece in pieces {
        feed(alloc, &mut script, piece, answers)?;
    }
    let left = script.finish()?;
    add_entries(answers, left.as_slice())
}

/// Adds the entries that become whole with a piece.
fn feed(
    alloc: Global,
    script: &mut Script,
    piece: &str,
    answers: &mut String,
) -> Result<(), Fault> {
    let piece = piece.replace(alloc, ';', "\n")?;
    let entries = script.feed(piece.as_bytes())?;
    add_entries(answers, entries.as_slice())
}

/// Adds entries, or a dash for none.
fn add_entries(answers: &mut String, entries: &[Entry]) -> Result<(), Fault> {
    if entries.is_empty() {
        return add_word(answers, "");
    }
    for entry in entries {
        add_entry(answers, entry)?;
    }
    Ok(())
}

fn add_entry(answers: &mut String, entry: &Entry) -> Result<(), Fault> {
    begin_answer(answers)?;
    let line = entry.line;
    write!(answers, "{line}=")?;
    match &entry.what {
        Ok(command) => write_command(answers, command),
        Err(fault) => Ok(answers.push_str(fault_words(*fault))?),
    }
}

/// Writes the addresses of a command, its verb and how many lines it has.
fn write_command(answers: &mut String, command: &EditCommand) -> Result<(), Fault> {
    write_address(answers, command.first)?;
    answers.push(',')?;
    write_address(answers, command.last)?;
    let letter = letter_of(&command.verb);
    let count = command.lines.len();
    write!(answers, ",{letter},{count}")?;
    Ok(())
}

fn write_address(answers: &mut String, address: Last) -> Result<(), Fault> {
    match address {
        Last::Number(number) => write!(answers, "{number}")?,
        Last::End => answers.push('$')?,
    }
    Ok(())
}

/// The letter of a verb in a script; that of a command by pattern is its own.
fn letter_of(verb: &Verb) -> char {
    match verb {
        Verb::Append => 'a',
        Verb::Insert => 'i',
        Verb::Change => 'c',
        Verb::Delete => 'd',
        Verb::Move(_) => 'm',
        Verb::CopyTo(_) => 't',
        Verb::Print => 'p',
        Verb::Ex(text) => text.as_slice().first().copied().unwrap_or('?'),
        Verb::Page => 'H',
        Verb::Folds => 'F',
        Verb::Syntax(_) => 'S',
    }
}

fn fault_words(fault: ScriptFault) -> &'static str {
    match fault {
        ScriptFault::BadCommand => "bad command",
        ScriptFault::BadAddress => "bad address",
        ScriptFault::UnfinishedText => "unfinished text",
        ScriptFault::BadUtf8 => "bad UTF-8",
        ScriptFault::LongLine => "long line",
    }
}
