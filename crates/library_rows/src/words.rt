//! Calls of `syn_words` and of `word_values`.
//!
//!     commands syn on/syn off    the commands of a syntax file, a slash for each line break: the line of each,
//!                                from 1, with what it is, and the line of the fault
//!     cpo TEXT                   whether a text begins with the name of the option 'cpoptions'
//!     in_folder NAME             a name of a file, in place of `<sfile>:p:h/`

use crate::answer::{add_whether, add_word, begin_answer, write_characters};
use crate::fault::Fault;
use std::alloc::Global;
use syn_base::List;
use syn_words::{Command, Commands, What, commands};
use word_values::{begins_cpo, in_folder};

pub(crate) fn commands_of(
    alloc: Global,
    arguments: &[&str],
    answers: &mut String,
) -> Result<(), Fault> {
    let [file] = arguments else {
        return Err(Fault::BadCase);
    };
    let file = file.replace(alloc, '/', "\n")?;
    let commands = commands(alloc, file.as_bytes())?;
    add_commands(answers, &commands)
}

/// Adds the commands and the fault, or a dash for nothing.
fn add_commands(answers: &mut String, commands: &Commands) -> Result<(), Fault> {
    for command in commands.list.as_slice() {
        add_command(answers, command)?;
    }
    if let Some(fault) = &commands.fault {
        let line = fault.line;
        begin_answer(answers)?;
        write!(answers, "fault={line}")?;
    }
    if answers.is_empty() {
        return add_word(answers, "");
    }
    Ok(())
}

fn add_command(answers: &mut String, command: &Command) -> Result<(), Fault> {
    let line = command.line;
    let name = name_of(&command.what);
    begin_answer(answers)?;
    write!(answers, "{line}={name}")?;
    Ok(())
}

fn name_of(what: &What) -> &'static str {
    match what {
        What::Nothing => "nothing",
        What::Runtime(_) => "runtime",
        What::CaseIgnore(_) => "case",
        What::Iskeyword(_) => "iskeyword",
        What::Item { .. } => "item",
        What::Cluster { .. } => "cluster",
        What::Include { .. } => "include",
        What::Sync { .. } => "sync",
        What::ClearAll | What::Clear(_) => "clear",
        What::Link { .. } => "link",
        What::Style { .. } => "style",
    }
}

pub(crate) fn names_cpo(
    alloc: Global,
    arguments: &[&str],
    answer: &mut String,
) -> Result<(), Fault> {
    let [text] = arguments else {
        return Err(Fault::BadCase);
    };
    let text = List::from_chars(alloc, text)?;
    add_whether(answer, begins_cpo(alloc, text.as_slice())?)
}

pub(crate) fn name_in_folder(
    alloc: Global,
    arguments: &[&str],
    answer: &mut String,
) -> Result<(), Fault> {
    let [name] = arguments else {
        return Err(Fault::BadCase);
    };
    let name = in_folder(alloc, List::from_chars(alloc, name)?)?;
    write_characters(answer, name.as_slice())
}
