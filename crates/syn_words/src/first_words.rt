//! Commands by their first word.
ghost use Rattle.std.specs.Prelude.{◌≡◌, Some, None};
ghost use Rattle.syn_words.specs.Answers.{LeavesAs, TakesAs};
ghost use Rattle.syn_words.specs.Commands as spec;

use crate::arguments::{front_run, no_more, word_start};
use crate::file_names::file_argument;
use crate::highlight::highlight_command;
use crate::refusal::WordRefusal;
use crate::syntax::{quiet, syntax_command};
use crate::{Cause, What};
use std::alloc::Global;
use text_scan::front;
use word_reader::{Reader, Until, behind_first, is_word};
use word_values::{CommandName, begins_cpo, begins_variable, command_name, is_guard};

/// What a command outside the guard says.
#[derive(Drop)]
pub(crate) enum Said {
    Does(What),
    /// It is the guard's `if`.
    OpensGuard,
}

/// LeavesAs the line where a variable is named.
fn variable(reader: &mut Reader<'_>) -> Result<What, WordRefusal>
    ensures { TakesAs result reader.new (spec.variable_at reader.old) }
{
    match front(reader.rest()) {
        Some((c, _)) if begins_variable(c) => {
            reader.leave();
            Ok(What::Nothing)
        }
        _ => Err(WordRefusal::Fault(Cause::UnknownCommand)),
    }
}

/// LeavesAs the line where Vim's option 'cpoptions' is named behind an ampersand.
fn cpoptions(alloc: Global, reader: &mut Reader<'_>) -> Result<What, WordRefusal>
    ensures { TakesAs result reader.new (spec.cpoptions_at reader.old) }
{
    if !begins_cpo(alloc, behind_first(reader.rest()))? {
        return Err(WordRefusal::Fault(Cause::UnknownCommand));
    }
    reader.leave();
    Ok(What::Nothing)
}

/// Takes a command behind its word `let`.
fn let_command(alloc: Global, reader: &mut Reader<'_>) -> Result<What, WordRefusal>
    ensures { TakesAs result reader.new (spec.let_command reader.old) }
{
    word_start(reader)?;
    if reader.begins('&') {
        return cpoptions(alloc, reader);
    }
    variable(reader)
}

fn unlet_command(reader: &mut Reader<'_>) -> Result<What, WordRefusal>
    ensures { TakesAs result reader.new (spec.unlet_command reader.old) }
{
    word_start(reader)?;
    variable(reader)
}

fn set_command(alloc: Global, reader: &mut Reader<'_>) -> Result<What, WordRefusal>
    ensures { TakesAs result reader.new (spec.set_command reader.old) }
{
    word_start(reader)?;
    if begins_cpo(alloc, reader.rest())? {
        return Ok(quiet(reader));
    }
    Err(WordRefusal::Fault(Cause::UnknownCommand))
}

fn runtime_command(alloc: Global, reader: &mut Reader<'_>) -> Result<What, WordRefusal>
    ensures { TakesAs result reader.new (spec.runtime_command reader.old) }
{
    let name = file_argument(alloc, reader)?;
    no_more(reader)?;
    Ok(What::Runtime(name))
}

/// Takes the guard's condition behind `if`.
fn guard(reader: &mut Reader<'_>) -> Result<Said, WordRefusal>
    ensures { TakesAs result reader.new (spec.guard reader.old) }
{
    reader.skip_blanks();
    if !is_guard(front_run(Until::Word, reader.rest())) {
        return Err(WordRefusal::Fault(Cause::UnknownCommand));
    }
    reader.skip_run(Until::Word);
    no_more(reader)?;
    Ok(Said::OpensGuard)
}

/// Takes a command other than the guard's, behind its first word.
fn plain_command(
    alloc: Global,
    name: CommandName,
    reader: &mut Reader<'_>,
) -> Result<What, WordRefusal>
    ensures { TakesAs result reader.new (spec.plain_command name reader.old) }
{
    match name {
        CommandName::Syntax => syntax_command(alloc, reader),
        CommandName::Let => let_command(alloc, reader),
        CommandName::Unlet => unlet_command(reader),
        CommandName::Set => set_command(alloc, reader),
        CommandName::Scriptencoding => Ok(quiet(reader)),
        CommandName::Runtime => runtime_command(alloc, reader),
        CommandName::If => Err(WordRefusal::Fault(Cause::UnknownCommand)),
        CommandName::Highlight { force } => highlight_command(alloc, force, reader),
    }
}

/// Takes the command that begins here.
pub(crate) fn command(alloc: Global, reader: &mut Reader<'_>) -> Result<Said, WordRefusal>
    ensures { TakesAs result reader.new (spec.command reader.old) }
{
    let word = front_run(Until::Word, reader.rest());
    reader.skip_run(Until::Word);
    match command_name(word) {
        None => Err(WordRefusal::Fault(Cause::UnknownCommand)),
        Some(CommandName::If) => guard(reader),
        Some(name) => {
            let what = plain_command(alloc, name, reader)?;
            Ok(Said::Does(what))
        }
    }
}

/// Takes a command of the guard, where this word is awaited.
pub(crate) fn awaited(word: &str, reader: &mut Reader<'_>) -> Result<(), WordRefusal>
    ensures { LeavesAs result reader.new (spec.awaited word.now reader.old) }
{
    if !is_word(front_run(Until::Word, reader.rest()), word) {
        return Err(WordRefusal::Fault(Cause::GuardUnfinished));
    }
    reader.skip_run(Until::Word);
    no_more(reader)
}
