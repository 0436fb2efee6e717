//! What a command by pattern (`:s`, `:g`, `:v`) comes to on a text.
ghost use Rattle.std.specs.Prelude.{◌≡◌, ◌<◌, ◌≤◌, length, IfOk};
ghost use Rattle.edit_session.specs.Painter.{ComesTo, FitsIn};
ghost use Rattle.ex_substitute.specs.Answers.{Answers};
ghost use Rattle.ex_substitute.specs.Applying.{applied};
ghost use Rattle.ex_substitute.specs.Counting.{is_counted};
ghost use Rattle.vimsyn_cli.specs.Substitutions as spec;

use cause_print::ex_cause_text;
use edit_script::is_by_pattern;
use edit_session::{Replacement, Substituted, Unedited};
use ex_substitute::{Change, ExCommand, ExError};
use std::alloc::Global;
use syn_base::Lines;

/// What the command in these characters comes to on lines `a` to `b - 1`, with at most so many ticks
/// for an attempt.
pub(crate) fn substituted<T: Lines>(
    alloc: Global,
    text: &T,
    a: usize,
    b: usize,
    budget: u64,
    characters: &[char],
) -> Result<Substituted, Unedited>
    requires order { a < b }
    requires within { b ≤ length (T.lines text.now) }
    requires budget { 1 ≤ budget }
    ensures comes { ComesTo
        (spec.substituted_by budget (T.lines text.now) a b characters.now) result }
    ensures fits { IfOk result (FitsIn (T.lines text.now)) }
{
    match read_command(alloc, characters) {
        Ok(command) => applied(alloc, text, a, b, budget, &command),
        Err(cause) => Err(in_words(alloc, cause)),
    }
}

/// The command in these characters.
fn read_command(alloc: Global, characters: &[char]) -> Result<ExCommand, ExError>
    ensures { Answers result (spec.command_in characters.now) }
{
    if is_by_pattern(characters) {
        ExCommand::read(alloc, characters)
    } else {
        Err(ExError::BadFlags)
    }
}

/// What a command comes to on lines `a` to `b - 1`.
fn applied<T: Lines>(
    alloc: Global,
    text: &T,
    a: usize,
    b: usize,
    budget: u64,
    command: &ExCommand,
) -> Result<Substituted, Unedited>
    requires order { a < b }
    requires within { b ≤ length (T.lines text.now) }
    requires budget { 1 ≤ budget }
    ensures comes { ComesTo (spec.or_words (is_counted command.now.action)
        (applied command.now (T.lines text.now) a b budget)) result }
    ensures fits { IfOk result (FitsIn (T.lines text.now)) }
{
    match command.apply(alloc, text, a, b, budget) {
        Ok(change) => Ok(change_or_count(command.count_only(), change)),
        Err(cause) => Err(in_words(alloc, cause)),
    }
}

/// The count of a command that counts alone, and the change of any other one.
fn change_or_count(counted: bool, change: Change) -> Substituted
    ensures { result ≡ spec.change_or_count counted change }
{
    if counted {
        return Substituted::Counted(change.count);
    }
    Substituted::Becomes(Replacement {
        a: change.a,
        b: change.b,
        new: change.new,
    })
}

/// The words against a command.
fn in_words(alloc: Global, cause: ExError) -> Unedited
    ensures { spec.IsWorded cause result }
{
    match cause {
        ExError::Memory => Unedited::Memory,
        cause => match ex_cause_text(alloc, &cause) {
            Ok(words) => Unedited::Refused(words),
            Err(_) => Unedited::Memory,
        },
    }
}
