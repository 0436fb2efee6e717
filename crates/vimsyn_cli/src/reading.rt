//! The syntax that a run reads (`:syn-include` and all that it asks for), or the fault that tells why
//! there is none.
ghost use Rattle.std.specs.Prelude.{◌≡◌, IfOk, Some};
ghost use Rattle.vimsyn_cli.specs.Changes.{files_between};
ghost use Rattle.vimsyn_cli.specs.Reading.{IsErrorStop, IsReadFault, IsUnreadAsked, options_of, refused_cause, syntax_told, told_of};
ghost use Rattle.vimsyn_cli.specs.Reads.{Reads};

use crate::fault::{Fault, FaultKind, Stop};
use cause_print::{FileFault, file_fault_text, refused_text};
use program_words::CheckWords;
use std::alloc::Global;
use syn_base::{Files, List, Memory};
use syn_reader::{ReadError, ReadOptions, Syntax, read_syntax};
use syn_words::Cause;

/// The syntax that the file and those that it asks for define.
pub(crate) fn read<F: Files>(
    alloc: Global,
    files: &mut F,
    words: &CheckWords<'_>,
) -> Result<Syntax, Stop>
    ensures { Reads (syntax_told words.now) (IsUnreadAsked words.now) IsReadFault
        (files_between F.told F.faults F.misses F.longs files.old files.new) result }
{
    let options = read_options(alloc, words)?;
    match read_syntax(alloc, files, words.syntax(), &options) {
        Ok(syntax) => Ok(syntax),
        Err(error) => Err(stop_for(alloc, &error)),
    }
}

/// The options of reading that the words give.
fn read_options(alloc: Global, words: &CheckWords<'_>) -> Result<ReadOptions, Memory>
    ensures { IfOk result (λ options. options ≡ options_of words.now) }
{
    Ok(ReadOptions {
        folder: List::from_chars(alloc, words.folder())?,
        assume_fromstart: words.assume_fromstart(),
    })
}

/// The stop for an error of reading.
fn stop_for(alloc: Global, error: &ReadError) -> Stop
    ensures { IsErrorStop error.now result }
{
    match told(alloc, error) {
        Ok(fault) => Stop::Fault(fault),
        Err(_) => Stop::Memory,
    }
}

/// The fault that tells an error of reading.
fn told(alloc: Global, error: &ReadError) -> Result<Fault, Memory>
    ensures { IfOk result (λ fault. told_of error.now ≡ Some fault) }
{
    match error {
        ReadError::Refused { file, line, cause } => Ok(Fault {
            line: refused_text(alloc, file.as_slice(), *line, cause)?,
            cause: refused_cause(cause),
        }),
        ReadError::Missing { file, line, name } => Ok(Fault {
            line: file_fault_text(
                alloc,
                file.as_slice(),
                *line,
                name.as_slice(),
                FileFault::Missing,
            )?,
            cause: FaultKind::Missing,
        }),
        ReadError::FileFault { file, line, name } => Ok(Fault {
            line: file_fault_text(
                alloc,
                file.as_slice(),
                *line,
                name.as_slice(),
                FileFault::Unread,
            )?,
            cause: FaultKind::Unread,
        }),
        ReadError::Memory => Err(Memory),
    }
}

/// The cause of a refusal.
fn refused_cause(cause: &Cause) -> FaultKind
    ensures { result ≡ refused_cause cause.now }
{
    if let Cause::TooLongFile { name: _ } = cause {
        FaultKind::TooLong
    } else {
        FaultKind::Content
    }
}
