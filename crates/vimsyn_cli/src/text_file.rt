//! The text of a file that the words name, or the fault that tells why there is none.
ghost use Rattle.std.specs.Prelude.{◌≤◌};
ghost use Rattle.text_buffer.specs.TextOfBytes.{line_of_fault};
ghost use Rattle.vimsyn_cli.specs.Changes.{files_between};
ghost use Rattle.vimsyn_cli.specs.FileStop.{IsLinesOf, IsStop, IsUnreadNamed, StopsForText, lines_of};
ghost use Rattle.vimsyn_cli.specs.Painting.{bytes_told, text_told};
ghost use Rattle.vimsyn_cli.specs.Plans.{IfFault, IsOfContent};
ghost use Rattle.vimsyn_cli.specs.Reads.{Reads};
ghost use Rattle.vimsyn_cli.specs.Report.{IsFaultOf, fault_of};

use crate::fault::Stop;
use crate::file_fault::NamedFault;
use std::alloc::Global;
use syn_base::{Fetched, Files, List};
use text_buffer::{MOST_LINES, Text, TextError};

/// The most bytes of a text file: 64 MiB.
const MOST_TEXT_BYTES: usize = 67_108_864;

/// The text of the file of this name.
pub(crate) fn read_text<F: Files>(alloc: Global, files: &mut F, name: &str) -> Result<Text, Stop>
    ensures { Reads (text_told name.now) (IsUnreadNamed name.now) (IsFaultOf name.now)
        (files_between F.told F.faults F.misses F.longs files.old files.new) (lines_of result) }
{
    let bytes = read_file(alloc, files, name, MOST_TEXT_BYTES)?;
    text_of(alloc, name, bytes.as_slice())
}

/// The text of a file's bytes.
fn text_of(alloc: Global, name: &str, bytes: &[u8]) -> Result<Text, Stop>
    ensures lines { IsLinesOf name.now bytes.now result }
    ensures told { IfFault result (IsFaultOf name.now) }
    ensures content { IfFault result IsOfContent }
{
    match Text::from_bytes(alloc, bytes) {
        Ok(text) => Ok(text),
        Err(fault) => Err(text_stop(alloc, name, fault)),
    }
}

/// The fault of a text, with its line counted from 1.
fn text_stop(alloc: Global, name: &str, fault: TextError) -> Stop
    requires { line_of_fault fault ≤ MOST_LINES }
    ensures stop { StopsForText name.now fault result }
{
    let fault = match fault {
        TextError::BadUtf8 { line } => NamedFault::BadUtf8 { number: line + 1 },
        TextError::LineTooLong { line } => NamedFault::LineTooLong { number: line + 1 },
        TextError::TooManyLines => NamedFault::TooManyLines,
        TextError::Memory => return Stop::Memory,
    };
    stop_for(alloc, name, fault)
}

/// The bytes of a file, or why there are none.
fn read_file<F: Files>(
    alloc: Global,
    files: &mut F,
    name: &str,
    limit: usize,
) -> Result<List<u8>, Stop>
    ensures { Reads (bytes_told name.now limit) (IsUnreadNamed name.now) (IsFaultOf name.now)
        (files_between F.told F.faults F.misses F.longs files.old files.new) result }
{
    match files.fetch(alloc, name, limit) {
        Fetched::Whole(bytes) => Ok(bytes),
        Fetched::Missing => Err(stop_for(alloc, name, NamedFault::Missing)),
        Fetched::TooLong => Err(stop_for(alloc, name, NamedFault::TooLong)),
        Fetched::Failed => Err(stop_for(alloc, name, NamedFault::Unread)),
        Fetched::Memory => Err(Stop::Memory),
    }
}

/// The stop for a fault of the file of this name.
fn stop_for(alloc: Global, name: &str, fault: NamedFault) -> Stop
    ensures { IsStop (fault_of name.now fault) result }
{
    match fault.told(alloc, name) {
        Ok(fault) => Stop::Fault(fault),
        Err(_) => Stop::Memory,
    }
}
