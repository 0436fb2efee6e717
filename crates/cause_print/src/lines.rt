//! Lines that tell faults.
ghost use Rattle.std.specs.Prelude.{◌≡◌, ◌++◌, IfOk, OnOk};
ghost use Rattle.cause_print.specs.FaultText as spec;

use crate::cause::print_cause;
use byte_text::{push_bytes, push_chars, push_number};
use std::alloc::{AllocError, Global};
use syn_base::{List, Memory};
use syn_words::Cause;

/// Why the bytes of a file can't be had.
#[derive(Clone, Copy, Debug, PartialEq, Eq)]
pub enum FileFault {
    /// There is no such file.
    Missing,
    /// The file can't be read.
    Unread,
    /// The file has more bytes than are read of one.
    TooLong,
}

/// The line for a syntax file that is refused: `line`, from 1, is that of the command with the fault. A
/// file that is too long is told as by `file_fault_text`.
pub fn refused_text(
    alloc: Global,
    file: &[char],
    line: usize,
    cause: &Cause,
) -> Result<List<u8>, Memory>
    ensures { IfOk result (λ bytes. bytes ≡ spec.refused_text file.now line cause.now) }
{
    if let Cause::TooLongFile { name } = cause {
        return file_fault_text(alloc, file, line, name.as_slice(), FileFault::TooLong);
    }
    let mut out = Vec::new(alloc);
    print_place(&mut out, file, line)?;
    print_cause(alloc, &mut out, cause)?;
    push_bytes(&mut out, b"\n")?;
    Ok(List::from_vec(out))
}

/// The line for a file of this name that can't be had. `file` and `line` are those of the command that
/// asked for it, with lines from 1; where `line` is 0 no command did, and `file` isn't told.
pub fn file_fault_text(
    alloc: Global,
    file: &[char],
    line: usize,
    name: &[char],
    fault: FileFault,
) -> Result<List<u8>, Memory>
    ensures { IfOk result (λ bytes. bytes ≡ spec.file_fault_text file.now line name.now fault) }
{
    let mut out = Vec::new(alloc);
    if line > 0 {
        print_place(&mut out, file, line)?;
    }
    push_chars(&mut out, name)?;
    push_bytes(&mut out, fault.label().as_bytes())?;
    push_bytes(&mut out, b"\n")?;
    Ok(List::from_vec(out))
}

impl FileFault {
    /// The words for the fault, as they follow the file's name.
    pub fn label(self) -> &'static str
        ensures { result.now ≡ spec.file_fault self }
    {
        match self {
            FileFault::Missing => ": no such file",
            FileFault::Unread => ": read failed",
            FileFault::TooLong => ": file too long",
        }
    }
}

/// Appends a line's place, as it stands before what is told of it.
fn print_place(out: &mut Vec<u8>, file: &[char], line: usize) -> Result<(), AllocError>
    ensures { OnOk result (out.new.items ≡ out.old.items ++ spec.place_text file.now line) }
{
    push_chars(out, file)?;
    push_bytes(out, b":")?;
    push_number(out, line)?;
    push_bytes(out, b": ")?;
    Ok(())
}
