//! What is wrong with a file that the words name, and the line that tells it.
ghost use Rattle.std.specs.Prelude.{◌≡◌, ◌++◌, codes, decimal, IfOk, OnOk};
ghost use Rattle.vimsyn_cli.specs.Report.{cause_of, fault_of, fault_text};

use crate::fault::{Fault, FaultKind};
use byte_text::{push_bytes, push_number};
use std::alloc::{AllocError, Global};
use syn_base::List;

/// What is wrong with a file. Lines are counted from 1.
#[derive(Clone, Copy, Debug, PartialEq, Eq)]
pub(crate) enum NamedFault {
    Missing,
    Unread,
    TooLong,
    BadUtf8 { number: usize },
    LineTooLong { number: usize },
    TooManyLines,
}

impl NamedFault {
    /// The fault of the file of this name.
    pub(crate) fn told(self, alloc: Global, name: &str) -> Result<Fault, AllocError>
        ensures { IfOk result (λ fault. fault ≡ fault_of name.now self) }
    {
        let mut line = Vec::from_slice(alloc, name.as_bytes())?;
        print_fault(&mut line, self)?;
        Ok(Fault {
            line: List::from_vec(line),
            cause: self.cause(),
        })
    }

    fn cause(self) -> FaultKind
        ensures { result ≡ cause_of self }
    {
        match self {
            NamedFault::Missing => FaultKind::Missing,
            NamedFault::Unread => FaultKind::Unread,
            NamedFault::TooLong => FaultKind::TooLong,
            _ => FaultKind::Content,
        }
    }
}

/// Appends what is told of the fault.
fn print_fault(line: &mut Vec<u8>, fault: NamedFault) -> Result<(), AllocError>
    ensures { OnOk result (line.new.items ≡ line.old.items ++ fault_text fault) }
{
    match fault {
        NamedFault::Missing => push_bytes(line, b": no such file\n"),
        NamedFault::Unread => push_bytes(line, b": read failed\n"),
        NamedFault::TooLong => push_bytes(line, b": file too long\n"),
        NamedFault::BadUtf8 { number } => print_place(line, number, b": bad utf-8\n"),
        NamedFault::LineTooLong { number } => print_place(line, number, b": line too long\n"),
        NamedFault::TooManyLines => push_bytes(line, b": too many lines\n"),
    }
}

/// Appends the number of a line of the file, and what is wrong with it.
fn print_place(line: &mut Vec<u8>, number: usize, text: &[u8]) -> Result<(), AllocError>
    ensures { OnOk result (line.new.items ≡ line.old.items ++ codes ":" ++ decimal number
        ++ text.now) }
{
    push_bytes(line, b":")?;
    push_number(line, number)?;
    push_bytes(line, text)?;
    Ok(())
}
