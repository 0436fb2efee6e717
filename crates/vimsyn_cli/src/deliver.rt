//! What a command prints, or the line of a fault, as it is written.
ghost use Rattle.vimsyn_cli.specs.Answers.{Delivers, Writes};
ghost use Rattle.vimsyn_cli.specs.Changes.{sink_between};

use crate::Status;
use crate::fault::Stop;
use syn_base::{List, Sink, put_all};

/// Writes what was asked to `out`, or the line of a fault to `err`.
pub(crate) fn deliver<O: Sink, E: Sink>(
    answer: Result<List<u8>, Stop>,
    out: &mut O,
    err: &mut E,
) -> Status
    ensures { Delivers answer
        (sink_between O.written O.faults out.old out.new)
        (sink_between E.written E.faults err.old err.new)
        result }
{
    match answer {
        Ok(bytes) => finish(out, bytes.as_slice(), Status::Done),
        Err(Stop::Fault(fault)) => finish(err, fault.line.as_slice(), fault.cause.status()),
        Err(Stop::Memory) => Status::Memory,
    }
}

/// Writes the bytes, and answers the status, or that a write failed.
pub(crate) fn finish<S: Sink>(sink: &mut S, bytes: &[u8], status: Status) -> Status
    ensures { Writes (sink_between S.written S.faults sink.old sink.new) bytes.now status result }
{
    if put_all(sink, bytes) {
        status
    } else {
        Status::WriteFault
    }
}
