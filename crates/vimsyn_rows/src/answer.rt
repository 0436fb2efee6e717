//! What a session gives, in the spelling in which it is compared.

use crate::mistake::{Unread, out_of_memory};
use crate::running::{Outcome, outcome_of};
use crate::session::Session;
use crate::text::push_text;
use row_tally::{Place, Tally};
use std::alloc::Global;
use std::io;
use std::io::Write;
use vimsyn_cli::Status;

/// Runs a session as often as it asks for, and counts its runs, or its mistake. What differs from
/// the session's own answers is told, with the remark above it. A session without a line counts for
/// nothing.
pub(crate) fn check_session<W: Write>(
    alloc: Global,
    out: &mut W,
    tally: &mut Tally,
    session: &Session,
    remark: &[u8],
) -> io::Result<()> {
    if !session.is_begun {
        return Ok(());
    }
    let calls = session.each.as_slice();
    // A session without numbers has one run, and so has one with a mistake, which is its answer.
    let runs = if session.mistake.is_some() || calls.is_empty() {
        1
    } else {
        calls.len()
    };
    for run in 0..runs {
        let came = answer_of(alloc, session, calls.get(run).copied())?;
        check_answer(out, tally, session, run, remark, Some(came.as_slice()))?;
    }
    for run in runs..session.told.as_slice().len() {
        check_answer(out, tally, session, run, remark, None)?;
    }
    Ok(())
}

/// Counts the run of this number, from 0. What came is `None` where there is no such run.
fn check_answer<W: Write>(
    out: &mut W,
    tally: &mut Tally,
    session: &Session,
    run: usize,
    remark: &[u8],
    came: Option<&[u8]>,
) -> io::Result<()> {
    match session.told.as_slice().get(run) {
        Some(told) => {
            let line = told.line;
            tally.take(
                out,
                Place { line, remark },
                Some(told.answer.as_slice()),
                came,
            )
        }
        None => {
            let line = session.last_line();
            tally.take(out, Place { line, remark }, None, came)
        }
    }
}

/// The answer that a text spells. Of each part the escapes are read, and those of the one spelling
/// are written.
pub(crate) fn respelled(alloc: Global, text: &[u8]) -> Result<Vec<u8>, Unread> {
    let mut answer = Vec::new(alloc);
    let mut bytes = Vec::new(alloc);
    for part in text.split(|byte: &u8| *byte == b'\t') {
        bytes.clear();
        push_text(alloc, &mut bytes, part)?;
        if !answer.is_empty() {
            answer.push(b'\t')?;
        }
        let escaped = bytes.as_slice().escape_ascii();
        write!(answer, "{escaped}")?;
    }
    Ok(answer)
}

/// The answer that a run gives, or the first mistake of the session.
fn answer_of(alloc: Global, session: &Session, call: Option<u64>) -> io::Result<Vec<u8>> {
    let mut answer = Vec::new(alloc);
    if let Some((line, mistake)) = session.mistake {
        write!(answer, "mistake in line {line}: {mistake}")?;
        return Ok(answer);
    }
    let Ok(outcome) = outcome_of(alloc, session, call) else {
        return Err(out_of_memory());
    };
    write_outcome(&mut answer, &outcome)?;
    if session.counts_steps {
        let steps = outcome.steps;
        write!(answer, "\tsteps={steps}")?;
    }
    Ok(answer)
}

/// Writes a status, and what the sinks got if they got anything.
fn write_outcome(answer: &mut Vec<u8>, outcome: &Outcome) -> io::Result<()> {
    let word = word_of(outcome.status);
    let number = outcome.status.code();
    write!(answer, "{word} {number}")?;
    write_part(answer, "out", outcome.sinks.out.bytes())?;
    write_part(answer, "err", outcome.sinks.err.bytes())
}

/// Writes what a sink got, unless that is nothing.
fn write_part(answer: &mut Vec<u8>, name: &str, bytes: &[u8]) -> io::Result<()> {
    if bytes.is_empty() {
        return Ok(());
    }
    let escaped = bytes.escape_ascii();
    write!(answer, "\t{name}={escaped}")
}

fn word_of(status: Status) -> &'static str {
    match status {
        Status::Done => "done",
        Status::Refused => "refused",
        Status::Usage => "usage",
        Status::ReadFault => "read-fault",
        Status::WriteFault => "write-fault",
        Status::Memory => "memory",
    }
}
