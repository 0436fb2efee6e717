//! A run of a session over the forms in memory.

ghost use Rattle.std.specs.Prelude.{◌≡◌, ◌<◌};

use crate::behaviour::Behaviour;
use crate::count::LineCount;
use crate::session::{NamedFile, Session};
use std::alloc::Global;
use std::marker::Brand;
use std::sync::ledger;
use std::sync::ledger::Blank;
use syn_base::{List, Memory, MemoryFiles, MemorySink, MemorySource, Steps};
use vimsyn_cli::{Status, run};

/// What a run reads.
#[derive(Drop)]
struct Inputs {
    files: MemoryFiles,
    script: MemorySource,
}

/// Where a run writes.
#[derive(Drop)]
pub(crate) struct Sinks {
    pub(crate) out: MemorySink,
    pub(crate) err: MemorySink,
}

/// What a run came to.
#[derive(Drop)]
pub(crate) struct Outcome {
    pub(crate) sinks: Sinks,
    pub(crate) status: Status,
    /// How many lines were painted.
    pub(crate) steps: u64,
}

/// Runs the session once. Where a behaviour says so, the call of this number fails, if there is one.
pub(crate) fn outcome_of(
    alloc: Global,
    session: &Session,
    call: Option<u64>,
) -> Result<Outcome, Memory> {
    let mut sinks = sinks_of(alloc, session, call)?;
    let mut inputs = inputs_of(alloc, session, call)?;
    let words = session.words.as_slice();
    let blank = Blank::new(1);
    let mut steps = 0;
    let status = status_of::<Brand>(alloc, words, &mut inputs, &mut sinks, blank, &mut steps);
    Ok(Outcome {
        sinks,
        status,
        steps,
    })
}

/// The run itself. Each line that it paints is counted.
fn status_of<B: ledger::Ledger>(
    alloc: Global,
    words: &[String],
    inputs: &mut Inputs,
    sinks: &mut Sinks,
    blank: Blank,
    count: &mut u64,
) -> Status
    requires name { blank.name ≡ B.name }
    requires parts { blank.parts ≡ B.parts }
    requires some { 0 < blank.parts }
{
    let mut steps = Steps::new(LineCount::<B>::open(blank, count));
    run(
        alloc,
        words,
        &mut inputs.files,
        &mut inputs.script,
        &mut sinks.out,
        &mut sinks.err,
        &mut steps,
    )
}

fn sinks_of(alloc: Global, session: &Session, call: Option<u64>) -> Result<Sinks, Memory> {
    let out = sink_of(alloc, &session.out, call)?;
    let err = sink_of(alloc, &session.err, call)?;
    Ok(Sinks { out, err })
}

fn sink_of(alloc: Global, behaviour: &Behaviour, call: Option<u64>) -> Result<MemorySink, Memory> {
    let failing = failing_of(alloc, behaviour, call)?;
    MemorySink::new(alloc, behaviour.room, behaviour.most, failing)
}

fn inputs_of(alloc: Global, session: &Session, call: Option<u64>) -> Result<Inputs, Memory> {
    let files = files_of(alloc, session, call)?;
    let script = script_of(alloc, session, call)?;
    Ok(Inputs { files, script })
}

fn script_of(alloc: Global, session: &Session, call: Option<u64>) -> Result<MemorySource, Memory> {
    let bytes = List::from_slice(alloc, session.text.as_slice())?;
    let failing = failing_of(alloc, &session.script, call)?;
    Ok(MemorySource::new(bytes, session.script.most, failing))
}

fn files_of(alloc: Global, session: &Session, call: Option<u64>) -> Result<MemoryFiles, Memory> {
    let mut files = List::new(alloc);
    for file in session.named.as_slice() {
        files.push(copy_of(alloc, file)?)?;
    }
    let failing = failing_of(alloc, &session.files, call)?;
    Ok(MemoryFiles::new(files, failing))
}

fn copy_of(alloc: Global, file: &NamedFile) -> Result<(List<u8>, List<u8>), Memory> {
    let name = List::from_slice(alloc, file.name.as_slice())?;
    let bytes = List::from_slice(alloc, file.bytes.as_slice())?;
    Ok((name, bytes))
}

/// The numbers of the calls that fail, in a run that has this number, if one has.
fn failing_of(
    alloc: Global,
    behaviour: &Behaviour,
    call: Option<u64>,
) -> Result<List<u64>, Memory> {
    let mut failing = List::from_slice(alloc, behaviour.failing.as_slice())?;
    if let Some(call) = call {
        if behaviour.fails_each {
            failing.push(call)?;
        }
    }
    Ok(failing)
}
