//! The program `vimsyn`: it makes the machine's files and standard streams, and runs.
#![tactic(auto)]

ghost use Rattle.std.specs.Prelude.{◌≡◌, ◌<◌};

mod arguments;

use arguments::read_words;
use std::marker::Brand;
use std::process::ExitCode;
use std::sync::ledger;
use std::sync::ledger::Blank;
use syn_base::{HostFiles, NoLedger, StdSink, StdSource, Steps};
use vimsyn_cli::{Status, run};

fn main(rt: HostRuntime) -> ExitCode {
    ExitCode::from(status::<Brand>(rt, Blank::new(1)).code())
}

/// Runs the program over the machine. The blank is what nothing is counted with.
fn status<B: ledger::Ledger>(rt: HostRuntime, blank: Blank) -> Status
    requires name { blank.name ≡ B.name }
    requires parts { blank.parts ≡ B.parts }
    requires some { 0 < blank.parts }
{
    let Ok(words) = read_words(rt.alloc(), &rt) else {
        return Status::Memory;
    };
    let mut files = HostFiles::new(rt);
    let mut script = StdSource::new(rt.stdin());
    let mut out = StdSink::new(rt.stdout());
    let mut err = StdSink::new(rt.stderr());
    let mut steps = Steps::new(NoLedger::<B>::open(blank));
    run(
        rt.alloc(),
        words.as_slice(),
        &mut files,
        &mut script,
        &mut out,
        &mut err,
        &mut steps,
    )
}
