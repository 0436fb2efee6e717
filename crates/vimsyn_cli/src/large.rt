//! What `large` does: a generated text is painted, and drawn edits are carried out on it.
ghost use Rattle.std.specs.Prelude.{◌≡◌, ◌≤◌, ◌+◌, IfOk, OnOk};
ghost use Rattle.program_words.specs.Words.{large_page};
ghost use Rattle.large_session.specs.LargeSession.{number_behind};
ghost use Rattle.vimsyn_cli.specs.Changes.{sink_between};
ghost use Rattle.vimsyn_cli.specs.Large.{large_files, large_lines, large_painting, lines_edited};
ghost use Rattle.vimsyn_cli.specs.LargeRun.{DeliversLarge, IsLarge, RunsLarge};
ghost use Rattle.vimsyn_cli.specs.Editing.{script_status};
ghost use Rattle.vimsyn_cli.specs.Plans.{IsExpected};

use crate::Status;
use crate::deliver::{deliver, finish};
use crate::fault::Stop;
use crate::kept_files::KeptFiles;
use crate::painting::paint;
use crate::sheet::Sheet;
use large_session::{Draws, Outcome, carry_out_edits, generated_bytes, mini_syntax};
use program_words::{LargeWords, PageWords};
use state_cache::Painted;
use std::alloc::Global;
use syn_base::{Ledger, List, Memory, Sink, Steps};

/// Runs the large mode. It reads nothing of the outside.
pub(crate) fn run_large<O: Sink, E: Sink, L: Ledger>(
    alloc: Global,
    words: &LargeWords,
    out: &mut O,
    err: &mut E,
    steps: &mut Steps<L>,
) -> Status
    ensures runs { RunsLarge words.now
        (sink_between O.written O.faults out.old out.new)
        (sink_between E.written E.faults err.old err.new)
        result }
    ensures steps { steps.new ≤ steps.old + large_lines words.now }
{
    let _lines = words.lines();
    let outcome = large(alloc, words, steps);
    deliver_large(outcome, out, err)
}

/// Writes the five lines, or the line of the first painting's refusal.
fn deliver_large<O: Sink, E: Sink>(
    outcome: Result<Outcome, Stop>,
    out: &mut O,
    err: &mut E,
) -> Status
    ensures { DeliversLarge outcome
        (sink_between O.written O.faults out.old out.new)
        (sink_between E.written E.faults err.old err.new)
        result }
{
    match outcome {
        Ok(outcome) => finish(out, outcome.text.as_slice(), status_of(outcome.refused)),
        Err(stop) => deliver(Err(stop), out, err),
    }
}

/// The status of a session of which an edit was refused or none.
fn status_of(refused: bool) -> Status
    ensures { result ≡ script_status refused }
{
    if refused {
        Status::Refused
    } else {
        Status::Done
    }
}

/// What the large mode prints, or why it prints nothing.
fn large<L: Ledger>(
    alloc: Global,
    words: &LargeWords,
    steps: &mut Steps<L>,
) -> Result<Outcome, Stop>
    ensures is { IsLarge words.now result }
    ensures steps { steps.new ≤ steps.old + large_lines words.now }
{
    let mut draws = Draws::new(words.seed());
    let files = own_files(alloc, words, &mut draws)?;
    let page = words.page();
    match paint_own(alloc, words, &page, files, steps) {
        Ok(painted) => edit_painted(alloc, words, &page, painted, &mut draws, steps),
        Err(stop) => Err(stop),
    }
}

/// The files that it reads: the kept syntax, and the generated text.
fn own_files(alloc: Global, words: &LargeWords, draws: &mut Draws) -> Result<KeptFiles, Memory>
    requires { draws.old ≡ words.now.seed }
    ensures files { IfOk result (λ kept. kept.files ≡ large_files words.now) }
    ensures draws { OnOk result (draws.new ≡ number_behind words.now.seed words.now.lines) }
{
    let text = generated_bytes(alloc, draws, words.lines() as usize)?;
    let mut files = List::new(alloc);
    files.push(named(alloc, "mini.vim", mini_syntax().as_bytes())?)?;
    files.push((List::from_slice(alloc, b"large")?, text))?;
    Ok(KeptFiles::new(alloc, files))
}

/// A file with its name.
fn named(alloc: Global, name: &str, bytes: &[u8]) -> Result<(List<u8>, List<u8>), Memory>
    ensures { IfOk result (λ file. file ≡ (name.now, bytes.now)) }
{
    Ok((
        List::from_slice(alloc, name.as_bytes())?,
        List::from_slice(alloc, bytes)?,
    ))
}

/// The painting of the generated text by the kept syntax.
fn paint_own<L: Ledger>(
    alloc: Global,
    words: &LargeWords,
    page: &PageWords<'_>,
    files: KeptFiles,
    steps: &mut Steps<L>,
) -> Result<Painted, Stop>
    requires page { page.now ≡ large_page words.now }
    requires files { files.files ≡ large_files words.now }
    ensures planned { IsExpected (large_painting words.now) (λ line. ⊥) result }
    ensures steps { steps.new ≤ steps.old + words.now.lines }
{
    let _lines = words.lines();
    let mut files = files;
    paint(alloc, &mut files, page.painting(), steps)
}

/// Carries out the drawn edits on the painted text.
fn edit_painted<L: Ledger>(
    alloc: Global,
    words: &LargeWords,
    page: &PageWords<'_>,
    painted: Painted,
    draws: &mut Draws,
    steps: &mut Steps<L>,
) -> Result<Outcome, Stop>
    requires page { page.now ≡ large_page words.now }
    requires painted { large_painting words.now ≡ Ok painted }
    requires draws { draws.old ≡ number_behind words.now.seed words.now.lines }
    ensures is { IsLarge words.now result }
    ensures steps { steps.new ≤ steps.old + lines_edited words.now (Ok painted) }
{
    let lines = words.lines() as usize;
    let sheet = Sheet {
        painted,
        words: page,
    };
    Ok(carry_out_edits(alloc, sheet, draws, lines, steps)?)
}
