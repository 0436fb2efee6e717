//! What `edit` does: a text is painted, and a script of edits and of other syntaxes is carried out on it
//! (this profile).
ghost use Rattle.std.specs.Prelude.{◌≡◌, ◌≤◌, ◌+◌, IfSome, Some};
ghost use Rattle.edit_session.specs.Ends.{IfKnown, LongsRise};
ghost use Rattle.program_words.specs.declared.words.Asked.TheVariants.{Edit};
ghost use Rattle.vimsyn_cli.specs.Answers.{Closes};
ghost use Rattle.vimsyn_cli.specs.Changes.{files_between, sink_between, source_between};
ghost use Rattle.vimsyn_cli.specs.EditRun.{edit_start, script_lines};
ghost use Rattle.vimsyn_cli.specs.Runs.{CountsNamed, EditsPainted, IfTold, Runs};
ghost use Rattle.vimsyn_cli.specs.Renewal.{library_of};
ghost use Rattle.vimsyn_cli.specs.Session.{edit_lines};

use crate::Status;
use crate::deliver::{deliver, finish};
use crate::fault::Stop;
use crate::painting::paint;
use crate::sheet::Sheet;
use edit_session::{End, carry_out_script};
use program_words::PageWords;
use state_cache::Painted;
use std::alloc::Global;
use syn_base::{Files, Ledger, Sink, Source, Steps};

/// The line for a script of more bytes than are read of one.
const LONG_SCRIPT: &[u8; 16] = b"script too long\n";

/// The line for a script that can't be read.
const UNREAD_SCRIPT: &[u8; 20] = b"script: read failed\n";

/// Paints the text, and carries out the script on it.
pub(crate) fn run_edit<F: Files, I: Source, O: Sink, E: Sink, L: Ledger>(
    alloc: Global,
    files: &mut F,
    words: &PageWords<'_>,
    script: &mut I,
    out: &mut O,
    err: &mut E,
    steps: &mut Steps<L>,
) -> Status
    ensures runs { Runs (Some (Edit words.now))
        (files_between F.told F.faults F.misses F.longs files.old files.new)
        (source_between I.left I.faults script.old script.new)
        (sink_between O.written O.faults out.old out.new)
        (sink_between E.written E.faults err.old err.new)
        result }
    ensures steps { IfTold (F.told files.old) (I.left script.old) (λ known bytes.
        steps.new ≤ steps.old + edit_lines words.now known bytes) }
    ensures long_named { result ≡ Status.Refused → IfTold (F.told files.old) (I.left script.old)
        (λ known bytes. CountsNamed (Some (Edit words.now)) known bytes
        (files_between F.told F.faults F.misses F.longs files.old files.new)) }
{
    match paint(alloc, files, words.painting(), steps) {
        Ok(painted) => edit_painted(alloc, words, painted, files, script, out, err, steps),
        Err(stop) => deliver(Err(stop), out, err),
    }
}

/// Carries out the script on a painted text.
fn edit_painted<F: Files, I: Source, O: Sink, E: Sink, L: Ledger>(
    alloc: Global,
    words: &PageWords<'_>,
    painted: Painted,
    files: &mut F,
    script: &mut I,
    out: &mut O,
    err: &mut E,
    steps: &mut Steps<L>,
) -> Status
    ensures edits { EditsPainted words.now painted
        (files_between F.told F.faults F.misses F.longs files.old files.new)
        (source_between I.left I.faults script.old script.new)
        (sink_between O.written O.faults out.old out.new)
        (sink_between E.written E.faults err.old err.new)
        result }
    ensures steps { IfKnown (F.told files.old) (λ known. IfSome (I.left script.old) (λ bytes.
        steps.new ≤ steps.old + script_lines words.now known painted bytes)) }
    ensures long_named { result ≡ Status.Refused → IfKnown (F.told files.old) (λ known.
        LongsRise (library_of words.now painted.budget known) (edit_start words.now painted)
        (I.left script.old)
        (files_between F.told F.faults F.misses F.longs files.old files.new)) }
{
    let _syntax = painted.syntax();
    let sheet = Sheet { painted, words };
    let end = carry_out_script(alloc, sheet, files, script, out, steps);
    close(end, err)
}

/// Tells how the script ended, and answers the status.
fn close<E: Sink>(end: End, err: &mut E) -> Status
    ensures { Closes end
        (sink_between E.written E.faults err.old err.new)
        result }
{
    match end {
        End::Done => Status::Done,
        End::Refused => Status::Refused,
        End::TooLong => finish(err, LONG_SCRIPT, Status::Refused),
        End::Unread => finish(err, UNREAD_SCRIPT, Status::ReadFault),
        End::Unfetched(line) => finish(err, line.as_slice(), Status::ReadFault),
        End::Unwritten => Status::WriteFault,
        End::Memory => Status::Memory,
    }
}
