//! The pieces of a script, and the commands whose last line is whole with each of them.
ghost use Rattle.std.specs.Prelude.{◌≡◌, ◌+◌, ◌<◌, ◌≤◌, ◌++◌, [], length, OnOk};
ghost use Rattle.edit_script.specs.Entries.{entries_at_end, entries_of, kept_of};
ghost use Rattle.edit_session.specs.Ends.{IfKnown, files_between, sink_between, source_between};
ghost use Rattle.edit_session.specs.Session.{session, session_costs};
ghost use Rattle.edit_session.specs.Steps.{Answers, AreCaused, ReadsPiece, ReadsPieces, TakesPiece, TakesPieces, standing, steps_change};

use crate::commands::Commands;
use crate::document::Document;
use crate::reading::End;
use crate::script_bytes::take_bytes;
use edit_script::Script;
use std::alloc::Global;
use syn_base::{Files, Ledger, Sink, Source, Steps};

/// The most bytes of a script: 64 MiB.
const MOST_BYTES: usize = 67_108_864;

/// The most bytes that are taken at a time.
pub(crate) const PIECE: usize = 65_536;

/// Reads pieces of a script up to its end, which it says by true, or up to the most bytes.
pub(crate) fn read_pieces<D: Document + Drop, F: Files, I: Source, O: Sink, L: Ledger>(
    alloc: Global,
    commands: &mut Commands<D>,
    kept: &mut Script,
    buffer: &mut [u8],
    files: &mut F,
    script: &mut I,
    out: &mut O,
    steps: &mut Steps<L>,
) -> Result<bool, End>
    requires buffer { length buffer.old ≡ 65536 }
    requires fresh { kept.old ≡ record { lines = 0; bytes = [] } }
    ensures kept { F.told files.new ≡ F.told files.old }
    ensures library { D.library commands.new.document ≡ D.library commands.old.document }
    ensures read { IfKnown (F.told files.old) (λ known. ReadsPieces (D.library commands.old.document known)
        (standing D.lines D.shown D.painter commands.old) (standing D.lines D.shown D.painter commands.new) kept.new
        (source_between I.left I.faults script.old script.new)
        (sink_between O.written O.faults out.old out.new) (steps_change steps.old steps.new) result) }
    ensures causes { TakesPieces commands.old.harm commands.new.harm
        (source_between I.left I.faults script.old script.new)
        (files_between F.told F.faults F.misses F.longs files.old files.new)
        (sink_between O.written O.faults out.old out.new) result }
{
    let mut taken = 0;
    while taken < MOST_BYTES {
        let room = PIECE.min(MOST_BYTES - taken);
        let count = read_piece(
            alloc,
            commands,
            kept,
            &mut buffer[..room],
            files,
            script,
            out,
            steps,
        )?;
        if count == 0 {
            return Ok(true);
        }
        taken += count;
    }
    Ok(false)
}

/// Reads a piece, and carries out the commands whose last line is whole with it. It answers how
/// many bytes there were, none at the end.
fn read_piece<D: Document + Drop, F: Files, I: Source, O: Sink, L: Ledger>(
    alloc: Global,
    commands: &mut Commands<D>,
    kept: &mut Script,
    buffer: &mut [u8],
    files: &mut F,
    script: &mut I,
    out: &mut O,
    steps: &mut Steps<L>,
) -> Result<usize, End>
    requires { 0 < length buffer.old }
    ensures kept { F.told files.new ≡ F.told files.old }
    ensures library { D.library commands.new.document ≡ D.library commands.old.document }
    ensures piece { IfKnown (F.told files.old) (λ known. ReadsPiece (D.library commands.old.document known)
        (standing D.lines D.shown D.painter commands.old) (standing D.lines D.shown D.painter commands.new) kept.old kept.new
        (length buffer.old)
        (source_between I.left I.faults script.old script.new)
        (sink_between O.written O.faults out.old out.new) (steps_change steps.old steps.new) result) }
    ensures causes { TakesPiece (length buffer.old) commands.old.harm commands.new.harm
        (source_between I.left I.faults script.old script.new)
        (files_between F.told F.faults F.misses F.longs files.old files.new)
        (sink_between O.written O.faults out.old out.new) result }
{
    match take_bytes(script, buffer) {
        Err(end) => Err(end),
        Ok(count) => match feed(alloc, commands, kept, &buffer[..count], files, out, steps) {
            Err(end) => Err(end),
            Ok(()) => Ok(count),
        },
    }
}

/// Carries out the commands whose last line is whole with this piece.
fn feed<D: Document + Drop, F: Files, O: Sink, L: Ledger>(
    alloc: Global,
    commands: &mut Commands<D>,
    kept: &mut Script,
    piece: &[u8],
    files: &mut F,
    out: &mut O,
    steps: &mut Steps<L>,
) -> Result<(), End>
    ensures kept { F.told files.new ≡ F.told files.old }
    ensures library { D.library commands.new.document ≡ D.library commands.old.document }
    ensures fed { OnOk result (kept.new ≡ kept_of kept.old.lines (kept.old.bytes ++ piece.now)) }
    ensures answers { IfKnown (F.told files.old) (λ known. Answers (D.library commands.old.document known)
        (session (D.library commands.old.document known) (standing D.lines D.shown D.painter commands.old)
        (entries_of kept.old.lines (kept.old.bytes ++ piece.now)))
        (standing D.lines D.shown D.painter commands.new)
        (sink_between O.written O.faults out.old out.new) result) }
    ensures steps { IfKnown (F.told files.old) (λ known. steps.new ≤ steps.old
        + session_costs (D.library commands.old.document known) (standing D.lines D.shown D.painter commands.old)
        (entries_of kept.old.lines (kept.old.bytes ++ piece.now))) }
    ensures causes { AreCaused commands.old.harm commands.new.harm
        (files_between F.told F.faults F.misses F.longs files.old files.new)
        (sink_between O.written O.faults out.old out.new) result }
{
    let entries = kept.feed(piece)?;
    commands.answer_all(alloc, entries, files, out, steps)
}

/// Carries out the commands that are left at the end of a script.
pub(crate) fn finish<D: Document + Drop, F: Files, O: Sink, L: Ledger>(
    alloc: Global,
    commands: &mut Commands<D>,
    kept: Script,
    files: &mut F,
    out: &mut O,
    steps: &mut Steps<L>,
) -> Result<(), End>
    ensures kept { F.told files.new ≡ F.told files.old }
    ensures library { D.library commands.new.document ≡ D.library commands.old.document }
    ensures answers { IfKnown (F.told files.old) (λ known. Answers (D.library commands.old.document known)
        (session (D.library commands.old.document known) (standing D.lines D.shown D.painter commands.old)
        (entries_at_end kept.lines kept.bytes))
        (standing D.lines D.shown D.painter commands.new)
        (sink_between O.written O.faults out.old out.new) result) }
    ensures steps { IfKnown (F.told files.old) (λ known. steps.new ≤ steps.old
        + session_costs (D.library commands.old.document known) (standing D.lines D.shown D.painter commands.old)
        (entries_at_end kept.lines kept.bytes)) }
    ensures causes { AreCaused commands.old.harm commands.new.harm
        (files_between F.told F.faults F.misses F.longs files.old files.new)
        (sink_between O.written O.faults out.old out.new) result }
{
    let entries = kept.finish()?;
    commands.answer_all(alloc, entries, files, out, steps)
}
