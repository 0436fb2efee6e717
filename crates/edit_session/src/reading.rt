//! A script from its source: each command is carried out as soon as its last byte was read.
ghost use Rattle.std.specs.Prelude.{◌≡◌, ◌+◌, ◌≤◌, length, IfSome};
ghost use Rattle.syn_base.specs.Outside.{AppendsPrefix};
ghost use Rattle.edit_session.specs.Ends.{CountsLongs, EndsSo, HasCause, IfKnown, TakesFew, files_between, sink_between, source_between};
ghost use Rattle.edit_session.specs.Session.{script_costs, script_session, start};
ghost use Rattle.edit_session.specs.Steps.{EndsReading, MeetsAsTold, StaysWithin, TakesScript, end_of, standing, steps_change};

use crate::commands::{Commands, Harm};
use crate::document::Document;
use crate::pieces::{PIECE, finish, read_pieces};
use crate::script_bytes::reach_end;
use edit_script::Script;
use std::alloc::{AllocError, Global};
use syn_base::{Files, Ledger, List, Memory, Sink, Source, Steps};

/// How a session ends.
#[derive(Drop)]
pub enum End {
    /// The script was read to its end, and no command was refused.
    Done,
    /// The script was read to its end, and some command was refused.
    Refused,
    /// The script is longer than is read of one.
    TooLong,
    /// A read of the script failed.
    Unread,
    /// A file couldn't be read that a command asked for, which these bytes tell, a line with its end.
    Unfetched(List<u8>),
    /// A write failed.
    Unwritten,
    Memory,
}

impl From<Memory> for End {
    ghost use Rattle.edit_session.specs.declared.reading.End.TheVariants as end;

    ghost from_gives = { λ _ e. e ≡ end.Memory };

    fn from(_: Memory) -> End {
        End::Memory
    }
}

impl From<AllocError> for End {
    ghost use Rattle.edit_session.specs.declared.reading.End.TheVariants as end;

    ghost from_gives = { λ _ e. e ≡ end.Memory };

    fn from(_: AllocError) -> End {
        End::Memory
    }
}

/// Reads a script from its source, and carries out each of its commands on the document as soon
/// as its last byte was read. What a command prints is written before the next one is read.
pub fn carry_out_script<D: Document + Drop, F: Files, I: Source, O: Sink, L: Ledger>(
    alloc: Global,
    document: D,
    files: &mut F,
    script: &mut I,
    out: &mut O,
    steps: &mut Steps<L>,
) -> End
    ensures kept { F.told files.new ≡ F.told files.old }
    ensures ends { IfKnown (F.told files.old) (λ known. EndsSo (D.library document known)
        (start (D.painter document)
        (record { text = D.lines document; spans = D.shown document }))
        (source_between I.left I.faults script.old script.new)
        (sink_between O.written O.faults out.old out.new) result) }
    ensures part { IfKnown (F.told files.old) (λ known. IfSome (I.left script.old) (λ bytes.
        AppendsPrefix (O.written out.old) (O.written out.new)
        (script_session (D.library document known)
        (start (D.painter document)
        (record { text = D.lines document; spans = D.shown document })) bytes).text)) }
    ensures steps { IfKnown (F.told files.old) (λ known. IfSome (I.left script.old) (λ bytes.
        steps.new ≤ steps.old + script_costs (D.library document known)
        (start (D.painter document)
        (record { text = D.lines document; spans = D.shown document })) bytes)) }
    ensures causes { HasCause
        (source_between I.left I.faults script.old script.new)
        (sink_between O.written O.faults out.old out.new)
        (files_between F.told F.faults F.misses F.longs files.old files.new) result }
    ensures longs { IfKnown (F.told files.old) (λ known. CountsLongs (D.library document known)
        (start (D.painter document)
        (record { text = D.lines document; spans = D.shown document })) (I.left script.old)
        (files_between F.told F.faults F.misses F.longs files.old files.new) result) }
    ensures taken { TakesFew
        (source_between I.left I.faults script.old script.new) }
{
    let mut commands = Commands {
        document,
        number: 0,
        harm: Harm {
            refused: false,
            met_long: false,
        },
    };
    match read_script(alloc, &mut commands, files, script, out, steps) {
        Ok(()) => end_of(commands.harm.refused),
        Err(end) => end,
    }
}

/// The end of a session whose script was read whole.
fn end_of(refused: bool) -> End
    ensures { result ≡ end_of refused }
{
    if refused { End::Refused } else { End::Done }
}

/// Reads a script, and carries out its commands.
fn read_script<D: Document + Drop, F: Files, I: Source, O: Sink, L: Ledger>(
    alloc: Global,
    commands: &mut Commands<D>,
    files: &mut F,
    script: &mut I,
    out: &mut O,
    steps: &mut Steps<L>,
) -> Result<(), End>
    ensures kept { F.told files.new ≡ F.told files.old }
    ensures ends { IfKnown (F.told files.old) (λ known. EndsReading (D.library commands.old.document known)
        (standing D.lines D.shown D.painter commands.old) commands.new.harm.refused
        (source_between I.left I.faults script.old script.new)
        (sink_between O.written O.faults out.old out.new) result) }
    ensures within { IfKnown (F.told files.old) (λ known. StaysWithin (D.library commands.old.document known)
        (standing D.lines D.shown D.painter commands.old)
        (source_between I.left I.faults script.old script.new)
        (sink_between O.written O.faults out.old out.new) (steps_change steps.old steps.new)) }
    ensures causes { TakesScript commands.old.harm commands.new.harm
        (source_between I.left I.faults script.old script.new)
        (files_between F.told F.faults F.misses F.longs files.old files.new)
        (sink_between O.written O.faults out.old out.new) result }
    ensures longs { IfKnown (F.told files.old) (λ known. MeetsAsTold (D.library commands.old.document known)
        (standing D.lines D.shown D.painter commands.old) (I.left script.old)
        commands.new.harm.met_long result) }
    ensures taken { TakesFew
        (source_between I.left I.faults script.old script.new) }
{
    let mut buffer = vec![in alloc; 0u8; PIECE]?;
    let mut kept = Script::new(alloc);
    match read_pieces(
        alloc,
        commands,
        &mut kept,
        buffer.as_mut_slice(),
        files,
        script,
        out,
        steps,
    ) {
        Err(end) => Err(end),
        Ok(ended) => match reach_end(ended, script) {
            Err(end) => Err(end),
            Ok(()) => finish(alloc, commands, kept, files, out, steps),
        },
    }
}
