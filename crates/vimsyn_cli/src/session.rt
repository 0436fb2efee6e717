//! The run of the program: its words, then the command that they ask for.
//!
//! What a command prints at once is made whole before anything is written. So such a run writes
//! either that on `out` or one line on `err`. A session of edits writes what each of its commands
//! prints before the next one is read.
ghost use Rattle.std.specs.Prelude.{◌≡◌, ◌≢◌, ◌≤◌, ◌+◌, None, Some, IfSome};
ghost use Rattle.program_words.specs.declared.words.Asked.TheVariants.{Print};
ghost use Rattle.program_words.specs.Words.{asked_of, texts_of};
ghost use Rattle.syn_base.specs.Causes.{Rose};
ghost use Rattle.vimsyn_cli.specs.Answers.{GivesSession};
ghost use Rattle.vimsyn_cli.specs.Changes.{files_between, sink_between, source_between};
ghost use Rattle.vimsyn_cli.specs.LargeRun.{RunsIfLarge};
ghost use Rattle.vimsyn_cli.specs.Runs.{CountsNamed, IfTold, PaintsFew, Runs};
ghost use Rattle.vimsyn_cli.specs.Session.{print_lines, script_read, session};

use crate::Status;
use crate::deliver::{deliver, finish};
use crate::edit::run_edit;
use crate::large::run_large;
use crate::print::print;
use program_words::{Asked, Printing};
use std::alloc::Global;
use syn_base::{Files, Ledger, Sink, Source, Steps};

/// The line for words that aren't in the table.
const USAGE: &[u8; 64] = b"usage: vimsyn check|spans|html|edit|large|folds [options] names\n";

/// Runs the program on its words, which are those behind its name.
///
/// Where the files and the script tell their bytes, what is written and the status are those of
/// the session, a definition that reads the whole syntax and paints the whole text anew, for
/// `edit` at each command that changes the text and for `large` at each edit. A read fault comes only where a file or the
/// script couldn't be read or a file is absent, a write fault only where a write failed. Want of
/// memory may be answered wherever the words are in the table. `edit` alone takes from `script`,
/// of which it reads at most 64 MiB. `large` reads no file: its syntax and its text are its own.
pub fn run<F: Files, I: Source, O: Sink, E: Sink, L: Ledger>(
    alloc: Global,
    words: &[String],
    files: &mut F,
    script: &mut I,
    out: &mut O,
    err: &mut E,
    steps: &mut Steps<L>,
) -> Status
    // The rules run anew: where what is read is told and nothing fails, all is as in the session.
    ensures session { IfTold (F.told files.old)
        (script_read (asked_of (texts_of words.now)) (I.left script.old))
        (λ known bytes.
        ¬ Rose (F.faults files.old) (F.faults files.new)
        → ¬ Rose (I.faults script.old) (I.faults script.new)
        → ¬ Rose (O.faults out.old) (O.faults out.new)
        → ¬ Rose (E.faults err.old) (E.faults err.new) → result ≢ Status.Memory
        → GivesSession (session (texts_of words.now) known bytes)
        (O.written out.old) (O.written out.new) (E.written err.old) (E.written err.new) result) }

    // This, and what holds whatever is told: what the sinks got in any case, each answer with its
    // cause, what stays as it was, and what is taken of the script.
    ensures runs { Runs (asked_of (texts_of words.now))
        (files_between F.told F.faults F.misses F.longs files.old files.new)
        (source_between I.left I.faults script.old script.new)
        (sink_between O.written O.faults out.old out.new)
        (sink_between E.written E.faults err.old err.new)
        result }

    // It is refused for a file that is too long, which a command of the script names, only where
    // their count rose.
    ensures long_named { result ≡ Status.Refused → IfTold (F.told files.old)
        (script_read (asked_of (texts_of words.now)) (I.left script.old))
        (λ known bytes. CountsNamed (asked_of (texts_of words.now)) known bytes
        (files_between F.told F.faults F.misses F.longs files.old files.new)) }

    // Of the large mode all this holds whatever the files and the script tell.
    ensures large { RunsIfLarge (asked_of (texts_of words.now))
        (sink_between O.written O.faults out.old out.new)
        (sink_between E.written E.faults err.old err.new) result }

    // Lines that are painted: at most those of the text, and none for words that name no text. For
    // a session of edits, and for the large mode, besides at each edit that fits the text those that
    // its painting costs, and at each syntax that is accepted those of the text as it is then.
    ensures steps { IfTold (F.told files.old)
        (script_read (asked_of (texts_of words.now)) (I.left script.old))
        (λ known bytes. PaintsFew (asked_of (texts_of words.now)) known bytes
        steps.old steps.new) }
    ensures steps_kept { asked_of (texts_of words.now) ≡ None → steps.new ≡ steps.old }
{
    let asked = Asked::read(words);
    run_asked(alloc, asked, files, script, out, err, steps)
}

/// Runs what the words ask.
fn run_asked<F: Files, I: Source, O: Sink, E: Sink, L: Ledger>(
    alloc: Global,
    asked: Option<Asked<'_>>,
    files: &mut F,
    script: &mut I,
    out: &mut O,
    err: &mut E,
    steps: &mut Steps<L>,
) -> Status
    ensures steps { IfTold (F.told files.old) (script_read asked.entry (I.left script.old))
        (λ known bytes. PaintsFew asked.entry known bytes steps.old steps.new) }
    ensures steps_kept { asked.entry ≡ None → steps.new ≡ steps.old }
    ensures long_named { result ≡ Status.Refused
        → IfTold (F.told files.old) (script_read asked.entry (I.left script.old))
        (λ known bytes. CountsNamed asked.entry known bytes
        (files_between F.told F.faults F.misses F.longs files.old files.new)) }
    ensures large { RunsIfLarge asked.entry
        (sink_between O.written O.faults out.old out.new)
        (sink_between E.written E.faults err.old err.new) result }
    ensures runs { Runs asked.entry
        (files_between F.told F.faults F.misses F.longs files.old files.new)
        (source_between I.left I.faults script.old script.new)
        (sink_between O.written O.faults out.old out.new)
        (sink_between E.written E.faults err.old err.new)
        result }
{
    match asked {
        None => finish(err, USAGE, Status::Usage),
        Some(Asked::Print(printing)) => run_print(alloc, files, script, &printing, out, err, steps),
        Some(Asked::Edit(words)) => run_edit(alloc, files, &words, script, out, err, steps),
        Some(Asked::Large(words)) => run_large(alloc, &words, out, err, steps),
    }
}

/// Prints what is asked at once.
fn run_print<F: Files, I: Source, O: Sink, E: Sink, L: Ledger>(
    alloc: Global,
    files: &mut F,
    script: &mut I,
    printing: &Printing<'_>,
    out: &mut O,
    err: &mut E,
    steps: &mut Steps<L>,
) -> Status
    ensures runs { Runs (Some (Print printing.now))
        (files_between F.told F.faults F.misses F.longs files.old files.new)
        (source_between I.left I.faults script.old script.new)
        (sink_between O.written O.faults out.old out.new)
        (sink_between E.written E.faults err.old err.new)
        result }
    ensures steps { IfSome (F.told files.old) (λ known.
        steps.new ≤ steps.old + print_lines printing.now known) }
{
    let answer = print(alloc, files, printing, steps);
    deliver(answer, out, err)
}
