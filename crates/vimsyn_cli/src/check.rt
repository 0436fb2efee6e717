//! What `check` prints: how much a syntax file defines (this profile).
ghost use Rattle.std.specs.Prelude.{◌≡◌, IfOk};
ghost use Rattle.vimsyn_cli.specs.Changes.{files_between};
ghost use Rattle.vimsyn_cli.specs.Check.{check_told, syntax_counts};
ghost use Rattle.vimsyn_cli.specs.Reading.{IsReadFault, IsUnreadAsked};
ghost use Rattle.vimsyn_cli.specs.Reads.{Reads};

use crate::fault::Stop;
use crate::reading::read;
use cause_print::counts_text;
use program_words::CheckWords;
use std::alloc::Global;
use std::mem::forget;
use syn_base::{Files, List, Memory};
use syn_reader::Syntax;

/// The counts of the syntax that the file and those that it asks for define.
pub(crate) fn check<F: Files>(
    alloc: Global,
    files: &mut F,
    words: &CheckWords<'_>,
) -> Result<List<u8>, Stop>
    ensures { Reads (check_told words.now) (IsUnreadAsked words.now) IsReadFault
        (files_between F.told F.faults F.misses F.longs files.old files.new) result }
{
    let syntax = read(alloc, files, words)?;
    Ok(print_counts(alloc, syntax)?)
}

/// The counts of a syntax, which isn't needed behind them. The program ends then, and so it isn't taken apart.
fn print_counts(alloc: Global, syntax: Syntax) -> Result<List<u8>, Memory>
    ensures { IfOk result (λ bytes. bytes ≡ syntax_counts syntax) }
{
    let counts = counts_text(
        alloc,
        syntax.items.len(),
        syntax.keywords.len(),
        syntax.clusters.len(),
    );
    forget(syntax);
    counts
}
