//! The commands that print at once what they read.
ghost use Rattle.vimsyn_cli.specs.Answers.{IsFaultOfPrint, IsUnreadPrint};
ghost use Rattle.vimsyn_cli.specs.Changes.{files_between, steps_change};
ghost use Rattle.vimsyn_cli.specs.Reads.{Paints};
ghost use Rattle.vimsyn_cli.specs.Session.{print_lines, print_told};

use crate::check::check;
use crate::fault::Stop;
use crate::folds::print_folds;
use crate::html::print_page;
use crate::spans::print_spans;
use program_words::Printing;
use std::alloc::Global;
use syn_base::{Files, Ledger, List, Steps};

/// What the command prints, or why it prints nothing.
pub(crate) fn print<F: Files, L: Ledger>(
    alloc: Global,
    files: &mut F,
    printing: &Printing<'_>,
    steps: &mut Steps<L>,
) -> Result<List<u8>, Stop>
    ensures { Paints (print_told printing.now) (IsUnreadPrint printing.now) (IsFaultOfPrint printing.now) (print_lines printing.now)
        (files_between F.told F.faults F.misses F.longs files.old files.new)
        (steps_change steps.old steps.new) result }
{
    match printing {
        Printing::Check(words) => check(alloc, files, words),
        Printing::Spans(words) => print_spans(alloc, files, words, steps),
        Printing::Html(words) => print_page(alloc, files, words, steps),
        Printing::Folds(words) => print_folds(alloc, files, words, steps),
    }
}
