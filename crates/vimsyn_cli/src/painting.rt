//! A painted text, from the names of its files on, or the fault that tells why there is none.
ghost use Rattle.std.specs.Prelude.{◌≤◌, ◌+◌, length};
ghost use Rattle.vimsyn_cli.specs.Changes.{files_between, steps_change};
ghost use Rattle.vimsyn_cli.specs.Painting.{IsPaintFault, IsRefusedPainting, IsUnreadPaint, painted_told, painting_told};
ghost use Rattle.vimsyn_cli.specs.Plans.{IfFault, IsExpected, IsOfContent};
ghost use Rattle.vimsyn_cli.specs.Reads.{Paints};
ghost use Rattle.vimsyn_cli.specs.Session.{text_lines};

use crate::fault::Stop;
use crate::reading::read;
use crate::refusal::refusal;
use crate::text_file::read_text;
use program_words::PaintWords;
use state_cache::{Painted, Unpainted};
use std::alloc::Global;
use syn_base::{Files, Ledger, Steps};
use syn_reader::Syntax;
use text_buffer::Text;

/// The painted text.
pub(crate) fn paint<F: Files, L: Ledger>(
    alloc: Global,
    files: &mut F,
    words: &PaintWords<'_>,
    steps: &mut Steps<L>,
) -> Result<Painted, Stop>
    ensures { Paints (painting_told words.now) (IsUnreadPaint words.now) (IsPaintFault words.now) (text_lines words.now)
        (files_between F.told F.faults F.misses F.longs files.old files.new)
        (steps_change steps.old steps.new) result }
{
    let syntax = read(alloc, files, words.syntax())?;
    let text = read_text(alloc, files, words.text())?;
    paint_text(alloc, words, syntax, text, steps)
}

/// The painting of a text by a syntax.
fn paint_text<L: Ledger>(
    alloc: Global,
    words: &PaintWords<'_>,
    syntax: Syntax,
    text: Text,
    steps: &mut Steps<L>,
) -> Result<Painted, Stop>
    ensures planned { IsExpected (painted_told words.now syntax text.lines) (λ line. ⊥) result }
    ensures told { IfFault result (IsRefusedPainting words.now.text) }
    ensures content { IfFault result IsOfContent }
    ensures steps { steps.new ≤ steps.old + length text.lines }
{
    match Painted::paint(alloc, syntax, text, words.budget(), steps) {
        Ok(painted) => Ok(painted),
        Err(Unpainted { error, syntax }) => Err(refusal(
            alloc,
            words.text(),
            &syntax.groups,
            &syntax.items,
            error,
        )),
    }
}
