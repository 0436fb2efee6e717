//! The text that `spans` and `html` print: as it is painted, or with what is concealed.
ghost use Rattle.vimsyn_cli.specs.Changes.{files_between, steps_change};
ghost use Rattle.vimsyn_cli.specs.Concealing.{IsUnreadView, IsViewFault};
ghost use Rattle.vimsyn_cli.specs.Printing.{picture_told};
ghost use Rattle.vimsyn_cli.specs.Reads.{Paints};
ghost use Rattle.vimsyn_cli.specs.Session.{text_lines};

use crate::concealing::{Concealed, conceal_text};
use crate::fault::Stop;
use crate::painting::paint;
use program_words::PaintWords;
use state_cache::Painted;
use std::alloc::Global;
use syn_base::{Files, Ledger, Steps};

/// A text that is printed.
#[derive(Drop)]
pub(crate) enum Picture {
    /// All of it is shown.
    Shown(Painted),
    /// Some of it may be concealed.
    Concealed(Concealed),
}

/// The text that the words name, painted by their syntax, at their level of concealing.
pub(crate) fn read_picture<F: Files, L: Ledger>(
    alloc: Global,
    files: &mut F,
    words: &PaintWords<'_>,
    steps: &mut Steps<L>,
) -> Result<Picture, Stop>
    ensures { Paints (picture_told words.now) (IsUnreadView words.now) (IsViewFault words.now) (text_lines words.now)
        (files_between F.told F.faults F.misses F.longs files.old files.new)
        (steps_change steps.old steps.new) result }
{
    if words.conceal() == 0 {
        let painted = paint(alloc, files, words, steps)?;
        return Ok(Picture::Shown(painted));
    }
    let text = conceal_text(alloc, files, words, steps)?;
    Ok(Picture::Concealed(text))
}
