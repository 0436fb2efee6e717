//! Why a text isn't painted.
ghost use Rattle.std.specs.Prelude.{◌≡◌};
ghost use Rattle.state_cache.specs.Spans.{at_line};

use line_paint::PaintError;
use syn_base::{ItemId, Memory};

/// Why a text isn't painted: lines and columns from 0, of the first line that is refused.
#[derive(Clone, Copy, Debug, PartialEq, Eq)]
pub enum EditError {
    /// An attempt of the item costs more than the budget (this profile).
    TooCostly {
        line: usize,
        col: usize,
        item: ItemId,
    },
    /// More than 1,000 frames would be open (this profile).
    TooDeep {
        line: usize,
        col: usize,
    },
    Memory,
}

impl From<Memory> for EditError {
    ghost use Rattle.state_cache.specs.declared.refusal.EditError.TheVariants as error;

    ghost from_gives = { λ _ e. e ≡ error.Memory };

    fn from(_refused: Memory) -> EditError {
        EditError::Memory
    }
}

/// A line's refusal as that of the text.
pub(crate) fn at_line(line: usize, error: PaintError) -> EditError
    ensures { result ≡ at_line line error }
{
    match error {
        PaintError::TooCostly { col, item } => EditError::TooCostly { line, col, item },
        PaintError::TooDeep { col } => EditError::TooDeep { line, col },
        PaintError::Memory => EditError::Memory,
    }
}
