//! Why painting stops.
ghost use Rattle.std.specs.Prelude.{◌≡◌};
ghost use Rattle.line_paint.specs.declared.answers.Stop.TheVariants as cause;

use syn_base::{ItemId, Memory};

/// Why painting stops.
#[derive(Clone, Copy, Debug, PartialEq, Eq)]
pub(crate) enum Stop {
    TooCostly(ItemId),
    TooDeep,
    Memory,
}

impl From<Memory> for Stop {
    ghost from_gives = { λ _ e. e ≡ cause.Memory };

    fn from(_refused: Memory) -> Stop {
        Stop::Memory
    }
}
