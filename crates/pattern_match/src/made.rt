//! Ready nodes, with what they come to.
ghost use Rattle.std.specs.Prelude.{◌≡◌};
ghost use Rattle.std.specs.Coded.{Coded-set};
ghost use Rattle.pattern_match.specs.Fates.{fate_of};
ghost use Rattle.pattern_match.specs.Steps.{shape_of};
ghost use Rattle.pattern_match.specs.Takes.{is_taking};

use crate::fate::Fate;
use crate::step::Step;

/// A ready node, and what it comes to wherever it is tried.
#[derive(Drop)]
pub(crate) struct Made {
    pub step: Step,
    pub fate: Fate,
    /// Whether each way of it stands behind the place where it was tried.
    pub takes: bool,
    ghost known: { fate ≡ fate_of (shape_of step) } by { Coded-set fate-code fate
        (fate_of (shape_of step)) },
    ghost taking: { takes ≡ is_taking (shape_of step) },
}
