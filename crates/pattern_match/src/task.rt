//! What is still to be done on a way, and how a step of it went.
ghost use Rattle.std.specs.Prelude.{◌≡◌};

use crate::look::Look;
use crate::step::Step;
use syn_base::Place;

/// One thing to be done.
#[derive(Clone, Copy)]
pub(crate) enum Task<'p> {
    /// To follow a node.
    Visit(&'p Step),
    /// To make the turns of a count that are left.
    Count(Turns<'p>),
    /// To make the next turn of a count, and then those that are left.
    Turn(Turns<'p>),
    /// To go on with a count, behind a turn that began at `from`.
    AfterTurn { turns: Turns<'p>, from: Place },
    /// To search a part for its first way.
    Look(Look<'p>),
    /// To note where a counted group matched.
    Close { number: u8, from: Place },
    /// To note where an external group matched.
    CloseExternal { number: u8, from: Place },
    /// To follow the second part of a choice, if there was a tick since the first was begun, after so
    /// many.
    Again { second: &'p Step, cost: u64 },
}

/// The turns of a count that are left: how many are forced, and how many allowed.
#[derive(Clone, Copy)]
pub(crate) struct Turns<'p> {
    pub part: &'p Step,
    pub least: u32,
    pub most: Option<u32>,
    pub lazy: bool,
}

impl<'p> Turns<'p> {
    /// All the turns of a count.
    pub(crate) fn new(part: &'p Step, least: u32, most: Option<u32>, lazy: bool) -> Turns<'p>
        ensures { result ≡ record { part = part.entry; least = least; most = most; lazy = lazy } }
    {
        Turns {
            part,
            least,
            most,
            lazy,
        }
    }
}

/// What is done at once, and so is never kept.
#[derive(Clone, Copy)]
pub(crate) enum Next<'p> {
    /// To follow a node.
    Visit(&'p Step),
    /// To make the turns of a count that are left.
    Count(Turns<'p>),
    /// To search a part for its first way.
    Look(Look<'p>),
}

/// How the present way goes on behind a step.
#[derive(Clone, Copy)]
pub(crate) enum Went<'p> {
    /// With what is to be done first on it.
    GoesOn,
    /// With this, before all that is to be done on it.
    Does(Next<'p>),
    /// Not at all.
    Ends,
    /// Not at all, nor does any other: the budget is spent.
    TooCostly,
}
