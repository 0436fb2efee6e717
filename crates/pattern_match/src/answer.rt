//! What an attempt answers.
ghost use Rattle.std.specs.Prelude.{◌≡◌, ◌<◌, slice_get, replicate, None, Some, IfOk};

use std::alloc::Global;
use std::marker::Model;
use syn_base::{Externals, Looked, Memory, Place};

/// How many groups a pattern has at most.
pub(crate) const GROUPS: usize = 9;

/// The places between which each group matched, if it did (`/\(`).
#[derive(Drop)]
pub struct Caps {
    /// All nine, or nothing where no group matched, as none does in most patterns.
    places: Option<Box<[Option<(Place, Place)>; GROUPS]>>,
}

impl Model for Caps {
    ghost use Rattle.std.specs.Prelude.{List};
    ghost use Rattle.match_rules.specs.Ways.{Capture};

    ghost Value = { List Capture };

    ghost use Rattle.std.specs.Option.{option_map};
    ghost use Rattle.pattern_match.specs.Answers.{nine_captures};

    ghost view = { λ c. nine_captures (option_map (λ places. places.value) c.places) };
}

impl Caps {
    /// No group matched. It takes no memory.
    pub(crate) fn none() -> Caps
        ensures { result ≡ replicate 9 None }
    {
        Caps { places: None }
    }

    pub(crate) fn new(
        alloc: Global,
        places: [Option<(Place, Place)>; GROUPS],
    ) -> Result<Caps, Memory>
        ensures { IfOk result (λ caps. caps ≡ places) }
    {
        Ok(Caps {
            places: Some(Box::new(alloc, places)?),
        })
    }

    /// The places of the group with the number `i + 1`.
    pub fn part(&self, i: usize) -> Option<(Place, Place)>
        requires { i < 9 }
        ensures { Some result ≡ slice_get self.now i }
    {
        match &self.places {
            Some(places) => place_of(places, i),
            None => None,
        }
    }
}

/// The places of the group with the number `i + 1`, of nine.
fn place_of(groups: &[Option<(Place, Place)>; GROUPS], i: usize) -> Option<(Place, Place)>
    requires { i < 9 }
    ensures { Some result ≡ slice_get groups.now i }
{
    groups[i]
}

/// A match: from `from` to `to`, `to` excluded, as `\zs` and `\ze` moved them.
#[derive(Drop)]
pub struct Match {
    pub from: Place,
    pub to: Place,
    pub caps: Caps,
    /// The texts of the external groups (`/\z(`); one over a line end, or that didn't match, is empty.
    pub externals: Externals,
}

/// What an attempt answers.
#[derive(Drop)]
pub enum Attempt {
    /// The first match, and the lines that were looked at; these may be -1 and the number of lines.
    Found(Match, Looked),
    /// There is none.
    Absent(Looked),
    /// It costs more ticks than the budget.
    TooCostly,
}
