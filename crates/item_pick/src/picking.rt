//! Where a pick stands.
ghost use Rattle.std.specs.Prelude.{◌≡◌, IfOk};

use crate::asked::Asked;
use crate::tried::Tried;
use state_stack::State;
use syn_base::{ItemId, Lines, List, Looked, Memory, Place};
use syntax_set::Pattern;

/// Where a pick stands: the place, the column of the last start or close in its line, and the items
/// that have started here.
#[derive_where(Clone, Copy)]
pub(crate) struct Picking<'a, T: Lines> {
    pub(crate) asked: &'a Asked<'a>,
    pub(crate) lines: &'a T,
    pub(crate) at: Place,
    pub(crate) floor: usize,
    pub(crate) tried: &'a Tried<'a>,
}

/// A start pattern of an item.
#[derive(Clone, Copy)]
pub(crate) struct StartBy<'a> {
    pub(crate) item: ItemId,
    /// Its number, in the order written, from 0.
    pub(crate) number: usize,
    pub(crate) pattern: &'a Pattern,
}

/// What is asked at a place of a present line, in the state there.
#[derive_where(Clone, Copy)]
pub struct Query<'a, T: Lines> {
    pub asked: &'a Asked<'a>,
    pub lines: &'a T,
    pub at: Place,
    pub state: &'a State,
    /// The column of the last start or close in the line.
    pub floor: usize,
    /// The items that have started at the place, in order: these don't start again.
    pub tried: &'a List<ItemId>,
    /// The lines looked at, the place's own among them.
    pub looked: Looked,
}

impl<T: Lines> Query<'_, T> {
    /// The items that have started at the place.
    pub(crate) fn tried_items(&self) -> Result<Tried<'_>, Memory>
        ensures { IfOk result (λ tried. tried ≡ self.now.tried.now) }
    {
        Tried::new(self.asked.alloc, self.tried, self.asked.parts.items.added())
    }

    /// Where the pick stands.
    pub(crate) fn picking<'b>(&'b self, tried: &'b Tried<'b>) -> Picking<'b, T>
        ensures { result ≡ record {
          asked = self.now.asked;
          lines = self.now.lines;
          at = self.now.at;
          floor = self.now.floor;
          tried = tried.entry;
        } }
    {
        Picking {
            asked: self.asked,
            lines: self.lines,
            at: self.at,
            floor: self.floor,
            tried,
        }
    }
}
