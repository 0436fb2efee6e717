//! What the painting of a line carries along, and its turns at a column: close, and then start what a
//! pick finds, until a pick starts nothing.
ghost use Rattle.std.specs.Prelude.{◌≡◌, ℕ, [], length, reverse, IfOk, Some, suc};
ghost use Rattle.std.specs.Option.{option_map};
ghost use Rattle.line_paint.specs.Common.{IsPicked, looked_first, picked, stale, WaitFits, at_col, turns, column, close_once, closed, closing, closing_on, standing_of, Stands, IsAt, Leads, LeadsAt, LeadsOn, LeadsNext, next_start, turn};

use crate::closing::{
    Closing, area_on, closing_on, container_goes_on, frames_after, waiting_after,
};
use crate::ends::Occasion;
use crate::frames::{stack_or, top_searched};
use crate::paint::at;
use crate::{PaintError, Site, Stop};
use item_pick::{PickMemory, Picked};
use paint_rules::{Spot, Waiting};
use state_stack::State;
use std::alloc::Global;
use std::mem;
use syn_base::{ItemId, List, Looked};

/// What the painting of a line carries along: the state, the column of the last start or close, the
/// items that have started at this place, whether closing is over for this line, and the lines
/// looked at.
#[derive(Drop)]
pub(crate) struct Standing {
    pub state: State,
    pub floor: usize,
    pub tried: List<ItemId>,
    pub is_over: bool,
    pub looked: Looked,
}

impl Standing {
    /// One step of closing; false where the top frame stays.
    #[tactic(auto, using(crate::proofs::StandingLaws::stays_on))]
    fn closes<S: Site>(&mut self, site: &S, memory: &mut PickMemory, c: usize) -> Result<bool, Stop>
        requires memory { S.stands site.now memory.old }
        requires stands { Stands (S.here site.now) c self.old }
        ensures leads { LeadsOn result self.old self.new
            (close_once (S.here site.now) c (standing_of self.old) (reverse self.old.state.stack)) }
        ensures stands { IfOk result (λ _. Stands (S.here site.now) c self.new) }
        ensures memory { S.stands site.now memory.new }
    {
        match closing_on(site, c, self.is_over, &self.state.stack) {
            Closing::Stays => Ok(false),
            becomes => self.closes_so(site, memory, c, becomes),
        }
    }

    /// The same step, where it is told what becomes of the top frame.
    #[inline(never)]
    #[tactic(auto, using(crate::proofs::SearchLaws::under_area))]
    fn closes_so<S: Site>(
        &mut self,
        site: &S,
        memory: &mut PickMemory,
        c: usize,
        becomes: Closing,
    ) -> Result<bool, Stop>
        requires memory { S.stands site.now memory.old }
        requires stands { Stands (S.here site.now) c self.old }
        requires becomes { closing becomes ≡ closing_on (S.here site.now) c self.old.is_over
            (reverse self.old.state.stack) }
        ensures leads { LeadsOn result self.old self.new
            (close_once (S.here site.now) c (standing_of self.old) (reverse self.old.state.stack)) }
        ensures stands { IfOk result (λ _. Stands (S.here site.now) c self.new) }
        ensures memory { S.stands site.now memory.new }
    {
        match self.state.stack.top_and_below() {
            None => Ok(false),
            Some((top, below)) => match becomes {
                Closing::Stays => Ok(false),
                Closing::BecomesArea => {
                    let place = Spot::At { ahead: 0, col: c };
                    let stack = area_on(site.alloc(), place, top, below)?;
                    self.state.stack = stack;
                    self.state.waiting = None;
                    Ok(true)
                }
                Closing::LeavesArea => {
                    let on = Occasion::UnderArea;
                    let anew = top_searched(site, memory, on, below, None, &mut self.looked)?;
                    let stack = stack_or(below, anew)?;
                    self.state.stack = stack;
                    self.state.waiting = None;
                    self.floor = c;
                    Ok(true)
                }
                Closing::Leaves => {
                    let anew = frames_after(site, memory, c, top, below, &mut self.looked)?;
                    let stack = stack_or(below, anew)?;
                    let waiting = waiting_after(site, c, top.item);
                    let is_over = container_goes_on(site, c, top, below);
                    self.state.stack = stack;
                    self.state.waiting = waiting;
                    self.floor = c;
                    self.is_over = is_over;
                    Ok(true)
                }
            },
        }
    }

    /// Closes all that ends at a place.
    fn close<S: Site>(&mut self, site: &S, memory: &mut PickMemory, c: usize) -> Result<(), Stop>
        requires memory { S.stands site.now memory.old }
        requires stands { Stands (S.here site.now) c self.old }
        ensures leads { Leads result self.old self.new
            (closed (S.here site.now) c (standing_of self.old)) }
        ensures stands { IfOk result (λ _. Stands (S.here site.now) c self.new) }
        ensures memory { S.stands site.now memory.new }
    {
        let len = self.state.stack.len();
        let mut left = len + len;
        'steps: while left > 0 {
            left -= 1;
            if !self.closes(site, memory, c)? {
                return Ok(());
            }
        }
        Ok(())
    }

    /// Starts what a pick found; false where it found nothing.
    fn take_up<S: Site>(&mut self, site: &S, c: usize, found: Picked) -> Result<bool, Stop>
        requires found { IsPicked (S.here site.now).rules.items found
            (looked_first (Some self.old.looked)
            (picked (S.here site.now) c (standing_of self.old))) }
        requires stands { Stands (S.here site.now) c self.old }
        ensures leads { LeadsNext result self.old self.new
            (next_start (S.here site.now) c (standing_of self.old)) }
        ensures stands { IfOk result (λ _. Stands (S.here site.now) c self.new) }
    {
        match found {
            Picked::Start(starting, looked) => {
                self.looked = looked;
                self.start(site, c, starting)?;
                Ok(true)
            }
            Picked::SkipOn(looked) => {
                self.looked = looked;
                Ok(false)
            }
            Picked::Nothing(looked) => {
                self.looked = looked;
                self.state.waiting = None;
                Ok(false)
            }
            Picked::TooCostly { item } => Err(Stop::TooCostly(item)),
        }
    }

    /// One turn; false where it was the last.
    fn turn<S: Site>(&mut self, site: &S, memory: &mut PickMemory, c: usize) -> Result<bool, Stop>
        requires memory { S.stands site.now memory.old }
        requires at { IsAt (S.here site.now) c self.old }
        ensures leads { LeadsNext result self.old self.new
            (turn (S.here site.now) c (standing_of self.old)) }
        ensures memory { S.stands site.now memory.new }
        ensures stands { IfOk result (λ _. Stands (S.here site.now) c self.new) }
    {
        self.close(site, memory, c)?;
        match site.pick(memory, c, self) {
            Ok(found) => self.take_up(site, c, found),
            Err(_refused) => Err(Stop::Memory),
        }
    }

    /// All turns at a column; at a column an item starts at most once.
    fn turns<S: Site>(&mut self, site: &S, memory: &mut PickMemory, c: usize) -> Result<(), Stop>
        requires memory { S.stands site.now memory.old }
        requires at { IsAt (S.here site.now) c self.old }
        ensures leads { Leads result self.old self.new
            (turns (suc (length (S.here site.now).rules.items)) (S.here site.now) c
            (standing_of self.old)) }
        ensures memory { S.stands site.now memory.new }
        ensures stands { IfOk result (λ _. Stands (S.here site.now) c self.new) }
    {
        let mut left = site.items().added() + 1;
        'turns: while left > 0 {
            left -= 1;
            if !self.turn(site, memory, c)? {
                return Ok(());
            }
        }
        Ok(())
    }

    /// No item has started at this place yet. The list keeps its room.
    pub(crate) fn forget_tried(&mut self, alloc: Global)
        ensures { self.new ≡ record self.old { tried = [] } }
    {
        if !self.tried.is_empty() {
            self.tried = emptied(mem::replace(&mut self.tried, List::new(alloc)));
        }
    }

    /// What closes and starts at a column.
    #[tactic(auto, using(crate::proofs::LineLaws::at_fails, crate::proofs::LineLaws::at_leads))]
    pub(crate) fn column<S: Site>(
        &mut self,
        site: &S,
        memory: &mut PickMemory,
        c: usize,
    ) -> Result<(), PaintError>
        requires memory { S.stands site.now memory.old }
        requires at { IsAt (S.here site.now) c self.old }
        ensures leads { LeadsAt result self.old self.new
            (at_col c (column (S.here site.now) c (standing_of self.old))) }
        ensures memory { S.stands site.now memory.new }
        ensures stands { IfOk result (λ _. Stands (S.here site.now) c self.new) }
    {
        self.forget_tried(site.alloc());
        self.state.waiting = stale(self.state.waiting);
        match self.turns(site, memory, c) {
            Ok(()) => Ok(()),
            Err(stop) => Err(at(stop, c)),
        }
    }
}

/// A list without its elements, which keeps its room.
fn emptied(list: List<ItemId>) -> List<ItemId>
    ensures { result ≡ [] }
{
    let mut items = list.into_vec();
    items.clear();
    List::from_vec(items)
}

fn stale(waiting: Option<Waiting>) -> Option<Waiting>
    ensures is { result ≡ option_map stale waiting }
    ensures fits { (n : ℕ) → WaitFits n waiting → WaitFits n result }
{
    match waiting {
        None => None,
        Some(w) => Some(Waiting {
            item: w.item,
            fresh: false,
        }),
    }
}
