//! States: a stack, and at most one waiting item.
ghost use Rattle.std.specs.Prelude.{◌≡◌, ◌↔◌, ℕ, [], None, IfOk, IsTrue};
ghost use Rattle.std.specs.Option.{option_map};
ghost use Rattle.paint_rules.specs.States.{stale, next_line, StateFits};
ghost use Rattle.state_stack.specs.TopFirst.{top_first};

use crate::Stack;
use paint_rules::Waiting;
use std::alloc::Global;
use syn_base::Memory;

/// The painter's state before or after a line, counted from that line.
#[derive(Drop)]
pub struct State {
    pub stack: Stack,
    /// The item whose `nextgroup` may start, if one waits (`:syn-nextgroup`).
    pub waiting: Option<Waiting>,
}

impl State {
    /// No frames, and nothing that waits: the state before a text's first line. It takes no memory.
    pub fn new() -> State
        ensures { result ≡ record { stack = []; waiting = None } }
    {
        State {
            stack: Stack::new(),
            waiting: None,
        }
    }

    /// An equal state, which shares its frames.
    pub fn copy(&self) -> Result<State, Memory>
        ensures { IfOk result (λ s. s ≡ self.now) }
    {
        let stack = self.stack.copy()?;
        Ok(State {
            stack,
            waiting: self.waiting,
        })
    }

    /// Whether all of it is the same.
    pub fn same(&self, other: &State) -> bool
        ensures { IsTrue result ↔ (self.now ≡ other.now) }
    {
        self.waiting == other.waiting && self.stack.same(&other.stack)
    }

    /// The same state, counted from the line that follows. It shares the longest bottom part of the
    /// stack that stays the same.
    pub fn to_next_line(&self, alloc: Global) -> Result<State, Memory>
        ensures next { IfOk result (λ s. top_first s ≡ next_line (top_first self.now)) }
        ensures fits { IfOk result (λ s. (n : ℕ) → StateFits n (top_first self.now)
            → StateFits n (top_first s)) }
    {
        let stack = self.stack.nearer(alloc)?;
        Ok(State {
            stack,
            waiting: stale(self.waiting),
        })
    }
}

fn stale(waiting: Option<Waiting>) -> Option<Waiting>
    ensures { result ≡ option_map stale waiting }
{
    match waiting {
        None => None,
        Some(w) => Some(Waiting {
            item: w.item,
            fresh: false,
        }),
    }
}
