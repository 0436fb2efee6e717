//! What starts at a place, or how the wait goes on.
ghost use Rattle.std.specs.Prelude.{◌≡◌, length, reverse, None, IfOk, []};
ghost use Rattle.item_pick.specs.Common.{line_at, start_among, picked, waits_on, picked_allowed, Fits, WaitFits, IsToldAs, admits, IsOutcomeThere, IsStartThere, seen_pick, seen_start, standing_at, ChoiceFits, IsItem, IsPlace, rules_by, MayAsk, MayPick, here_of};

use crate::choice::Choice;
use crate::memory::PickMemory;
use crate::picking::Picking;
use crate::starting::{Found, Outcome, Starting, Word};
use crate::stop::Stop;
use paint_rules::Waiting;
use state_stack::Stack;
use syn_base::{Lines, Looked};

impl<T: Lines> Picking<'_, T> {
    /// A keyword of a choice whose word begins here, or else the first match or region.
    #[inline(always)]
    fn start_among(&self, choice: Choice, looked: &mut Looked, memory: &mut PickMemory) -> Found
        requires choice { ChoiceFits (rules_by self.now.asked.now) choice }
        requires may { MayPick T.lines self.now looked.old memory.old }
        ensures told { IsToldAs (seen_start (rules_by self.now.asked.now).items) looked.old result
            looked.new (start_among (here_of T.lines self.now) self.now.at.col
            (standing_at [] None self.now.floor (reverse self.now.tried.now))
            (admits (rules_by self.now.asked.now) choice)) }
        ensures there { IfOk result (IsStartThere (rules_by self.now.asked.now).items) }
        ensures may { MayAsk T.lines self.now memory.new }
    {
        if memory.tables.is_bare(choice) {
            return Ok(None);
        }
        self.start_among_some(choice, looked, memory)
    }

    /// The same of a choice that may have an item.
    #[inline(never)]
    fn start_among_some(
        &self,
        choice: Choice,
        looked: &mut Looked,
        memory: &mut PickMemory,
    ) -> Found
        requires choice { ChoiceFits (rules_by self.now.asked.now) choice }
        requires may { MayPick T.lines self.now looked.old memory.old }
        ensures told { IsToldAs (seen_start (rules_by self.now.asked.now).items) looked.old result
            looked.new (start_among (here_of T.lines self.now) self.now.at.col
            (standing_at [] None self.now.floor (reverse self.now.tried.now))
            (admits (rules_by self.now.asked.now) choice)) }
        ensures there { IfOk result (IsStartThere (rules_by self.now.asked.now).items) }
        ensures may { MayAsk T.lines self.now memory.new }
    {
        let word = self.keyword_by(choice, &memory.tables)?;
        match word {
            Some(Word { item, end }) => Ok(Some(Starting::Word { item, end })),
            None => self.first_start(choice, looked, memory),
        }
    }

    /// Whether a wait in vain goes on over what stands here.
    fn waits_on(&self, waiting: Waiting) -> bool
        requires place { IsPlace (T.lines self.now.lines.now) self.now.at }
        requires item { IsItem (rules_by self.now.asked.now) waiting.item }
        ensures { result ≡ waits_on (rules_by self.now.asked.now)
            (line_at (T.lines self.now.lines.now) self.now.at.line) self.now.at.col waiting }
    {
        let line = self.line();
        let item = self.item(waiting.item);
        match line.get(self.at.col) {
            Some(x) => (*x == ' ' || *x == '\t') && item.skipwhite,
            None => item.skipempty || (item.skipnl && (!line.is_empty() || waiting.fresh)),
        }
    }

    /// What is allowed on a stack and starts here.
    #[inline(always)]
    fn pick_allowed(
        &self,
        stack: &Stack,
        looked: &mut Looked,
        memory: &mut PickMemory,
    ) -> Result<Outcome, Stop>
        requires frames { Fits (length (rules_by self.now.asked.now).items) (reverse stack.now) }
        requires may { MayPick T.lines self.now looked.old memory.old }
        ensures told { IsToldAs (seen_pick (rules_by self.now.asked.now).items) looked.old result
            looked.new (picked_allowed (here_of T.lines self.now) self.now.at.col
            (standing_at (reverse stack.now) None self.now.floor (reverse self.now.tried.now))) }
        ensures there { IfOk result (IsOutcomeThere (rules_by self.now.asked.now).items) }
        ensures may { MayAsk T.lines self.now memory.new }
    {
        let found = self.start_among(self.allowed(stack), looked, memory)?;
        match found {
            Some(starting) => Ok(Outcome::Start(starting)),
            None => Ok(Outcome::Nothing),
        }
    }

    /// What starts here.
    pub(crate) fn pick(
        &self,
        stack: &Stack,
        waiting: Option<Waiting>,
        looked: &mut Looked,
        memory: &mut PickMemory,
    ) -> Result<Outcome, Stop>
        requires frames { Fits (length (rules_by self.now.asked.now).items) (reverse stack.now) }
        requires may { MayPick T.lines self.now looked.old memory.old }
        requires waiting { WaitFits (length (rules_by self.now.asked.now).items) waiting }
        ensures told { IsToldAs (seen_pick (rules_by self.now.asked.now).items) looked.old result
            looked.new (picked (here_of T.lines self.now) self.now.at.col
            (standing_at (reverse stack.now) waiting self.now.floor (reverse self.now.tried.now))) }
        ensures there { IfOk result (IsOutcomeThere (rules_by self.now.asked.now).items) }
        ensures may { MayAsk T.lines self.now memory.new }
    {
        match waiting {
            None => self.pick_allowed(stack, looked, memory),
            Some(wait) => {
                let found = self.start_among(Choice::ListOf(wait.item), looked, memory)?;
                match found {
                    Some(starting) => Ok(Outcome::Start(starting)),
                    None => {
                        if self.waits_on(wait) {
                            Ok(Outcome::SkipOn)
                        } else {
                            self.pick_allowed(stack, looked, memory)
                        }
                    }
                }
            }
        }
    }
}
