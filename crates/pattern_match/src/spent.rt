//! What an attempt has cost so far, and the lines that it looked at.
ghost use Rattle.std.specs.Prelude.{◌≡◌, ◌<◌, ◌≤◌, ◌+◌, [], ◌∷◌, None, IsTrue, ◌↔◌};
ghost use Rattle.syn_base.specs.Looked.{hull_of};
ghost use Rattle.match_rules.specs.Marks.{Tick};
ghost use Rattle.pattern_match.specs.Spending.{spent_on, spent_times, looking_at_too, looking_too};

use syn_base::Looked;

/// The ticks so far, how many are allowed, and the lines that they looked at.
#[derive(Clone, Copy)]
pub(crate) struct Spent {
    pub cost: u64,
    pub budget: u64,
    pub looked: Option<Looked>,
}

impl Spent {
    /// No tick yet.
    pub(crate) fn nothing(budget: u64) -> Spent
        ensures { result ≡ record { cost = 0; budget = budget; looked = None } }
    {
        Spent {
            cost: 0,
            budget,
            looked: None,
        }
    }

    /// Counts a tick that looked at these lines.
    #[inline(always)]
    pub(crate) fn tick(&mut self, looked: Looked)
        requires { self.old.cost < self.old.budget }
        ensures { self.new ≡ spent_on self.old (Tick looked ∷ []) }
    {
        self.cost += 1;
        self.look(looked);
    }

    /// Counts so many ticks, each of which looked at these lines.
    pub(crate) fn tick_times(&mut self, count: u64, looked: Looked)
        requires { self.old.cost + count ≤ self.old.budget }
        ensures { self.new ≡ spent_times self.old count looked }
    {
        if count > 0 {
            self.cost += count;
            self.look(looked);
        }
    }

    /// Says that the ticks since the cost was `before`, if there were any, looked at these lines too.
    pub(crate) fn look_too(&mut self, before: u64, looked: Looked)
        ensures { self.new ≡ looking_too before looked self.old }
    {
        if before < self.cost {
            self.look(looked);
        }
    }

    /// Mostly the lines were looked at before, and nothing is written.
    #[inline(always)]
    fn look(&mut self, looked: Looked)
        ensures { self.new ≡ looking_at_too looked self.old }
    {
        match self.looked {
            Some(before) if holds(before, looked) => {}
            _ => self.look_further(looked),
        }
    }

    /// The same, of lines that weren't looked at before.
    #[inline(never)]
    fn look_further(&mut self, looked: Looked)
        ensures { self.new ≡ looking_at_too looked self.old }
    {
        self.looked = match self.looked {
            None => Some(looked),
            Some(before) => Some(before.join(looked)),
        };
    }
}

/// Whether these lines are among those looked at before, and a number where one was looked at now.
#[inline(always)]
pub(crate) fn holds(before: Looked, looked: Looked) -> bool
    ensures { IsTrue result → hull_of before looked ≡ before }
{
    before.low <= looked.low && looked.high <= before.high && (before.numbered || !looked.numbered)
}
