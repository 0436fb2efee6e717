//! Commands, applied to a text.
ghost use Rattle.std.specs.Prelude.{◌≡◌, ◌<◌, ◌≤◌, length, IfOk};
ghost use Rattle.ex_substitute.specs.Answers.{Answers, Gives};
ghost use Rattle.ex_substitute.specs.Applying.{applied, done_by};
ghost use Rattle.ex_substitute.specs.Counting.{is_counted};
ghost use Rattle.ex_substitute.specs.Fitting.{FitsText};
ghost use Rattle.ex_substitute.specs.Trials.{trial_in};
ghost use Rattle.ex_substitute.specs.UsualSets.{usual_sets};

use crate::change::Change;
use crate::command::Action;
use crate::deleting::deleted;
use crate::refusal::Refusal;
use crate::searching::Scope;
use crate::trying::Trying;
use crate::{ExCommand, ExError};
use char_class::Sets;
use pattern_match::Context;
use std::alloc::Global;
use syn_base::{Externals, Lines};

impl ExCommand {
    /// What the command makes of the lines from `a` up to, and without, `b`, both from 0. Of several
    /// causes the first attempt that costs more than `budget` comes first, then that there is no match,
    /// then too many lines in the text, then a new line that is too long (`:s`, `:g`, `:v`; the limits
    /// are this profile's). The change fits the text: it is one of its lines and leaves at least one, and
    /// no more than a text has unless matches are counted alone.
    pub fn apply<T: Lines>(
        &self,
        alloc: Global,
        lines: &T,
        a: usize,
        b: usize,
        budget: u64,
    ) -> Result<Change, ExError>
        requires order { a < b }
        requires within { b ≤ length (T.lines lines.now) }
        requires budget { 1 ≤ budget }
        ensures made { Answers result (applied self.now (T.lines lines.now) a b budget) }
        ensures fits { IfOk result (FitsText (T.lines lines.now) (is_counted self.now.action)) }
    {
        match change_of(alloc, self, lines, a, b, budget) {
            Ok(change) => Ok(change),
            Err(Refusal::Cause(cause)) => Err(cause),
            Err(Refusal::Memory) => Err(ExError::Memory),
        }
    }
}

/// The sets of the values that the options have unless they are set.
fn usual_sets() -> Sets
    ensures { result ≡ usual_sets }
{
    Sets::usual()
}

/// What a command makes of the lines from `a` up to, and without, `b`.
fn change_of<T: Lines>(
    alloc: Global,
    command: &ExCommand,
    lines: &T,
    a: usize,
    b: usize,
    budget: u64,
) -> Result<Change, Refusal>
    requires within { b ≤ length (T.lines lines.now) }
    requires budget { 1 ≤ budget }
    ensures { Gives result (applied command.now (T.lines lines.now) a b budget) }
{
    let sets = usual_sets();
    let externals = Externals::none(alloc)?;
    let context = Context {
        ignore: command.ignore,
        sets: &sets,
        externals: &externals,
    };
    let trying = Trying::new(alloc, command, context, budget);
    trying.done(&command.action, lines, a, b)
}

impl Trying<'_> {
    /// What the command of this pattern makes of the lines from `a` up to, and without, `b`.
    fn done<T: Lines>(
        &self,
        action: &Action,
        lines: &T,
        a: usize,
        b: usize,
    ) -> Result<Change, Refusal>
        requires within { b ≤ length (T.lines lines.now) }
        requires budget { 1 ≤ self.now.budget }
        ensures { Gives result
            (done_by action.now (trial_in (T.lines lines.now) self.now) a b) }
    {
        match action {
            Action::Substitute {
                string,
                all,
                count_only,
            } => {
                let scope = Scope { all: *all, b };
                self.substituted(lines, string.as_slice(), scope, *count_only, a)
            }
            Action::Delete { others } => {
                let chosen = self.chosen(lines, *others, a, b)?;
                let change = deleted(self.alloc, lines, chosen.as_slice())?;
                Ok(change)
            }
        }
    }
}
