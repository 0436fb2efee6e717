//! Attempts of a command's pattern.
ghost use Rattle.std.specs.Prelude.{◌≡◌, ◌<◌, ◌≤◌, length, IfOk};
ghost use Rattle.match_rules.specs.Ways.{IsPlaceOf};
ghost use Rattle.match_rules.specs.Attempt.{attempt};
ghost use Rattle.pattern_match.specs.Answers.{answered};
ghost use Rattle.pattern_match.specs.Contexts.{context_in};
ghost use Rattle.pattern_match.specs.OnText.{IsToldOn};
ghost use Rattle.ex_substitute.specs.Begins.{is_screened, screen_passes};

use crate::ExCommand;
use pattern_match::{Attempt, Context, Scratch, answers_stay_on_the_text};
use std::alloc::Global;
use syn_base::{Lines, Memory, PatternId, Place};

impl ExCommand {
    /// Tries the pattern at a place.
    pub(crate) fn attempt<'p, T: Lines>(
        &'p self,
        scratch: &mut Scratch<'p>,
        alloc: Global,
        lines: &T,
        context: &Context,
        p: Place,
        budget: u64,
    ) -> Result<Attempt, Memory>
        requires present { p.line < length (T.lines lines.now) }
        requires place { IsPlaceOf (T.lines lines.now) p }
        requires budget { 1 ≤ budget }
        ensures told { IfOk result (λ told. told ≡ answered budget (T.lines lines.now) p
            (attempt self.now.tree (context_in (T.lines lines.now) context.now) p)) }
        ensures on_text { IfOk result (IsToldOn (T.lines lines.now) p) }
    {
        // The proof needs the law that this call tells.
        answers_stay_on_the_text();
        let first = PatternId(0);
        self.programs
            .attempt_in(scratch, alloc, first, lines, context, p, budget)
    }

    /// Whether the budget allows for the pattern's screen: an attempt that it doesn't let through costs
    /// no more.
    pub(crate) fn is_screened(&self, budget: u64) -> bool
        ensures { result ≡ is_screened self.now.tree budget }
    {
        self.programs.screen_cost(PatternId(0)) <= budget
    }

    /// Whether the pattern's screen lets an attempt through, by what stands at its column. It takes no
    /// memory.
    pub(crate) fn screen_passes(&self, next: Option<char>, context: &Context) -> bool
        ensures { result ≡ screen_passes self.now.tree context.now next }
    {
        let first = PatternId(0);
        match next {
            Some(c) => self.programs.screen_passes(first, &[c], 0, context),
            None => self.programs.screen_passes(first, &[], 0, context),
        }
    }
}
