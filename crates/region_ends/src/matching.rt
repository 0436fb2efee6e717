//! Attempts of the patterns of items.
ghost use Rattle.std.specs.Prelude.{◌≡◌, ◌<◌, ◌≤◌, length, IfOk};
ghost use Rattle.region_ends.specs.Common.{IsPlaceOf, IsToldOn, attempt_by, IsAdded, IsAttempted};

use char_class::Sets;
use pattern_match::{Attempt, Context, Programs};
use std::alloc::Global;
use syn_base::{Externals, Lines, Memory, Place};
use syntax_set::Pattern;

/// What the patterns of items are tried with.
#[derive(Clone, Copy)]
pub struct Matcher<'a> {
    pub alloc: Global,
    pub programs: &'a Programs,
    pub sets: &'a Sets,
    /// The most that one attempt may cost.
    pub budget: u64,
}

impl Matcher<'_> {
    /// Tries a pattern at a place. `ignore` says whether its item ignores case (`:syn-case`).
    pub fn attempt<T: Lines>(
        &self,
        lines: &T,
        pattern: &Pattern,
        ignore: bool,
        externals: &Externals,
        start: Place,
    ) -> Result<Attempt, Memory>
        requires added { IsAdded self.now.programs.now pattern.now }
        requires present { start.line < length (T.lines lines.now) }
        requires place { IsPlaceOf (T.lines lines.now) start }
        requires budget { 1 ≤ self.now.budget }
        ensures answer { IfOk result (λ a. IsAttempted a self.now.budget (attempt_by
            self.now.sets.now (T.lines lines.now) pattern.now.tree ignore externals.now start)) }
        ensures on_text { IfOk result (IsToldOn (T.lines lines.now) start) }
    {
        let context = Context {
            ignore,
            sets: self.sets,
            externals,
        };
        self.programs.attempt(self.alloc, pattern.id, lines, &context, start, self.budget)
    }
}
