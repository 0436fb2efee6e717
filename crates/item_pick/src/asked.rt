//! The parts of a syntax, asked within a budget.
ghost use Rattle.std.specs.Prelude.{◌≡◌, ◌<◌, ◌≤◌, ◌+◌, length, IfOk};
ghost use Rattle.item_pick.specs.Common.{line_at, item_of, no_externals, IsAttempted, EndsBelow, rules_by, IsOwn, IsSound};

use crate::parts::Parts;
use crate::picking::StartBy;
use pattern_match::Attempt;
use region_ends::{Matcher, Searching, item_of};
use std::alloc::Global;
use syn_base::{Externals, ItemId, Lines, Memory, Place};

/// The parts of a syntax, asked within a budget.
#[derive(Clone, Copy)]
pub struct Asked<'a> {
    pub alloc: Global,
    pub parts: &'a Parts<'a>,
    /// The most that one attempt may cost.
    pub budget: u64,
    /// Nine empty texts (`Externals::none`).
    pub no_externals: &'a Externals,
}

impl Asked<'_> {
    fn matcher(&self) -> Matcher<'_>
        ensures programs { result.programs.now ≡ self.now.parts.now.programs.now }
        ensures sets { result.sets.now ≡ self.now.parts.now.sets.now }
        ensures budget { result.budget ≡ self.now.budget }
    {
        Matcher {
            alloc: self.alloc,
            programs: self.parts.programs,
            sets: self.parts.sets,
            budget: self.budget,
        }
    }

    #[tactic(auto, using(crate::proofs::OwnLaws::own_added, crate::proofs::OwnLaws::told_below))]
    /// An attempt of a pattern by which an item starts.
    pub(crate) fn attempt<T: Lines>(
        &self,
        lines: &T,
        by: &StartBy<'_>,
        start: Place,
    ) -> Result<Attempt, Memory>
        requires valid { IsSound self.now }
        requires own { IsOwn (rules_by self.now) by.now.item by.now.pattern.now }
        requires present { start.line < length (T.lines lines.now) }
        requires column { start.col ≤ length (line_at (T.lines lines.now) start.line) }
        ensures answer { IfOk result (λ a. IsAttempted a self.now.budget
            ((rules_by self.now).attempt (T.lines lines.now) (by.now.pattern.now).tree
            (item_of (rules_by self.now).items by.now.item).ignore no_externals start)) }
        ensures on_text { IfOk result (λ a. EndsBelow a (length (T.lines lines.now) + 1)) }
    {
        let ignore = item_of(self.parts.items, by.item).ignore;
        self.matcher()
            .attempt(lines, by.pattern, ignore, self.no_externals, start)
    }

    /// The search for the end of a region from a place on.
    pub(crate) fn searching<'b>(
        &'b self,
        region: ItemId,
        externals: &'b Externals,
        from: Place,
    ) -> Searching<'b>
        ensures items { result.items.now ≡ self.now.parts.now.items.now }
        ensures programs { result.matcher.programs.now ≡ self.now.parts.now.programs.now }
        ensures sets { result.matcher.sets.now ≡ self.now.parts.now.sets.now }
        ensures budget { result.matcher.budget ≡ self.now.budget }
        ensures region { result.region ≡ region }
        ensures externals { result.externals.now ≡ externals.now }
        ensures from { result.from ≡ from }
    {
        Searching {
            matcher: self.matcher(),
            items: self.parts.items,
            region,
            externals,
            from,
        }
    }
}
