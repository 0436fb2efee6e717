//! The line that is painted, and what the painter asks about it.
ghost use Rattle.std.specs.Prelude.{◌≡◌, ◌<◌, ◌^◌, length, [], IfOk, true, Some, reverse};
ghost use Rattle.line_paint.specs.Common.{Here, this_line, item_of, no_externals, place_at, offset_place, is_region, end_in_line, search_from, IsEnd, looked_first, picked, IsPicked, IsQuietUntil, standing_of, IsAt};
ghost use Rattle.item_pick.specs.declared.memory.PickMemory.{PickMemory as Kept};

use crate::standing::Standing;
use item_pick::{PickMemory, Picked};
use paint_rules::Which;
use pattern_match::Match;
use region_ends::{EndAnswer, item_of};
use state_stack::Frame;
use std::alloc::Global;
use std::rc::Rc;
use syn_base::{Externals, ItemId, Memory, Place};
use syntax_set::{Item, ItemSet, Pattern};

/// A column before which something is so.
pub(crate) type UpTo = Result<usize, Memory>;

/// The line that is painted, as the rules see it: where it stands, its items, what starts in it and
/// where regions end. The latter two are told by what is kept of the syntax and known of the line.
pub(crate) trait Site {
    /// The rules, the text, and the number of the line.
    ghost here: { Self → Here };

    /// Whether the line is there, its rules may be asked, and what is kept of the syntax, and known of
    /// the line, is true.
    ghost stands: { Self → Kept → Type 0 };

    fn alloc(&self) -> Global;

    fn line(&self) -> usize
        ensures is { result ≡ (here self.now).line }
        ensures few { result < 2 ^ 32 };

    fn len(&self) -> usize
        ensures { result ≡ length (this_line (here self.now)) };

    fn items(&self) -> &ItemSet
        ensures { result.now ≡ (here self.now).rules.items };

    fn item(&self, id: ItemId) -> &Item
        requires { id.0 < length (here self.now).rules.items }
        ensures { result.now ≡ item_of (here self.now).rules.items id }
    {
        item_of(self.items(), id)
    }

    /// Nine empty texts, for the frames of keywords and matches to share.
    fn no_externals(&self) -> &Rc<Externals>
        ensures { result.now.value ≡ no_externals };

    fn offset_place(&self, m: &Match, pattern: &Pattern, which: Which) -> Place
        ensures { result ≡ offset_place (here self.now).text m.now pattern.now which };

    /// What starts at a column. It is handed the lines that were looked at so far, and adds those that
    /// it looks at.
    fn pick(&self, memory: &mut PickMemory, c: usize, at: &Standing) -> Result<Picked, Memory>
        requires memory { stands self.now memory.old }
        requires at { IsAt (here self.now) c at.now }
        ensures memory { stands self.now memory.new }
        ensures picked { IfOk result (λ a. IsPicked (here self.now).rules.items a
            (looked_first (Some at.now.looked)
            (picked (here self.now) c (standing_of at.now)))) };

    /// A column from one on, up to the line's end, before which nothing starts on the stack, where
    /// nothing waits. None behind `end` is asked. No other line than those so far is looked at.
    fn starts_from(&self, memory: &mut PickMemory, c: usize, end: usize, at: &Standing) -> UpTo
        requires memory { stands self.now memory.old }
        requires at { IsAt (here self.now) c at.now }
        requires none_tried { at.now.tried ≡ [] }
        ensures memory { stands self.now memory.new }
        ensures quiet { IfOk result (IsQuietUntil (here self.now).rules (here self.now).text
            (place_at (here self.now).line c) (reverse at.now.state.stack) at.now.floor
            at.now.looked) };

    /// The end of a region in the line, sought for its body from a column on.
    fn find_end(&self, memory: &mut PickMemory, body: &Frame, c: usize) -> Result<EndAnswer, Memory>
        requires memory { stands self.now memory.old }
        requires is_item { (body.now.item).0 < length (here self.now).rules.items }
        requires is_region { is_region
            (item_of (here self.now).rules.items body.now.item).kind ≡ true }
        ensures memory { stands self.now memory.new }
        ensures end { IfOk result
            (λ a. IsEnd a body.now.item (end_in_line
            (search_from (here self.now) body.now.item body.now.externals
            (place_at (here self.now).line c)))) };
}
