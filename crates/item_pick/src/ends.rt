//! Where regions end, by what is known of the line.
ghost use Rattle.std.specs.Prelude.{◌≡◌, ◌<◌, length, true, IfOk};
ghost use Rattle.item_pick.specs.Common.{item_of, is_region, end_in_line, search_of, IsEnd, rules_by, IsItem, MemoryStands, IsSound, MayAsk};

use crate::asked::Asked;
use crate::memory::PickMemory;
use crate::picking::Picking;
use region_ends::EndAnswer;
use syn_base::{Externals, ItemId, Lines, Memory, Place};

impl PickMemory {
    /// The first end of a region in the line of a place, from that place on, by what is known of the line,
    /// which has to be entered (`enter_line`).
    pub fn find_end<T: Lines>(
        &mut self,
        asked: &Asked,
        lines: &T,
        region: ItemId,
        externals: &Externals,
        from: Place,
    ) -> Result<EndAnswer, Memory>
        requires valid { IsSound asked.now }
        requires item { IsItem (rules_by asked.now) region }
        requires region { is_region (item_of asked.now.parts.now.items.now region).kind ≡ true }
        requires present { from.line < length (T.lines lines.now) }
        requires memory { MemoryStands (rules_by asked.now) (T.lines lines.now) from.line self.old }
        ensures end { IfOk result (λ a. IsEnd a region (end_in_line (search_of
            asked.now.parts.now.items.now asked.now.parts.now.sets.now asked.now.budget
            (T.lines lines.now) region externals.now from))) }
        ensures memory { MemoryStands (rules_by asked.now) (T.lines lines.now) from.line self.new }
    {
        let shut = &mut self.tables.shut;
        asked
            .searching(region, externals, from)
            .find(lines, asked.no_externals, &mut self.line.ends, shut)
    }

    /// The same from a place of any line, while one is picked from.
    pub(crate) fn end_from<T: Lines>(
        &mut self,
        picking: &Picking<'_, T>,
        region: ItemId,
        externals: &Externals,
        from: Place,
    ) -> Result<EndAnswer, Memory>
        requires item { IsItem (rules_by picking.now.asked.now) region }
        requires region { is_region (item_of picking.now.asked.now.parts.now.items.now region).kind
            ≡ true }
        requires present { from.line < length (T.lines picking.now.lines.now) }
        requires may { MayAsk T.lines picking.now self.old }
        ensures end { IfOk result (λ a. IsEnd a region (end_in_line (search_of
            picking.now.asked.now.parts.now.items.now picking.now.asked.now.parts.now.sets.now
            picking.now.asked.now.budget (T.lines picking.now.lines.now) region externals.now
            from))) }
        ensures may { MayAsk T.lines picking.now self.new }
    {
        let asked = picking.asked;
        if from.line == picking.at.line {
            return self.find_end(asked, picking.lines, region, externals, from);
        }
        asked
            .searching(region, externals, from)
            .find_anew(picking.lines, &mut self.tables.shut)
    }
}
