//! The start of a match or a region.
ghost use Rattle.std.specs.Prelude.{◌≡◌, ◌<◌, ◌^◌, length, IfOk, Some, reverse, true};
ghost use Rattle.item_pick.specs.Common.{is_after, first_found, item_of, is_region, end_in_line, for_ends, match_start, region_start, start_by, items_below, IsToldAfter, IsToldAs, IsStartThere, seen_start, start_at, start_if_free, start_pattern, starts_of, ChoiceFits, IsItem, IsOwn, rules_by, MayAsk, MayPick, here_of};
ghost use Rattle.syntax_set.specs.declared.item.ItemKind.TheVariants as kind;

use crate::choice::Choice;
use crate::memory::PickMemory;
use crate::picking::{Picking, StartBy};
use crate::starting::{Found, Starting};
use crate::stop::Stop;
use crate::tries::look_at;
use paint_rules::{RegionEnd, Which};
use pattern_match::Match;
use region_ends::{EndAnswer, offset_place};
use syn_base::{ItemId, Lines, List, Looked, Place};
use syntax_set::{ItemKind, Pattern};

/// Whether a place is after another one.
fn is_after(a: Place, b: Place) -> bool
    ensures { result ≡ is_after a b }
{
    b.line < a.line || (b.line == a.line && b.col < a.col)
}

impl<T: Lines> Picking<'_, T> {
    /// What a match starts: one that takes nothing is none without a nextgroup.
    fn match_start(&self, id: ItemId, pattern: &Pattern, m: Match) -> Option<Starting>
        requires item { IsItem (rules_by self.now.asked.now) id }
        requires kind { (item_of (rules_by self.now.asked.now).items id).kind
            ≡ kind.Match pattern.now }
        ensures seen { seen_start (rules_by self.now.asked.now).items result ≡ match_start (here_of T.lines self.now) self.now.at.col id pattern.now (Some m) }
        ensures there { IsStartThere (rules_by self.now.asked.now).items result }
    {
        let end = offset_place(self.lines, &m, pattern, Which::Me);
        if is_after(end, self.at) {
            return Some(Starting::Matched { item: id, m });
        }
        if self.item(id).nextgroup.is_some() {
            Some(Starting::Empty { item: id })
        } else {
            None
        }
    }

    /// The end of a region that starts by a match, in the line where its start ends.
    fn end_of(
        &self,
        id: ItemId,
        m: &Match,
        looked: &mut Looked,
        memory: &mut PickMemory,
    ) -> Result<Option<RegionEnd>, Stop>
        requires item { IsItem (rules_by self.now.asked.now) id }
        requires region { is_region (item_of (rules_by self.now.asked.now).items id).kind ≡ true }
        requires ends { (m.now.to).line < 2 ^ 33 }
        requires may { MayAsk T.lines self.now memory.old }
        ensures told { IsToldAfter looked.old result looked.new (end_in_line (record {
          rules = for_ends (rules_by self.now.asked.now);
          text = T.lines self.now.lines.now;
          item = id;
          externals = m.now.externals;
          from = m.now.to;
        })) }
        ensures may { MayAsk T.lines self.now memory.new }
    {
        if m.to.line >= self.lines.len() {
            look_at(looked, m.to.line);
            return Ok(None);
        }
        match memory.end_from(self, id, &m.externals, m.to)? {
            EndAnswer::Ends(end, seen) => {
                *looked = looked.join(seen);
                Ok(Some(end))
            }
            EndAnswer::NotHere(seen) => {
                *looked = looked.join(seen);
                Ok(None)
            }
            EndAnswer::TooCostly => Err(Stop::TooCostly(id)),
        }
    }

    /// What a match of a start pattern starts: a oneline region only with its end.
    fn region_start(
        &self,
        id: ItemId,
        start: usize,
        m: Match,
        looked: &mut Looked,
        memory: &mut PickMemory,
    ) -> Found
        requires item { IsItem (rules_by self.now.asked.now) id }
        requires region { is_region (item_of (rules_by self.now.asked.now).items id).kind ≡ true }
        requires start { start
            < length (starts_of (item_of (rules_by self.now.asked.now).items id).kind) }
        requires ends { m.to.line < 2 ^ 33 }
        requires may { MayAsk T.lines self.now memory.old }
        ensures told { IsToldAs (seen_start (rules_by self.now.asked.now).items) looked.old result
            looked.new (region_start (here_of T.lines self.now) id
            (start_pattern (rules_by self.now.asked.now).items id start) (Some m)) }
        ensures there { IfOk result (IsStartThere (rules_by self.now.asked.now).items) }
        ensures may { MayAsk T.lines self.now memory.new }
    {
        let oneline = self.item(id).oneline;
        if !oneline && m.to.line != self.at.line {
            return Ok(Some(Starting::Region {
                item: id,
                start,
                m,
                end: None,
            }));
        }
        let end = self.end_of(id, &m, looked, memory)?;
        if oneline && end.is_none() {
            return Ok(None);
        }
        Ok(Some(Starting::Region {
            item: id,
            start,
            m,
            end,
        }))
    }

    /// A region by one of its start patterns.
    fn start_at(
        &self,
        id: ItemId,
        start: usize,
        pattern: &Pattern,
        looked: &mut Looked,
        memory: &mut PickMemory,
    ) -> Found
        requires own { IsOwn (rules_by self.now.asked.now) id pattern.now }
        requires region { is_region (item_of (rules_by self.now.asked.now).items id).kind ≡ true }
        requires start { start
            < length (starts_of (item_of (rules_by self.now.asked.now).items id).kind) }
        requires pattern { pattern.now
            ≡ start_pattern (rules_by self.now.asked.now).items id start }
        requires may { MayPick T.lines self.now looked.old memory.old }
        ensures told { IsToldAs (seen_start (rules_by self.now.asked.now).items) looked.old result
            looked.new (start_at (rules_by self.now.asked.now) (T.lines self.now.lines.now)
            self.now.at self.now.floor id pattern.now) }
        ensures there { IfOk result (IsStartThere (rules_by self.now.asked.now).items) }
        ensures may { MayAsk T.lines self.now memory.new }
    {
        let by = StartBy {
            item: id,
            number: start,
            pattern,
        };
        match self.item_match(&by, looked, memory)? {
            Some(m) => self.region_start(id, start, m, looked, memory),
            None => Ok(None),
        }
    }

    /// A region: its start patterns are tried from the last written to the first.
    fn start_of_region(
        &self,
        id: ItemId,
        starts: &List<Pattern>,
        looked: &mut Looked,
        memory: &mut PickMemory,
    ) -> Found
        requires item { IsItem (rules_by self.now.asked.now) id }
        requires region { is_region (item_of (rules_by self.now.asked.now).items id).kind ≡ true }
        requires starts { starts.now
            ≡ starts_of (item_of (rules_by self.now.asked.now).items id).kind }
        requires may { MayPick T.lines self.now looked.old memory.old }
        ensures told { IsToldAs (seen_start (rules_by self.now.asked.now).items) looked.old result
            looked.new (first_found (start_at (rules_by self.now.asked.now)
            (T.lines self.now.lines.now) self.now.at self.now.floor id) (reverse starts.now)) }
        ensures there { IfOk result (IsStartThere (rules_by self.now.asked.now).items) }
        ensures may { MayAsk T.lines self.now memory.new }
    {
        let mut left = starts.len();
        'starts: while left > 0 {
            left -= 1;
            let found = self.start_at(id, left, starts.get(left), looked, memory)?;
            match found {
                Some(starting) => return Ok(Some(starting)),
                None => {}
            }
        }
        Ok(None)
    }

    /// What an item starts by a match at the place.
    fn start_by(&self, id: ItemId, looked: &mut Looked, memory: &mut PickMemory) -> Found
        requires item { IsItem (rules_by self.now.asked.now) id }
        requires may { MayPick T.lines self.now looked.old memory.old }
        ensures told { IsToldAs (seen_start (rules_by self.now.asked.now).items) looked.old result
            looked.new (start_by (here_of T.lines self.now) self.now.at.col self.now.floor id
            (item_of (rules_by self.now.asked.now).items id).kind) }
        ensures there { IfOk result (IsStartThere (rules_by self.now.asked.now).items) }
        ensures may { MayAsk T.lines self.now memory.new }
    {
        match &self.item(id).kind {
            ItemKind::Keyword => Ok(None),
            ItemKind::Match(pattern) => {
                let by = StartBy {
                    item: id,
                    number: 0,
                    pattern,
                };
                match self.item_match(&by, looked, memory)? {
                    Some(m) => Ok(self.match_start(id, pattern, m)),
                    None => Ok(None),
                }
            }
            ItemKind::Region { starts, .. } => self.start_of_region(id, starts, looked, memory),
        }
    }

    /// The first match or region of a choice, the last item first.
    pub(crate) fn first_start(
        &self,
        choice: Choice,
        looked: &mut Looked,
        memory: &mut PickMemory,
    ) -> Found
        requires choice { ChoiceFits (rules_by self.now.asked.now) choice }
        requires may { MayPick T.lines self.now looked.old memory.old }
        ensures told { IsToldAs (seen_start (rules_by self.now.asked.now).items) looked.old result
            looked.new (first_found (start_if_free (rules_by self.now.asked.now)
            (T.lines self.now.lines.now) self.now.at self.now.floor (reverse self.now.tried.now)
            choice)
            (items_below (length (rules_by self.now.asked.now).items))) }
        ensures there { IfOk result (IsStartThere (rules_by self.now.asked.now).items) }
        ensures may { MayAsk T.lines self.now memory.new }
    {
        let mut left = memory.next_item(self, choice, self.asked.parts.items.added(), *looked)?;
        'items: while left > 0 {
            let found = self.start_by(ItemId((left - 1) as u32), looked, memory)?;
            match found {
                Some(starting) => return Ok(Some(starting)),
                None => left = memory.next_item(self, choice, left - 1, *looked)?,
            }
        }
        Ok(None)
    }
}
