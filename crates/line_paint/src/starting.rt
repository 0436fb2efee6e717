//! What a pick started.
ghost use Rattle.std.specs.Prelude.{◌≡◌, ◌<◌, length, reverse, IfOk};
ghost use Rattle.line_paint.specs.Common.{Here, started, started_at, ARegion, IsStarting, standing_of, Stands, Leads, start_one, start_two};
ghost use Rattle.paint_rules.specs.Pick as rule;

use crate::closing::waiting_after;
use crate::new_frames::{
    Matched, body_ended, match_frame, open_area, open_body, pushed, shared, shared_again,
    with_externals, word_frame,
};
use crate::standing::Standing;
use crate::{Site, Stop};
use item_pick::Starting;
use paint_rules::{RegionEnd, Waiting};
use pattern_match::Match;
use state_stack::{Frame, Stack, State};
use std::alloc::Global;
use syn_base::{ItemId, Memory};
use syntax_set::{ItemKind, Pattern};

/// A region's start that matched, and the region's end where that was found.
#[derive(Drop)]
struct Begun<'a> {
    item: ItemId,
    pattern: &'a Pattern,
    m: Match,
    end: Option<RegionEnd>,
}

impl Standing {
    /// An item has started at a column.
    fn start_on(
        &mut self,
        stack: Stack,
        waiting: Option<Waiting>,
        c: usize,
        item: ItemId,
    ) -> Result<(), Memory>
        ensures standing { IfOk result
            (λ _. standing_of self.new
            ≡ started_at c item (standing_of self.old) (reverse stack) waiting) }
        ensures looked { IfOk result (λ _. self.new.looked ≡ self.old.looked) }
        ensures waits { IfOk result (λ _. self.new.state.waiting ≡ waiting) }
    {
        self.state = State { stack, waiting };
        self.floor = c;
        self.tried.push(item)?;
        Ok(())
    }

    /// An item starts with a frame.
    fn start_one(&mut self, alloc: Global, c: usize, item: ItemId, frame: Frame) -> Result<(), Stop>
        ensures leads { Leads result self.old self.new
            (start_one c item (standing_of self.old) frame) }
        ensures stands { (h : Here) → (frame.item).0 < length h.rules.items → Stands h c self.old
            → IfOk result (λ _. Stands h c self.new) }
    {
        let stack = pushed(alloc, &self.state.stack, frame)?;
        Ok(self.start_on(stack, None, c, item)?)
    }

    /// An item starts with two frames.
    fn start_two(
        &mut self,
        alloc: Global,
        c: usize,
        item: ItemId,
        body: Frame,
        area: Frame,
    ) -> Result<(), Stop>
        ensures leads { Leads result self.old self.new
            (start_two c item (standing_of self.old) body area) }
        ensures stands { (h : Here) → (body.item).0 < length h.rules.items
            → (area.item).0 < length h.rules.items → Stands h c self.old
            → IfOk result (λ _. Stands h c self.new) }
    {
        let below = pushed(alloc, &self.state.stack, body)?;
        let stack = pushed(alloc, &below, area)?;
        Ok(self.start_on(stack, None, c, item)?)
    }

    /// A region starts.
    fn start_region<S: Site>(&mut self, site: &S, c: usize, region: Begun) -> Result<(), Stop>
        requires is_item { region.item.0 < length (S.here site.now).rules.items }
        requires stands { Stands (S.here site.now) c self.old }
        ensures leads { Leads result self.old self.new
            (started (S.here site.now) c (standing_of self.old)
            (ARegion region.entry.item region.entry.pattern.now region.entry.m region.entry.end)) }
        ensures stands { IfOk result (λ _. Stands (S.here site.now) c self.new) }
    {
        let Begun {
            item,
            pattern,
            m,
            end,
        } = region;
        let by = Matched {
            item,
            pattern,
            m: &m,
        };
        let open = open_body(site, c, &by)?;
        match pattern.matchgroup {
            None => {
                let body = with_externals(open, shared(site, m)?);
                let body = body_ended(site, body, end)?;
                self.start_one(site.alloc(), c, item, body)
            }
            Some(group) => {
                let area = open_area(site, c, &by, group)?;
                let externals = shared(site, m)?;
                let body = with_externals(open, shared_again(&externals)?);
                let body = body_ended(site, body, end)?;
                self.start_two(site.alloc(), c, item, body, with_externals(area, externals))
            }
        }
    }

    /// What a pick has found starts.
    pub(crate) fn start<S: Site>(
        &mut self,
        site: &S,
        c: usize,
        starting: Starting,
    ) -> Result<(), Stop>
        requires starting { (t : rule.Starting)
            × IsStarting (S.here site.now).rules.items starting t }
        requires stands { Stands (S.here site.now) c self.old }
        ensures leads { (t : rule.Starting) → IsStarting (S.here site.now).rules.items starting t
            → Leads result self.old self.new
            (started (S.here site.now) c (standing_of self.old) t) }
        ensures stands { IfOk result (λ _. Stands (S.here site.now) c self.new) }
    {
        match starting {
            Starting::Word { item, end } => {
                let frame = word_frame(site, c, item, end)?;
                self.start_one(site.alloc(), c, item, frame)
            }
            Starting::Empty { item } => {
                let stack = self.state.stack.copy()?;
                let waiting = waiting_after(site, c, item);
                Ok(self.start_on(stack, waiting, c, item)?)
            }
            Starting::Matched { item, m } => match &site.item(item).kind {
                ItemKind::Match(pattern) => {
                    let by = Matched {
                        item,
                        pattern,
                        m: &m,
                    };
                    let frame = match_frame(site, c, &by)?;
                    self.start_one(site.alloc(), c, item, frame)
                }
                _ => unreachable!(),
            },
            Starting::Region {
                item,
                start,
                m,
                end,
            } => match &site.item(item).kind {
                ItemKind::Region { starts, .. } => {
                    let region = Begun {
                        item,
                        pattern: starts.get(start),
                        m,
                        end,
                    };
                    self.start_region(site, c, region)
                }
                _ => unreachable!(),
            },
        }
    }
}
