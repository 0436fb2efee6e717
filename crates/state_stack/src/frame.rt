//! Frames: what the state keeps of an open item.
ghost use Rattle.std.specs.Prelude.{◌≡◌, ◌↔◌, IfOk, IsTrue};
ghost use Rattle.paint_rules.specs.States.{nearer, nearer_frame};
ghost use Rattle.std.specs.Option.{option_map};
ghost use Rattle.state_stack.specs.Settled.{is_past, is_past_end, is_settled};
ghost use Rattle.state_stack.specs.SameFrames.{SameEnds, SameHead};

use paint_rules::{Part, Spot};
use std::marker::Model;
use std::rc::Rc;
use syn_base::{Externals, GroupId, ItemId, Memory};

/// What the state keeps of an open item. Contracts see it with the nine texts of its externals.
#[derive(Drop)]
pub struct Frame {
    pub item: ItemId,
    pub part: Part,
    /// The group that it shows.
    pub shows: GroupId,
    /// Where it ends, as far as is known.
    pub known_end: Option<Spot>,
    /// Where its highlight begins (`:syn-hs`).
    pub high_from: Spot,
    /// Where its highlight ends, excluded (`:syn-he`).
    pub high_to: Option<Spot>,
    /// Where a region's end area ends, if it has one (`:syn-matchgroup`).
    pub area_end: Option<Spot>,
    /// Where the highlight of that area ends.
    pub area_high: Option<Spot>,
    /// The group that the area shows.
    pub area_shows: Option<GroupId>,
    /// Where a search for a region's end begins.
    pub search: Spot,
    /// The texts of the external groups of its start (`:syn-ext-match`).
    pub externals: Rc<Externals>,
}

impl Model for Frame {
    ghost use Rattle.paint_rules.specs.Frames.{Frame as FrameRules};

    ghost Value = { FrameRules };

    ghost view = { λ f. record {
      item = f.item;
      part = f.part;
      shows = f.shows;
      known_end = f.known_end;
      high_from = f.high_from;
      high_to = f.high_to;
      area_end = f.area_end;
      area_high = f.area_high;
      area_shows = f.area_shows;
      search = f.search;
      externals = f.externals.value;
    } };
}

impl Frame {
    /// An equal frame, which shares the externals.
    pub fn copied(&self) -> Result<Frame, Memory>
        ensures { IfOk result (λ f. f ≡ self.now) }
    {
        let externals = self.externals.clone()?;
        Ok(Frame {
            item: self.item,
            part: self.part,
            shows: self.shows,
            known_end: self.known_end,
            high_from: self.high_from,
            high_to: self.high_to,
            area_end: self.area_end,
            area_high: self.area_high,
            area_shows: self.area_shows,
            search: self.search,
            externals,
        })
    }

    /// Whether all of it is the same.
    pub fn same(&self, other: &Frame) -> bool
        ensures { IsTrue result ↔ (self.now ≡ other.now) }
    {
        self.same_head(other) && self.same_ends(other) && self.externals.same(&other.externals)
    }

    #[inline(always)]
    fn same_head(&self, other: &Frame) -> bool
        ensures { IsTrue result ↔ SameHead self.now other.now }
    {
        self.item == other.item
            && self.part == other.part
            && self.shows == other.shows
            && self.high_from == other.high_from
            && self.search == other.search
    }

    #[inline(always)]
    fn same_ends(&self, other: &Frame) -> bool
        ensures { IsTrue result ↔ SameEnds self.now other.now }
    {
        self.known_end == other.known_end
            && self.high_to == other.high_to
            && self.area_end == other.area_end
            && self.area_high == other.area_high
            && self.area_shows == other.area_shows
    }

    /// Whether each of its spots is past, so that it is the same before the next line.
    pub fn is_settled(&self) -> bool
        ensures { result ≡ is_settled self.now }
    {
        is_past(self.high_from)
            && is_past(self.search)
            && is_past_end(self.known_end)
            && is_past_end(self.high_to)
            && is_past_end(self.area_end)
            && is_past_end(self.area_high)
    }

    /// The frame as the next line sees it.
    pub fn nearer(&self) -> Result<Frame, Memory>
        ensures { IfOk result (λ f. f ≡ nearer_frame self.now) }
    {
        let mut frame = self.copied()?;
        frame.known_end = nearer_end(self.known_end);
        frame.high_from = nearer(self.high_from);
        frame.high_to = nearer_end(self.high_to);
        frame.area_end = nearer_end(self.area_end);
        frame.area_high = nearer_end(self.area_high);
        frame.search = nearer(self.search);
        Ok(frame)
    }
}

fn is_past(spot: Spot) -> bool
    ensures { result ≡ is_past spot }
{
    match spot {
        Spot::Past => true,
        Spot::At { ahead: _, col: _ } => false,
    }
}

fn is_past_end(end: Option<Spot>) -> bool
    ensures { result ≡ is_past_end end }
{
    match end {
        None => true,
        Some(spot) => is_past(spot),
    }
}

fn nearer(spot: Spot) -> Spot
    ensures { result ≡ nearer spot }
{
    match spot {
        Spot::Past => Spot::Past,
        Spot::At { ahead, col } => if ahead == 0 {
            Spot::Past
        } else {
            Spot::At {
                ahead: ahead - 1,
                col,
            }
        },
    }
}

fn nearer_end(end: Option<Spot>) -> Option<Spot>
    ensures { result ≡ option_map nearer end }
{
    match end {
        None => None,
        Some(spot) => Some(nearer(spot)),
    }
}
