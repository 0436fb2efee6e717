//! The rules of painting, and the small types that they speak of.
//!
//! The rules are definitions alone, in the order in which a line is painted: `specs/Offsets.antt` says
//! where an offset leads, `specs/ItemMatch.antt` and `specs/EndInLine.antt` where an item matches and a
//! region ends, `specs/KeptEnd.antt` and `specs/Close.antt` what closes, `specs/Pick.antt` what starts,
//! and `specs/Line.antt` paints a line and a text of these. Each is a value or a refusal with the lines
//! that were looked at (`specs/Painted.antt`). In these rules a stack stands with its top first.
#![tactic(auto)]

use syn_base::{GroupId, ItemId, Place};

/// A place, counted from the line that is being painted.
#[derive(Clone, Copy, Debug, PartialEq, Eq)]
pub enum Spot {
    /// Each place before that line.
    Past,
    /// So many lines ahead, at a column from 0.
    At { ahead: usize, col: usize },
}

/// What a frame is of its item.
#[derive(Clone, Copy, Debug, PartialEq, Eq)]
pub enum Part {
    /// A match, or what lies between a region's start and end.
    Body,
    /// A region's start, where it has a group of its own (`:syn-matchgroup`).
    StartArea,
    /// A region's end, likewise.
    EndArea,
    Keyword,
}

/// An item whose `nextgroup` may start (`:syn-nextgroup`).
#[derive(Clone, Copy, Debug, PartialEq, Eq)]
pub struct Waiting {
    pub item: ItemId,
    /// The wait began at the place that is being painted.
    pub fresh: bool,
}

/// The places that offsets name (`:syn-pattern-offset`).
#[derive(Clone, Copy, Debug, PartialEq, Eq)]
pub enum Which {
    /// Where the match starts.
    Ms,
    /// Where the match ends, excluded.
    Me,
    /// Where the highlight starts.
    Hs,
    /// Where the highlight ends, excluded.
    He,
    /// Where the body of a region starts.
    Rs,
    /// Where the body of a region ends.
    Re,
}

/// The end of a region in a line.
#[derive(Clone, Copy, Debug, PartialEq, Eq)]
pub struct RegionEnd {
    /// Where the body ends; with a group of its own the end area begins there.
    pub end: Place,
    /// Where the body's highlight ends.
    pub high_to: Place,
    /// Where the end area ends, if there is one.
    pub area_end: Option<Place>,
    /// Where the highlight of the end area ends.
    pub area_high: Option<Place>,
    /// The group that the end area shows.
    pub area_shows: Option<GroupId>,
}
