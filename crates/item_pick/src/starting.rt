//! What starts.
use crate::stop::Stop;
use paint_rules::RegionEnd;
use pattern_match::Match;
use syn_base::{ItemId, Looked};

/// What starts at a place.
#[derive(Drop)]
pub enum Starting {
    /// A keyword, whose word ends before the column `end`, from 0 (`:syn-keyword`).
    Word {
        item: ItemId,
        end: usize,
    },
    /// A match that takes something (`:syn-match`).
    Matched {
        item: ItemId,
        m: Match,
    },
    /// A match that takes nothing and has a nextgroup (`:syn-nextgroup`).
    Empty {
        item: ItemId,
    },
    /// A region by its start pattern of the number `start`, in the order written, from 0, and its
    /// end where that was found in the start's line (`:syn-region`).
    Region {
        item: ItemId,
        start: usize,
        m: Match,
        end: Option<RegionEnd>,
    },
}

/// A keyword, whose word ends before a column.
#[derive(Clone, Copy)]
pub(crate) struct Word {
    pub(crate) item: ItemId,
    pub(crate) end: usize,
}

/// What starts at a place, and the lines that were looked at to tell.
#[derive(Drop)]
pub enum Picked {
    Start(Starting, Looked),
    /// No other item is tried here, and the wait goes on (`:syn-skipwhite`).
    SkipOn(Looked),
    Nothing(Looked),
    /// An attempt of this item cost more than the budget.
    TooCostly { item: ItemId },
}

/// What starts at a place, without the lines.
#[derive(Drop)]
pub(crate) enum Outcome {
    Start(Starting),
    SkipOn,
    Nothing,
}

/// What starts, if anything, or why picking stops.
pub(crate) type Found = Result<Option<Starting>, Stop>;
