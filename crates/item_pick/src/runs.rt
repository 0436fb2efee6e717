//! From which columns of a line an item isn't matched.
ghost use Rattle.std.specs.Prelude.{◌≡◌, ◌<◌, ◌≤◌, ◌-◌, ◌^◌, ℕ, false, length, reverse, IfSome, IsTrue};
ghost use Rattle.std.specs.List.{list_any};
ghost use Rattle.item_pick.specs.Common.{Text, line_at, Rules, item_of, place_at, has_one_start, IsFirstOf, IsItem, IsEnough, LineStands, RunStands, Covers, IsWhole, TellsOf, IsPassed, item_numbered, same_item, HoldsLine, HoldsLines, rules_by};

use crate::asked::Asked;
use crate::columns::Columns;
use crate::line_known::LineKnown;
use crate::picking::StartBy;
use crate::tried::Tried;
use region_ends::item_of;
use syn_base::{ItemId, Looked};
use syntax_set::ItemKind;

/// No match of an item by its first start pattern, from a column up to, and without, another, has its
/// item start at these places of the line.
#[derive(Clone, Copy)]
pub(crate) struct Run {
    pub(crate) item: ItemId,
    pub(crate) from: usize,
    pub(crate) to: usize,
    pub(crate) places: Columns,
    /// The lines that the attempts looked at, and those between them.
    pub(crate) looked: Looked,
    /// The least floor from which on the item is sought from no column before; only where the item has
    /// no other start pattern.
    pub(crate) least: Option<usize>,
}

/// Where items are sought.
#[derive(Clone, Copy)]
pub(crate) struct Search<'a> {
    /// The column.
    pub(crate) at: usize,
    /// The column of the last start or close in the line.
    pub(crate) floor: usize,
    /// The lines looked at so far.
    pub(crate) looked: Looked,
    /// The items that have started there.
    pub(crate) tried: &'a Tried<'a>,
    /// What is known of the line.
    pub(crate) line: &'a LineKnown,
}

impl Search<'_> {
    /// Whether an item has started at the column, or is known to have no match there.
    #[inline(always)]
    pub(crate) fn is_passed(&self, id: u32) -> bool
        ensures passed { IsTrue result → (r : Rules) (t : Text) (l : ℕ) →
            LineStands r t l self.now.line.now → self.now.at ≤ length (line_at t l) →
            HoldsLine self.now.looked l →
            IsPassed r t (place_at l self.now.at) self.now.floor self.now.looked
            (reverse self.now.tried.now) (item_numbered id) }
        ensures untried { result ≡ false →
            list_any (same_item (item_numbered id)) (reverse self.now.tried.now) ≡ false }
    {
        self.line.is_barren(id)
            || self.line.told_to(id, self) > self.at
            || self.tried.has(ItemId(id))
    }
}

/// Whether some lines are among those looked at, and a number where one was looked at there.
pub(crate) fn holds(looked: Looked, lines: Looked) -> bool
    ensures { IsTrue result → HoldsLines looked lines }
{
    looked.low <= lines.low && lines.high <= looked.high && (looked.numbered || !lines.numbered)
}

impl Run {
    /// Whether an item isn't matched where it is sought from any column before an end, and the lines
    /// that tell so were looked at.
    #[inline(always)]
    pub(crate) fn covers(&self, item: ItemId, search: &Search<'_>, end: usize) -> bool
        ensures { IsTrue result → Covers self.now item search.now.at search.now.floor
            search.now.looked end }
    {
        let enough = match self.least {
            Some(least) => least <= search.floor,
            None => false,
        };
        enough
            && self.item == item
            && end <= self.to
            && self.places.first <= search.at
            && search.at < self.places.end
            && holds(search.looked, self.looked)
    }

    /// Whether it tells of all places of its line, which has so many columns, its end included, whatever
    /// the floor, and by that line alone.
    pub(crate) fn is_whole(&self, line: usize, count: usize) -> bool
        requires { line < 2 ^ 63 }
        ensures { IsTrue result → IsWhole self.now line count }
    {
        self.least == Some(0)
            && self.places.first == 0
            && count <= self.places.end
            && count <= self.to
            && self.looked == Looked::one(line as i64)
    }
}

impl Asked<'_> {
    /// Whether an item starts by one pattern at most.
    pub(crate) fn has_one_start(&self, id: ItemId) -> bool
        requires { IsItem (rules_by self.now) id }
        ensures { result
            ≡ has_one_start (item_of (rules_by self.now).items id).kind }
    {
        match &item_of(self.parts.items, id).kind {
            ItemKind::Keyword => true,
            ItemKind::Match(_) => true,
            ItemKind::Region { starts, .. } => starts.len() == 1,
        }
    }

    /// The least floor from which on an item is sought from no column before one.
    fn least_floor(&self, by: &StartBy<'_>, col: usize) -> Option<usize>
        requires { IsFirstOf (rules_by self.now) by.now }
        ensures { IfSome result (IsEnough (rules_by self.now) by.now.item col) }
    {
        if self.has_one_start(by.item) {
            floor_for(col, by.pattern.lc)
        } else {
            None
        }
    }

    /// A run of a line that has no column yet.
    pub(crate) fn fresh_run(&self, by: &StartBy<'_>, line: usize, col: usize) -> Run
        requires line { line < 2 ^ 63 }
        requires first { IsFirstOf (rules_by self.now) by.now }
        ensures stands { (t : Text) (l : ℕ) →
            RunStands (rules_by self.now) t l result }
        ensures tells { (at : ℕ) → at < 2 ^ 62 → TellsOf by.now.item col at result }
    {
        Run {
            item: by.item,
            from: col,
            to: col,
            places: Columns {
                first: 0,
                end: usize::MAX,
            },
            looked: Looked::one(line as i64),
            least: self.least_floor(by, col),
        }
    }
}

/// The least floor from which on a match is sought from no column before one, by its leading context.
fn floor_for(col: usize, context: u32) -> Option<usize>
    ensures { IfSome result (λ least. (floor : ℕ) → least ≤ floor → col ≤ floor - context) }
{
    if col == 0 {
        return Some(0);
    }
    col.checked_add(context as usize)
}
