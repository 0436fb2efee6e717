//! What is known of the line that is painted: where items don't start, and where regions end.
ghost use Rattle.std.specs.Prelude.{◌≡◌, ◌<◌, ◌≤◌, ◌+◌, ◌^◌, ℕ, length, IfOk, IfSome, IsTrue};
ghost use Rattle.std.specs.List.{All};
ghost use Rattle.pattern_needs.specs.LineNeeds.{AreHeld};
ghost use Rattle.item_pick.specs.Common.{Text, line_at, Rules, place_at, rules_in, IsQuiet, item_numbered, TellsOf, HoldsLine, HoldsLines, IsBarren, IsNear, IsNumberAt, IsWanted, LineStands, RunStands, two_lines};
ghost use Rattle.item_pick.specs.declared.parts.Parts.{Parts as PartsOf};
ghost use Rattle.syn_base.specs.declared.looked.Looked.{Looked as LookedOf};

use crate::needs::Wanted;
use crate::runs::{Run, Search, holds};
use char_class::Sets;
use pattern_needs::Held;
use pattern_screens::number_line;
use region_ends::EndMemo;
use slots::{Marks, Slots};
use std::alloc::Global;
use syn_base::{ItemId, Looked, Memory};

/// What is known of the line that is painted.
#[derive(Drop)]
pub(crate) struct LineKnown {
    /// The numbers of the keys of its columns, that of its end included.
    pub(crate) numbers: Vec<u16>,
    /// Its characters.
    held: Held,
    /// From which columns items aren't matched, by the number of the item.
    runs: Slots<Run>,
    /// The numbers of items that start nowhere in it.
    barren: Marks,
    /// The numbers of items that don't start where what follows their look behind fails, once some lines
    /// were looked at.
    near: Marks,
    /// Those lines: it and the one before, where an item is such.
    pair: Looked,
    /// Where regions end.
    pub(crate) ends: EndMemo,
}

impl LineKnown {
    /// No line was entered. It takes no memory.
    pub(crate) fn new(alloc: Global) -> LineKnown {
        LineKnown {
            numbers: Vec::new(alloc),
            held: Held::none(),
            runs: Slots::new(alloc),
            barren: Marks::new(alloc),
            near: Marks::new(alloc),
            pair: Looked::one(0),
            ends: EndMemo::new(alloc),
        }
    }

    /// Forgets what was known, and begins a line.
    pub(crate) fn enter(&mut self, sets: &Sets, line: &[char]) -> Result<(), Memory>
        ensures { (r : Rules) (t : Text) (l : ℕ) → r.sets ≡ sets.now → line.now ≡ line_at t l →
            IfOk result (λ _. LineStands r t l self.new) }
    {
        self.runs.clear();
        self.barren.clear();
        self.near.clear();
        self.ends.clear();
        self.held = Held::of(line);
        number_line(sets, line, &mut self.numbers)
    }

    /// How many characters the line has.
    pub(crate) fn width(&self) -> usize
        ensures { (r : Rules) (t : Text) (l : ℕ) → LineStands r t l self.now →
            result ≡ length (line_at t l) }
    {
        self.numbers.len().saturating_sub(1)
    }

    /// Notes that an item starts nowhere, if the line lacks what it needs, by what is held of the line and
    /// how many characters it has.
    #[inline(always)]
    fn note_lacking(&mut self, wanted: &Wanted, held: &Held, width: usize) -> Result<(), Memory>
        ensures { (parts : PartsOf) (budget : ℕ) (t : Text) (l : ℕ) →
            AreHeld held.now width (line_at t l) →
            IsWanted (rules_in parts budget) wanted.now →
            LineStands (rules_in parts budget) t l self.old →
            LineStands (rules_in parts budget) t l self.new }
    {
        if wanted.need.is_lacked(held, width) {
            self.barren.put(wanted.item.0 as usize)?;
        }
        Ok(())
    }

    /// Notes those of some items that start nowhere, since the line lacks what they need.
    #[inline(never)]
    pub(crate) fn note_all_lacking(&mut self, wanted: &[Wanted]) -> Result<(), Memory>
        ensures { (parts : PartsOf) (budget : ℕ) (t : Text) (l : ℕ) →
            All (IsWanted (rules_in parts budget)) wanted.now →
            LineStands (rules_in parts budget) t l self.old →
            LineStands (rules_in parts budget) t l self.new }
    {
        let held = self.held;
        let width = self.width();
        for one in wanted {
            self.note_lacking(one, &held, width)?;
        }
        Ok(())
    }

    /// The number of the key at a column.
    pub(crate) fn number_at(&self, col: usize) -> Option<u16>
        ensures { (r : Rules) (t : Text) (l : ℕ) → LineStands r t l self.now →
            IfSome result (IsNumberAt r (line_at t l) col) }
    {
        self.numbers.get(col).copied()
    }

    /// The number of the key one column behind one.
    pub(crate) fn number_after(&self, col: usize) -> Option<u16>
        ensures { (r : Rules) (t : Text) (l : ℕ) → LineStands r t l self.now →
            IfSome result (IsNumberAt r (line_at t l) (col + 1)) }
    {
        self.number_at(col.checked_add(1)?)
    }

    /// The same of one that isn't the line's first.
    pub(crate) fn number_behind(&self, col: usize) -> Option<u16>
        ensures { (r : Rules) (t : Text) (l : ℕ) → LineStands r t l self.now →
            IfSome result (λ number. (0 < col) × IsNumberAt r (line_at t l) (col + 1) number) }
    {
        if col == 0 {
            return None;
        }
        self.number_after(col)
    }

    /// Whether an item is known to start nowhere in the line.
    #[inline(always)]
    pub(crate) fn is_barren(&self, id: u32) -> bool
        ensures { IsTrue result → (r : Rules) (t : Text) (l : ℕ) → LineStands r t l self.now →
            IsBarren r t l (item_numbered id) }
    {
        self.barren.has(id as usize)
    }

    /// Whether an item is known not to start where what follows its look behind fails, once some lines
    /// were looked at.
    #[inline(always)]
    pub(crate) fn is_near(&self, id: u32, looked: Looked) -> bool
        ensures { IsTrue result → (r : Rules) (t : Text) (l : ℕ) → LineStands r t l self.now →
            IsNear r t l looked (item_numbered id) }
    {
        if !self.near.has(id as usize) {
            return false;
        }
        holds(looked, self.pair)
    }

    /// Notes that an item is such by the line and the one before.
    #[inline(never)]
    pub(crate) fn note_near(&mut self, id: ItemId, pair: Looked) -> Result<(), Memory>
        ensures { (r : Rules) (t : Text) (l : ℕ) → pair ≡ two_lines l →
            ((looked : LookedOf) → HoldsLines looked pair → IsNear r t l looked id) →
            LineStands r t l self.old → LineStands r t l self.new }
    {
        self.pair = pair;
        self.near.put(id.0 as usize)
    }

    /// The run of an item that holds a column or ends there, and tells of a place.
    pub(crate) fn known(&self, item: ItemId, col: usize, at: usize) -> Option<Run>
        ensures tells { IfSome result (TellsOf item col at) }
        ensures stands { (r : Rules) (t : Text) (l : ℕ) → LineStands r t l self.now →
            IfSome result (RunStands r t l) }
    {
        let run = self.runs.get(item.0 as usize)?;
        let holds = run.item == item && run.from <= col && col <= run.to;
        if holds && run.places.first <= at && at < run.places.end {
            Some(*run)
        } else {
            None
        }
    }

    /// The first column from that of a search on at which no run tells that an item has no match.
    #[inline(always)]
    pub(crate) fn told_to(&self, id: u32, search: &Search<'_>) -> usize
        ensures { (r : Rules) (t : Text) (l : ℕ) → LineStands r t l self.now →
            HoldsLine search.now.looked l → (c : ℕ) → search.now.at ≤ c → c < result →
            IsQuiet r t (place_at l c) search.now.floor search.now.looked (item_numbered id) }
    {
        match self.runs.get(id as usize) {
            Some(run) if run.covers(ItemId(id), search, self.numbers.len()) => run.places.end,
            _ => search.at,
        }
    }

    /// Keeps a run of a line at the place of its item.
    pub(crate) fn keep(&mut self, run: Run, line: usize) -> Result<(), Memory>
        requires { line < 2 ^ 63 }
        ensures { (r : Rules) (t : Text) → RunStands r t line run →
            LineStands r t line self.old → LineStands r t line self.new }
    {
        if run.is_whole(line, self.numbers.len()) {
            return self.barren.put(run.item.0 as usize);
        }
        self.runs.put(run.item.0 as usize, run)
    }
}
