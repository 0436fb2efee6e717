//! The folds of lines.
ghost use Rattle.std.specs.Prelude.{◌≡◌, ◌≤◌, ◌<◌, ◌+◌, All, IfOk, OnOk, length, min};
ghost use Rattle.syn_folds.specs.Begun.{HaveBegun, HaveEnded};
ghost use Rattle.syn_folds.specs.Folds.{folds_of};

use std::alloc::Global;
use syn_base::{List, Memory};

/// A fold, which may be one line long. Lines are counted from 0.
#[derive(Clone, Copy, Debug, PartialEq, Eq)]
pub struct Fold {
    pub first: usize,
    /// Included.
    pub last: usize,
    /// From 1.
    pub level: usize,
}

/// Folds in the order in which they begin.
#[derive(Drop)]
struct Begun {
    /// Those that go on get their last lines when they end.
    folds: Vec<Fold>,
    /// Where those stand that go on, by their levels.
    places: Vec<usize>,
}

/// The folds of lines with these levels, in the order of their first lines, then of their levels
/// (this profile).
pub fn folds(alloc: Global, levels: &[usize]) -> Result<List<Fold>, Memory>
    requires { All (λ level. level ≤ 20) levels.now }
    ensures { IfOk result (λ folds. folds ≡ folds_of levels.now) }
{
    let mut begun = Begun {
        folds: Vec::new(alloc),
        places: Vec::new(alloc),
    };
    for (line, level) in levels.iter().enumerate() {
        begun.end_above(*level, line);
        begun.begin_up_to(*level, line)?;
    }
    begun.end_above(0, levels.len());
    Ok(List::from_vec(begun.folds))
}

impl Begun {
    /// Ends the folds above a level in front of a line.
    fn end_above(&mut self, level: usize, line: usize)
        requires places { All (λ place. place < length self.old.folds.items) self.old.places.items }
        requires line { 0 < length self.old.places.items → 0 < line }
        ensures ended { HaveEnded line (level + 1) self.old.places.items self.old.folds.items
            self.new.places.items self.new.folds.items }
        ensures left { length self.new.places.items ≡ min (length self.old.places.items) level }
        ensures places { All (λ place. place < length self.new.folds.items) self.new.places.items }
    {
        'ends: while self.places.len() > level {
            self.end_last(line - 1);
        }
    }

    /// Ends the fold that began last of those that go on.
    fn end_last(&mut self, last: usize)
        requires places { All (λ place. place < length self.old.folds.items) self.old.places.items }
        requires some { 0 < length self.old.places.items }
        ensures ended { HaveEnded (last + 1) (length self.old.places.items)
            self.old.places.items self.old.folds.items
            self.new.places.items self.new.folds.items }
        ensures left { length self.new.places.items + 1 ≡ length self.old.places.items }
        ensures places { All (λ place. place < length self.new.folds.items) self.new.places.items }
    {
        if let Some(place) = self.places.pop() {
            self.folds[place].last = last;
        }
    }

    /// Begins the folds that a line of this level has and the line before hasn't.
    fn begin_up_to(&mut self, level: usize, line: usize) -> Result<(), Memory>
        requires places { All (λ place. place < length self.old.folds.items) self.old.places.items }
        requires below { length self.old.places.items ≤ level }
        ensures begun { OnOk result (HaveBegun line (length self.old.places.items) level
            self.old.places.items self.old.folds.items
            self.new.places.items self.new.folds.items) }
        ensures risen { OnOk result (length self.new.places.items ≡ level) }
        ensures places { OnOk result
            (All (λ place. place < length self.new.folds.items) self.new.places.items) }
    {
        'begins: while self.places.len() < level {
            self.begin(line)?;
        }
        Ok(())
    }

    /// Begins a fold in those that go on.
    fn begin(&mut self, line: usize) -> Result<(), Memory>
        requires places { All (λ place. place < length self.old.folds.items) self.old.places.items }
        ensures begun { OnOk result (HaveBegun line
            (length self.old.places.items) (length self.old.places.items + 1)
            self.old.places.items self.old.folds.items
            self.new.places.items self.new.folds.items) }
        ensures risen { OnOk result
            (length self.new.places.items ≡ length self.old.places.items + 1) }
        ensures places { OnOk result
            (All (λ place. place < length self.new.folds.items) self.new.places.items) }
    {
        self.places.push(self.folds.len())?;
        self.folds.push(Fold {
            first: line,
            last: line,
            level: self.places.len(),
        })?;
        Ok(())
    }
}
