//! The marks that stand for each group.
ghost use Rattle.std.specs.Prelude.{◌≡◌, ℕ, ◌<◌, ◌++◌, ◌∷◌, [], length, slice_set, IfOk, OnOk};
ghost use Rattle.conceal_view.specs.MarkTables.{numbers_at};
ghost use Rattle.conceal_view.specs.Marking.{marks_by_group};

use crate::Mark;
use std::alloc::Global;
use std::marker::Model;
use syn_base::{GroupId, List, Memory};

/// For each group, by its number, the numbers of its marks in order, up to the greatest that has any.
#[derive(Drop)]
pub(crate) struct GroupMarks {
    numbers: Vec<List<u32>>,
}

impl Model for GroupMarks {
    ghost use Rattle.std.specs.Prelude.{List, ℕ};

    ghost Value = { List (List ℕ) };

    ghost view = { λ a. a.numbers.items };
}

impl GroupMarks {
    /// The marks of each group.
    pub(crate) fn of(alloc: Global, marks: &[Mark]) -> Result<GroupMarks, Memory>
        ensures { IfOk result (λ table. numbers_at table ≡ marks_by_group marks.now) }
    {
        let mut table = GroupMarks {
            numbers: Vec::new(alloc),
        };
        for mark in marks {
            table.reach(alloc, mark.shown)?;
            table.add(mark.shown, mark.number.0)?;
        }
        Ok(table)
    }

    /// Makes room for the group of this number.
    fn reach(&mut self, alloc: Global, group: GroupId) -> Result<(), Memory>
        ensures room { OnOk result (group.0 < length self.new) }
        ensures same { OnOk result
            ((g : ℕ) → numbers_at self.new g ≡ numbers_at self.old g) }
    {
        while self.numbers.len() <= group.0 as usize {
            self.numbers.push(List::new(alloc))?;
        }
        Ok(())
    }

    fn add(&mut self, group: GroupId, number: u32) -> Result<(), Memory>
        requires { group.0 < length self.old }
        ensures { OnOk result (self.new ≡ slice_set self.old group.0
            (numbers_at self.old group.0 ++ number ∷ [])) }
    {
        self.numbers[group.0 as usize].push(number)
    }

    pub(crate) fn of_group(&self, group: GroupId) -> &[u32]
        ensures { result.now ≡ numbers_at self.now group.0 }
    {
        match self.numbers.get(group.0 as usize) {
            Some(numbers) => numbers.as_slice(),
            None => &[],
        }
    }
}
