//! Small entries by two numbers.
ghost use Rattle.std.specs.Prelude.{◌≡◌, ◌≤◌, ℕ, length, IfSome, OnOk};
ghost use Rattle.slots.specs.Entries.{IsIn, IsPutIn};

use crate::table::Table;
use std::alloc::Global;
use syn_base::Memory;

/// Small entries by two numbers, which stay. Each row up to the highest one that has an entry takes
/// the room of a table.
#[derive(Drop)]
pub struct Grid<E> {
    alloc: Global,
    rows: Vec<Table<E>>,
}

impl<E: Copy> Grid<E> {
    /// It has no entry. It takes no memory.
    pub fn new(alloc: Global) -> Grid<E>
        ensures { (row number : ℕ) (entry : E) → IsIn result row number entry → ⊥ }
    {
        Grid {
            alloc,
            rows: Vec::new(alloc),
        }
    }

    /// The entry of a row at a number.
    #[inline(always)]
    pub fn get(&self, row: usize, number: usize) -> Option<E>
        ensures { IfSome result (IsIn self.now row number) }
    {
        self.rows.get(row)?.get(number)
    }

    /// Puts the entry of a row at a number, in place of the one that was there. For want of memory no
    /// other entry is there than before.
    pub fn put(&mut self, row: usize, number: usize, entry: E) -> Result<(), Memory>
        ensures here { OnOk result (IsIn self.new row number entry) }
        ensures kept { IsPutIn (IsIn self.old) (IsIn self.new) row number entry }
    {
        self.fill(row)?;
        if row < self.rows.len() {
            self.rows[row].put(number, entry)
        } else {
            self.push(number, entry)
        }
    }

    /// Makes the rows below one.
    fn fill(&mut self, row: usize) -> Result<(), Memory>
        ensures many { OnOk result (row ≤ length self.new.rows.items) }
        ensures kept { (j k : ℕ) (entry : E) → IsIn self.new j k entry → IsIn self.old j k entry }
    {
        for _ in self.rows.len()..row {
            self.rows.push(Table::new(self.alloc))?;
        }
        Ok(())
    }

    /// Makes one row more, with an entry at a number.
    fn push(&mut self, number: usize, entry: E) -> Result<(), Memory>
        ensures here { OnOk result (IsIn self.new (length self.old.rows.items) number entry) }
        ensures kept { IsPutIn (IsIn self.old) (IsIn self.new) (length self.old.rows.items) number
            entry }
    {
        let mut table = Table::new(self.alloc);
        table.put(number, entry)?;
        self.rows.push(table)?;
        Ok(())
    }
}
