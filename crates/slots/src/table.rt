//! Small entries by number.
ghost use Rattle.std.specs.Prelude.{◌≡◌, ◌≤◌, ℕ, None, length, IfSome, OnOk};
ghost use Rattle.slots.specs.Entries.{IsAt, IsPut};

use std::alloc::Global;
use syn_base::Memory;

/// Small entries by number, which stay. Each number up to the highest one that has an entry takes the
/// room of one.
#[derive(Drop)]
pub struct Table<E> {
    entries: Vec<Option<E>>,
}

impl<E: Copy> Table<E> {
    /// No number has an entry. It takes no memory.
    pub fn new(alloc: Global) -> Table<E>
        ensures { (number : ℕ) (entry : E) → IsAt result number entry → ⊥ }
    {
        Table {
            entries: Vec::new(alloc),
        }
    }

    /// The entry of a number.
    pub fn get(&self, number: usize) -> Option<E>
        ensures some { IfSome result (IsAt self.now number) }
        ensures none { result ≡ None → (entry : E) → IsAt self.now number entry → ⊥ }
    {
        *self.entries.get(number)?
    }

    /// Puts the entry of a number, in place of the one that it had. For want of memory no number has
    /// another entry than before.
    pub fn put(&mut self, number: usize, entry: E) -> Result<(), Memory>
        ensures here { OnOk result (IsAt self.new number entry) }
        ensures kept { IsPut (IsAt self.old) (IsAt self.new) number entry }
    {
        self.fill(number)?;
        if number < self.entries.len() {
            self.entries[number] = Some(entry);
        } else {
            self.entries.push(Some(entry))?;
        }
        Ok(())
    }

    /// Makes room for the numbers below one.
    fn fill(&mut self, number: usize) -> Result<(), Memory>
        ensures many { OnOk result (number ≤ length self.new.entries.items) }
        ensures kept { (k : ℕ) (entry : E) → IsAt self.new k entry → IsAt self.old k entry }
    {
        if self.entries.len() < number {
            self.entries.resize(number, None)?;
        }
        Ok(())
    }
}
