//! Numbers that are forgotten at once.
ghost use Rattle.std.specs.Prelude.{◌≡◌, ◌⊎◌, ◌<◌, ◌≤◌, ◌+◌, ◌/◌, ◌%◌, ℕ, length, IsFalse, IsTrue, OnOk, slice_get, Some};
ghost use Rattle.std.specs.Int.{bit_at};
ghost use Rattle.slots.specs.Entries.{IsMarked};

use std::alloc::Global;
use syn_base::Memory;

/// Some numbers, a bit for each. To forget them all takes constant time.
#[derive(Drop)]
pub struct Marks {
    pub(crate) words: Vec<u64>,
}

impl Marks {
    /// No number is among them. It takes no memory.
    pub fn new(alloc: Global) -> Marks
        ensures { (number : ℕ) → IsMarked result number → ⊥ }
    {
        Marks {
            words: Vec::new(alloc),
        }
    }

    /// Whether a number is among them.
    #[inline(always)]
    pub fn has(&self, number: usize) -> bool
        ensures marked { IsTrue result → IsMarked self.now number }
        ensures absent { IsFalse result → IsMarked self.now number → ⊥ }
    {
        match self.words.get(number / 64) {
            Some(word) => *word >> (number % 64) & 1 == 1,
            None => false,
        }
    }

    /// Forgets all of them.
    pub fn clear(&mut self)
        ensures { (number : ℕ) → IsMarked self.new number → ⊥ }
    {
        self.words.clear();
    }

    /// Makes so many words.
    #[inline(always)]
    fn fill(&mut self, many: usize) -> Result<(), Memory>
        ensures many { OnOk result (many ≤ length self.new.words.items) }
        ensures kept { (number : ℕ) → IsMarked self.new number → IsMarked self.old number }
        ensures before { (number : ℕ) → IsMarked self.old number → IsMarked self.new number }
    {
        if self.words.len() < many {
            self.grow(many)?;
        }
        Ok(())
    }

    /// Makes so many words where there are fewer.
    #[inline(never)]
    fn grow(&mut self, many: usize) -> Result<(), Memory>
        requires { length self.old.words.items < many }
        ensures many { OnOk result (many ≤ length self.new.words.items) }
        ensures kept { (number : ℕ) → IsMarked self.new number → IsMarked self.old number }
        ensures before { (number : ℕ) → IsMarked self.old number → IsMarked self.new number }
    {
        self.words.resize(many, 0)?;
        Ok(())
    }

    /// Puts a number among them. For want of memory no other is there than before.
    #[inline(always)]
    pub fn put(&mut self, number: usize) -> Result<(), Memory>
        ensures here { OnOk result (IsMarked self.new number) }
        ensures kept { (k : ℕ) → IsMarked self.new k → IsMarked self.old k ⊎ (k ≡ number) }
        ensures before { (k : ℕ) → IsMarked self.old k → IsMarked self.new k }
    {
        let at = number / 64;
        self.fill(at + 1)?;
        let bit: u64 = 1 << (number % 64);
        let word = self.words[at];
        self.words[at] = word | bit;
        Ok(())
    }
}
