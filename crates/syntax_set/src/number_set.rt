//! Numbers of groups or clusters, each once, in the order in which they came.
ghost use Rattle.std.specs.Prelude.{◌≡◌, [], length, take, IfOk, OnOk, OnErr};
ghost use Rattle.syntax_set.specs.Numbers.{has_number, with_number, without};

use indexmap::IndexSet;
use std::alloc::Global;
use std::marker::Model;
use syn_base::Memory;

/// Numbers, which contracts see as a list.
#[derive(Drop)]
pub(crate) struct NumberSet {
    numbers: IndexSet<u32>,
}

impl Model for NumberSet {
    ghost use Rattle.std.specs.Prelude.{List, ℕ};

    ghost Value = { List ℕ };

    ghost view = { λ a. a.numbers.keys };

    ghost use Rattle.std.specs.Prelude.{◌≡◌, []};
    ghost use Rattle.syntax_set.specs.Numbers.{with_numbers};

    // each number stands once
    ghost invariant = { λ a. with_numbers [] a.numbers.keys ≡ a.numbers.keys };
}

impl NumberSet {
    /// No numbers. It takes no memory.
    pub(crate) fn new(alloc: Global) -> NumberSet
        ensures { result ≡ [] }
    {
        NumberSet {
            numbers: IndexSet::new(alloc),
        }
    }

    pub(crate) fn len(&self) -> usize
        ensures { result ≡ length self.now }
    {
        self.numbers.len()
    }

    pub(crate) fn as_slice(&self) -> &[u32]
        ensures { result.now ≡ self.now }
    {
        self.numbers.as_slice()
    }

    pub(crate) fn contains(&self, number: u32) -> bool
        ensures { result ≡ has_number self.now number }
    {
        self.numbers.contains(&number)
    }

    /// Puts a number at the end, unless it is there.
    pub(crate) fn insert(&mut self, number: u32) -> Result<(), Memory>
        ensures ok { OnOk result (self.new ≡ with_number self.old number) }
        ensures err { OnErr result (self.new ≡ self.old) }
    {
        self.numbers.insert(number)?;
        Ok(())
    }

    /// The numbers that aren't among the others.
    pub(crate) fn without(&self, alloc: Global, others: &NumberSet) -> Result<NumberSet, Memory>
        ensures { IfOk result (λ left. left ≡ without self.now others.now) }
    {
        let mut left = NumberSet::new(alloc);
        for number in self.as_slice() {
            if !others.contains(*number) {
                left.insert(*number)?;
            }
        }
        Ok(left)
    }

    /// Takes away the numbers from a place on.
    pub(crate) fn truncate(&mut self, place: usize)
        ensures { self.new ≡ take place self.old }
    {
        self.numbers.truncate(place);
    }
}
