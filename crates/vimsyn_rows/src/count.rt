//! A ledger that counts as the program runs.
ghost use Rattle.std.specs.Prelude.{◌≡◌, ◌+◌, ◌<◌};

use std::sync::ledger;
use std::sync::ledger::Blank;
use syn_base::{Ledger, NoLedger};

/// Counts painted lines in a number of the caller's, up to the greatest one, beside the ledger that counts
/// for proofs.
#[derive(Drop)]
pub(crate) struct LineCount<'c, B: ledger::Ledger> {
    ledger: NoLedger<B>,
    count: &'c mut u64,
}

impl<'c, B: ledger::Ledger> LineCount<'c, B> {
    /// A ledger that has not ticked, from a blank that no other ledger was opened from. What it ticks is
    /// added to the number.
    pub(crate) fn open(blank: Blank, count: &'c mut u64) -> LineCount<'c, B>
        requires name { blank.name ≡ B.name }
        requires parts { blank.parts ≡ B.parts }
        requires some { 0 < blank.parts }
    {
        let ledger = NoLedger::open(blank);
        LineCount { ledger, count }
    }
}

impl<'c, B: ledger::Ledger> Ledger for LineCount<'c, B> {
    ghost count = { λ s. s.ledger };

    fn tick(&mut self) {
        self.ledger.tick();
        *self.count = self.count.saturating_add(1);
    }
}
