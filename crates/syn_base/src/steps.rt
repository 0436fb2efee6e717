//! The count of painted lines. It takes no bytes when the program runs, and only `add_one`
//! changes it.
ghost use Rattle.std.specs.Prelude.{◌≡◌, ◌+◌, ◌<◌, ℕ};

use std::marker::Model;
use std::sync::ledger;
use std::sync::ledger::{Blank, Book, Share};

/// What counts ticks.
pub trait Ledger: Drop {
    /// How often it ticked.
    ghost count: { Self → ℕ };

    /// One tick more.
    fn tick(&mut self)
        ensures { count self.new ≡ count self.old + 1 };
}

/// A ledger with no bytes: it counts for proofs alone, over std's ledger tokens.
#[derive(Drop)]
pub struct NoLedger<B: ledger::Ledger> {
    book: Book<B>,
    share: Share<B>,
}

impl<B: ledger::Ledger> Model for NoLedger<B> {
    ghost Value = { ℕ };

    ghost view = { λ s. s.book.total };

    ghost invariant = { λ s. 0 < s.share.parts };
}

impl<B: ledger::Ledger> NoLedger<B> {
    /// A ledger that has not ticked, from a blank that no other ledger was opened from.
    pub fn open(blank: Blank) -> NoLedger<B>
        requires name { blank.name ≡ B.name }
        requires parts { blank.parts ≡ B.parts }
        requires some { 0 < blank.parts }
        ensures { result ≡ 0 }
    {
        let (book, share) = blank.open::<B>();
        NoLedger { book, share }
    }
}

impl<B: ledger::Ledger> Ledger for NoLedger<B> {
    ghost count = { λ s. s };

    fn tick(&mut self) {
        self.book.add(&mut self.share, 1);
    }
}

/// How many lines were painted, by a ledger.
#[derive(Drop)]
pub struct Steps<L: Ledger> {
    ledger: L,
}

impl<L: Ledger> Model for Steps<L> {
    ghost Value = { ℕ };

    ghost view = { λ s. L.count s.ledger };
}

impl<L: Ledger> Steps<L> {
    /// The count of a ledger.
    pub fn new(ledger: L) -> Steps<L>
        ensures { result ≡ L.count ledger }
    {
        Steps { ledger }
    }

    /// One more.
    pub fn add_one(&mut self)
        ensures { self.new ≡ self.old + 1 }
    {
        self.ledger.tick();
    }
}
