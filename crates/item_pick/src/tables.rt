//! What is kept of a syntax: which items may start by what stands at a column.
ghost use Rattle.std.specs.Prelude.{◌≡◌, IfSome};
ghost use Rattle.std.specs.List.{All};
ghost use Rattle.item_pick.specs.Common.{Rules, ChoiceFits, AreTablesOf, RowStands, rules_by};

use crate::asked::Asked;
use crate::choice::Choice;
use crate::firsts::Firsts;
use crate::needs::Wanted;
use crate::rows::{ANY, Row};
use region_ends::KeyAnswers;
use slots::{Grid, Table};
use std::alloc::Global;
use syn_base::Memory;

/// What is kept of a syntax and a budget from line to line: by what is allowed and what stands at a
/// column, the items that may start there. It is made as it is asked.
#[derive(Drop)]
pub(crate) struct Tables {
    alloc: Global,
    /// Each says itself of what it is.
    rows: Vec<Row>,
    /// Where a row stands in them, by the number of its choice and that of its key.
    places: Grid<u32>,
    /// Whether an item can't start.
    outs: KeyAnswers,
    /// Whether no skip or end of a region fits.
    pub(crate) shut: KeyAnswers,
    /// What is known of attempts by first start patterns.
    pub(crate) firsts: Firsts,
    /// What lines must hold so that some items have a match in them.
    pub(crate) wanted: Vec<Wanted>,
    /// How many times it was asked for, by the number of the item.
    pub(crate) times: Table<u8>,
    /// Whether each word starts a keyword, once it was asked.
    pub(crate) by_word: Option<bool>,
}

impl Tables {
    /// Nothing is kept. It takes no memory.
    pub(crate) fn new(alloc: Global) -> Tables
        ensures { (r : Rules) → AreTablesOf r result }
    {
        Tables {
            alloc,
            rows: Vec::new(alloc),
            places: Grid::new(alloc),
            outs: KeyAnswers::new(alloc),
            shut: KeyAnswers::new(alloc),
            firsts: Firsts::new(alloc),
            wanted: Vec::new(alloc),
            times: Table::new(alloc),
            by_word: None,
        }
    }

    /// The place of a row.
    #[inline(always)]
    fn place(&self, choice: Choice, number: u16) -> Option<usize> {
        let place = self.places.get(number_of(choice), number as usize)?;
        Some(place as usize)
    }

    /// A row, if it was made.
    #[inline(always)]
    pub(crate) fn row(&self, choice: Choice, number: u16) -> Option<&Row>
        ensures choice { IfSome result (λ row. row.now.choice ≡ choice) }
        ensures number { IfSome result (λ row. row.now.number ≡ number) }
        ensures stands { (r : Rules) → AreTablesOf r self.now →
            IfSome result (λ row. RowStands r row.now) }
    {
        let place = self.place(choice, number)?;
        row_at(self.rows.as_slice(), place, choice, number)
    }

    /// Keeps a row.
    fn keep(&mut self, row: Row) -> Result<(), Memory>
        ensures { (r : Rules) → AreTablesOf r self.old → RowStands r row → AreTablesOf r self.new }
    {
        let Ok(place) = u32::try_from(self.rows.len()) else {
            return Err(Memory);
        };
        self.places
            .put(number_of(row.choice), row.number as usize, place)?;
        self.rows.push(row)?;
        Ok(())
    }

    /// Makes the row of all items of a choice, unless it was made.
    fn make_whole(&mut self, asked: &Asked, choice: Choice) -> Result<(), Memory>
        requires choice { ChoiceFits (rules_by asked.now) choice }
        requires stands { AreTablesOf (rules_by asked.now) self.old }
        ensures { AreTablesOf (rules_by asked.now) self.new }
    {
        if self.row(choice, ANY).is_some() {
            return Ok(());
        }
        let items = asked.listed(self.alloc, choice, ANY)?;
        let wandering = asked.those(self.alloc, items.as_slice(), true)?;
        let wordless = self.has_no_word(asked, choice);
        let cheap = asked.start_cheaply(items.as_slice());
        let row = asked.row(
            self.alloc,
            choice,
            ANY,
            items,
            Some(wandering),
            wordless,
            cheap,
        )?;
        self.keep(row)
    }

    /// Makes a row that wasn't made yet.
    pub(crate) fn make(&mut self, asked: &Asked, choice: Choice, number: u16) -> Result<(), Memory>
        requires choice { ChoiceFits (rules_by asked.now) choice }
        requires stands { AreTablesOf (rules_by asked.now) self.old }
        ensures { AreTablesOf (rules_by asked.now) self.new }
    {
        self.make_whole(asked, choice)?;
        let Some(place) = self.place(choice, ANY) else {
            return Ok(());
        };
        let items = match row_at(self.rows.as_slice(), place, choice, ANY) {
            Some(all) => asked.narrowed(self.alloc, all, number, &mut self.outs)?,
            None => return Ok(()),
        };
        let row = asked.row(self.alloc, choice, number, items, None, false, false)?;
        self.keep(row)
    }
}

/// A row, if it stands at a place of some rows.
#[inline(always)]
fn row_at(rows: &[Row], place: usize, choice: Choice, number: u16) -> Option<&Row>
    ensures choice { IfSome result (λ row. row.now.choice ≡ choice) }
    ensures number { IfSome result (λ row. row.now.number ≡ number) }
    ensures stands { (r : Rules) → All (RowStands r) rows.now →
        IfSome result (λ row. RowStands r row.now) }
{
    let row = rows.get(place)?;
    if row.choice == choice && row.number == number {
        Some(row)
    } else {
        None
    }
}

/// The number of a choice.
fn number_of(choice: Choice) -> usize {
    match choice {
        Choice::Within(None) => 0,
        Choice::NoItem => 1,
        Choice::Within(Some(item)) => 2 * item.0 as usize + 2,
        Choice::ListOf(item) => 2 * item.0 as usize + 3,
    }
}
