//! Entries by number that are forgotten at once.
ghost use Rattle.std.specs.Prelude.{◌≡◌, ◌⊎◌, ◌<◌, ℕ, None, Some, length, slice_get, IfSome, OnOk};
ghost use Rattle.slots.specs.Entries.{Has, IsFound, IsPut, IsNoted};

use std::alloc::Global;
use syn_base::Memory;

/// An entry, which says itself of which number it is.
#[derive(Drop)]
pub(crate) struct Slot<E> {
    number: usize,
    pub(crate) entry: E,
}

/// Entries by number: a number that has none takes the room of a place. To forget them all takes
/// constant time where an entry needs no drop.
#[derive(Drop)]
pub struct Slots<E> {
    pub(crate) list: Vec<Slot<E>>,
    /// Where the entry of a number would stand in the list.
    places: Vec<usize>,
}

/// Notes the place of a number. Numbers below it that had none have the same one.
fn note(places: &mut Vec<usize>, number: usize, place: usize) -> Result<(), Memory>
    ensures here { OnOk result (slice_get places.new.items number ≡ Some place) }
    ensures kept { IsNoted places.old.items places.new.items place }
{
    if places.len() <= number {
        places.resize(number, place)?;
        places.push(place)?;
    } else {
        places[number] = place;
    }
    Ok(())
}

impl<E> Slots<E> {
    /// No number has an entry. It takes no memory.
    pub fn new(alloc: Global) -> Slots<E>
        ensures { (number : ℕ) (entry : E) → Has result number entry → ⊥ }
    {
        Slots {
            list: Vec::new(alloc),
            places: Vec::new(alloc),
        }
    }

    /// The entry of a number.
    pub fn get(&self, number: usize) -> Option<&E>
        ensures some { IfSome result (λ entry. Has self.now number entry.now) }
        ensures none { result ≡ None → (entry : E) → Has self.now number entry → ⊥ }
    {
        let slot = self.list.get(*self.places.get(number)?)?;
        if slot.number == number {
            Some(&slot.entry)
        } else {
            None
        }
    }

    /// Where the entry of a number stands in the list.
    pub(crate) fn place(&self, number: usize) -> Option<usize>
        ensures { IfSome result (IsFound self.now number) }
    {
        let place = *self.places.get(number)?;
        if place < self.list.len() && self.list[place].number == number {
            Some(place)
        } else {
            None
        }
    }
}

impl<E: Drop> Slots<E> {
    /// Forgets all entries.
    pub fn clear(&mut self)
        ensures { (number : ℕ) (entry : E) → Has self.new number entry → ⊥ }
    {
        self.list.clear();
    }

    /// Puts the entry of a number, in place of the one that it had. For want of memory it is dropped,
    /// and no number has another entry than before.
    pub fn put(&mut self, number: usize, entry: E) -> Result<(), Memory>
        ensures here { OnOk result (Has self.new number entry) }
        ensures kept { IsPut (Has self.old) (Has self.new) number entry }
    {
        match self.place(number) {
            Some(place) => {
                self.list[place].entry = entry;
                return Ok(());
            }
            None => {}
        }
        note(&mut self.places, number, self.list.len())?;
        self.list.push(Slot { number, entry })?;
        Ok(())
    }
}
