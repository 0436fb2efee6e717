//! A chunk: up to 512 elements, with room for all of them from the start.
ghost use Rattle.std.specs.Prelude.{◌≡◌, ◌==◌, ◌+◌, ◌<◌, ◌≤◌, [], ◌∷◌, ◌++◌, length, take, drop, set, slice_get, Some, IfOk, vec_capacity, vec_len};

use crate::moves::{cut, join, turn_over};
use std::alloc::Global;
use std::marker::Model;
use syn_base::Memory;

/// The most elements of a chunk.
pub(crate) const MOST: usize = 512;

/// Some elements, with room for `MOST`.
#[derive(Drop)]
pub(crate) struct Chunk<T> {
    items: Vec<T>,
}

impl<T> Model for Chunk<T> {
    ghost use Rattle.std.specs.Prelude.{List, ◌≤◌, length, vec_capacity};

    ghost Value = { List T };

    ghost view = { λ c. c.items.items };

    ghost invariant = { λ c. (length c.items.items ≤ 512) × (512 ≤ vec_capacity c.items) };
}

impl<T> Chunk<T> {
    /// A chunk without elements.
    pub(crate) fn new(alloc: Global) -> Result<Chunk<T>, Memory>
        ensures { IfOk result (λ c. c ≡ []) }
    {
        Ok(Chunk {
            items: Vec::with_capacity(alloc, MOST)?,
        })
    }

    /// How many elements it has.
    pub(crate) fn len(&self) -> usize
        ensures count { result ≡ length self.now }
        ensures few { length self.now ≤ 512 }
    {
        self.items.len()
    }

    /// Whether it has none.
    pub(crate) fn is_empty(&self) -> bool
        ensures { result ≡ (length self.now == 0) }
    {
        self.items.is_empty()
    }

    /// The element at `i`, from 0.
    pub(crate) fn get(&self, i: usize) -> &T
        requires { i < length self.now }
        ensures { Some result.now ≡ slice_get self.now i }
    {
        &self.items[i]
    }

    /// Puts an element at the end. It takes no memory.
    pub(crate) fn push(&mut self, x: T)
        requires { length self.old < 512 }
        ensures { self.new ≡ self.old ++ x ∷ [] }
    {
        self.items.push_reserved(x);
    }

    fn into_items(self) -> Vec<T>
        ensures { result.items ≡ self }
    {
        self.items
    }

    /// The elements from `at` on go into a chunk without elements. It takes no memory.
    pub(crate) fn move_tail(&mut self, to: &mut Chunk<T>, at: usize)
        requires inside { at ≤ length self.old }
        requires blank { to.old ≡ [] }
        ensures front { self.new ≡ take at self.old }
        ensures back { to.new ≡ drop at self.old }
    {
        turn_over(&mut self.items, &mut to.items, at);
    }
}

impl<T: Drop> Chunk<T> {
    /// Puts an element in the place of the one at `i`, from 0, which is dropped.
    pub(crate) fn set(&mut self, i: usize, x: T)
        requires { i < length self.old }
        ensures { self.new ≡ set self.old i x }
    {
        self.items[i] = x;
    }

    /// Puts the elements of another chunk at the end. It takes no memory.
    pub(crate) fn append(&mut self, other: Chunk<T>)
        requires { length self.old + length other ≤ 512 }
        ensures { self.new ≡ self.old ++ other }
    {
        let mut other = other.into_items();
        join(&mut self.items, &mut other);
    }

    /// Drops its elements, and keeps the room.
    pub(crate) fn clear(&mut self)
        ensures { self.new ≡ [] }
    {
        self.items.clear();
    }

    /// Takes out the elements from `from` up to, and without, `to`.
    pub(crate) fn cut_out(&mut self, from: usize, to: usize)
        requires { from ≤ to }
        ensures { self.new ≡ take from self.old ++ drop to self.old }
    {
        cut(&mut self.items, from, to);
    }
}
