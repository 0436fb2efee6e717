//! A list of values, which contracts see as a list.
ghost use Rattle.std.specs.Prelude.{◌≡◌, ◌==◌, ◌<◌, [], ◌∷◌, ◌++◌, length, slice_get, Some, IfOk, OnOk, OnErr};
ghost use Rattle.std.specs.Str.{chars};

use crate::Memory;
use std::alloc::Global;
use std::marker::Model;

/// A list of values over a `Vec`.
#[derive(Drop)]
pub struct List<T> {
    values: Vec<T>,
}

impl<T> Model for List<T> {
    ghost use Rattle.std.specs.Prelude.{List};

    ghost Value = { List T };

    ghost view = { λ a. a.values.items };
}

impl<T> List<T> {
    /// An empty list. It takes no memory.
    pub fn new(alloc: Global) -> List<T>
        ensures { result ≡ [] }
    {
        List {
            values: Vec::new(alloc),
        }
    }

    /// The list of a `Vec`'s elements. It takes no memory.
    pub fn from_vec(values: Vec<T>) -> List<T>
        ensures { result ≡ values.items }
    {
        List { values }
    }

    /// The `Vec` of the list's elements. It takes no memory.
    pub fn into_vec(self) -> Vec<T>
        ensures { result.items ≡ self }
    {
        self.values
    }

    /// How many elements there are.
    pub fn len(&self) -> usize
        ensures { result ≡ length self.now }
    {
        self.values.len()
    }

    /// Whether there are none.
    pub fn is_empty(&self) -> bool
        ensures { result ≡ (length self.now == 0) }
    {
        self.values.is_empty()
    }

    /// The elements in order.
    pub fn as_slice(&self) -> &[T]
        ensures { result.now ≡ self.now }
    {
        self.values.as_slice()
    }

    /// The element at `i`, from 0.
    pub fn get(&self, i: usize) -> &T
        requires { i < length self.now }
        ensures { Some result.now ≡ slice_get self.now i }
    {
        &self.values[i]
    }
}

impl<T: Drop> List<T> {
    /// Puts `x` at the end. For want of memory `x` is dropped.
    pub fn push(&mut self, x: T) -> Result<(), Memory>
        ensures ok { OnOk result (self.new ≡ self.old ++ x ∷ []) }
        ensures err { OnErr result (self.new ≡ self.old) }
    {
        self.values.push(x)?;
        Ok(())
    }
}

impl<T: Copy> List<T> {
    /// A list of these elements.
    pub fn from_slice(alloc: Global, values: &[T]) -> Result<List<T>, Memory>
        ensures { IfOk result (λ list. list ≡ values.now) }
    {
        Ok(List {
            values: Vec::from_slice(alloc, values)?,
        })
    }

    /// Puts these elements at the end, all of them or, for want of memory, none.
    pub fn extend_from_slice(&mut self, more: &[T]) -> Result<(), Memory>
        ensures ok { OnOk result (self.new ≡ self.old ++ more.now) }
        ensures err { OnErr result (self.new ≡ self.old) }
    {
        self.values.extend_from_slice(more)?;
        Ok(())
    }
}

impl List<char> {
    /// The characters of a text.
    pub fn from_chars(alloc: Global, text: &str) -> Result<List<char>, Memory>
        ensures { IfOk result (λ list. list ≡ chars text.now) }
    {
        let mut characters = Vec::with_capacity(alloc, text.len())?;
        characters.extend(text.chars())?;
        if characters.len() < text.len() {
            characters.shrink_to_fit();
        }
        Ok(List::from_vec(characters))
    }
}
