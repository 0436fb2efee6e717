//! The list.
ghost use Rattle.std.specs.Prelude.{◌≡◌, ◌+◌, ◌*◌, ◌-◌, ◌<◌, ◌≤◌, ◌^◌, [], ◌∷◌, ◌++◌, length, set, slice_get, vec_capacity, vec_len, Some, IfOk, OnOk, OnErr};
ghost use Rattle.chunk_list.specs.Replaced.{replaced};

use crate::chunk::{Chunk, MOST};
use crate::chunks::{join_at, put_in, take_out};
use crate::ends::{chunk_of, even_count, has_room, note_ends, push_last, start_of};
use std::alloc::Global;
use std::marker::Model;
use syn_base::{List, Memory};

/// A list of fewer than 2^32 elements in chunks. Contracts see the list, and for how many more elements
/// room was made.
#[derive(Drop)]
pub struct ChunkList<T> {
    alloc: Global,
    chunks: Vec<Chunk<T>>,
    /// Where each chunk ends in the list.
    ends: Vec<usize>,
    /// How many elements the full chunks at the front have, with those of the chunk behind them.
    even: usize,
    /// Chunks that were made before.
    empty: Vec<Chunk<T>>,
    spare: usize,
}

impl<T> Model for ChunkList<T> {
    ghost use Rattle.std.specs.Prelude.{List, ◌-◌, ℕ, vec_capacity, vec_len};
    ghost use Rattle.chunk_list.specs.Flat.{flat};
    ghost use Rattle.chunk_list.specs.Stands.{Stands};

    ghost Value = { List T × ℕ };

    ghost view = { λ l. (flat l.chunks.items, l.spare) };

    ghost invariant = { λ l. Stands l.chunks.items l.ends.items l.even l.spare (vec_len l.empty)
        (vec_capacity l.chunks - vec_len l.chunks) (vec_capacity l.ends - vec_len l.ends) };
}

impl<T> ChunkList<T> {
    /// A list without elements. It takes no memory.
    pub fn new(alloc: Global) -> ChunkList<T>
        ensures { result.0 ≡ [] }
    {
        ChunkList {
            alloc,
            chunks: Vec::new(alloc),
            ends: Vec::new(alloc),
            even: 0,
            empty: Vec::new(alloc),
            spare: 0,
        }
    }

    /// How many elements there are.
    pub fn len(&self) -> usize
        ensures count { result ≡ length self.now.0 }
        ensures few { result < 2 ^ 32 }
    {
        let count = self.ends.len();
        if count == 0 { 0 } else { self.ends[count - 1] }
    }

    /// The element at `i`, from 0.
    pub fn get(&self, i: usize) -> &T
        requires { i < length self.now.0 }
        ensures { Some result.now ≡ slice_get self.now.0 i }
    {
        if i < self.even {
            self.chunks[i / MOST].get(i % MOST)
        } else {
            self.uneven(i)
        }
    }

    /// An element wherever it stands.
    #[inline(never)]
    fn uneven(&self, i: usize) -> &T
        requires { i < length self.now.0 }
        ensures { Some result.now ≡ slice_get self.now.0 i }
    {
        let chunk = chunk_of(&self.ends, i);
        self.chunks[chunk].get(i - start_of(&self.ends, chunk))
    }
}

impl<T: Drop> ChunkList<T> {
    /// A list of these elements.
    pub fn from_list(alloc: Global, list: List<T>) -> Result<ChunkList<T>, Memory>
        requires { length list < 2 ^ 32 }
        ensures { IfOk result (λ chunks. chunks.0 ≡ list) }
    {
        let mut chunks = ChunkList::new(alloc);
        chunks.reserve(list.len())?;
        chunks.replace_reserved(0, 0, list);
        Ok(chunks)
    }

    /// Makes room for some elements, or, for want of memory, changes nothing.
    pub fn reserve(&mut self, extra: usize) -> Result<(), Memory>
        ensures list { self.new.0 ≡ self.old.0 }
        ensures room { OnOk result (extra ≤ self.new.1) }
        ensures refused { OnErr result (self.new ≡ self.old) }
    {
        if extra > self.spare {
            let count = extra / MOST + 2;
            make_chunks(self.alloc, &mut self.empty, count)?;
            self.chunks.reserve(count)?;
            self.ends.reserve(count)?;
            self.spare = extra;
        }
        Ok(())
    }

    /// Puts another element in the place of the one at `i`, from 0. It takes no memory.
    pub fn set(&mut self, i: usize, x: T)
        requires { i < length self.old.0 }
        ensures list { self.new.0 ≡ set self.old.0 i x }
        ensures spare { self.new.1 ≡ self.old.1 }
    {
        let chunk = chunk_of(&self.ends, i);
        let start = start_of(&self.ends, chunk);
        self.chunks[chunk].set(i - start, x);
    }

    /// Puts an element at the end.
    pub fn push(&mut self, x: T) -> Result<(), Memory>
        requires { length self.old.0 + 1 < 2 ^ 32 }
        ensures list { OnOk result (self.new.0 ≡ self.old.0 ++ x ∷ []) }
        ensures refused { OnErr result (self.new ≡ self.old) }
    {
        if has_room(&self.chunks) {
            self.even = push_last(&mut self.chunks, &mut self.ends, self.even, x);
            return Ok(());
        }
        let chunk = Chunk::new(self.alloc)?;
        self.chunks.reserve(1)?;
        self.ends.reserve(1)?;
        let end = self.len();
        self.chunks.push_reserved(chunk);
        self.ends.push_reserved(end);
        self.even = push_last(&mut self.chunks, &mut self.ends, self.even, x);
        self.spare = 0;
        Ok(())
    }

    /// Elements `a` to `b - 1` become `new`. It takes no memory: the room was made before.
    pub fn replace_reserved(&mut self, a: usize, b: usize, new: List<T>)
        requires ordered { a ≤ b }
        requires inside { b ≤ length self.old.0 }
        requires room { length new ≤ self.old.1 }
        requires few { length (replaced self.old.0 a b new) < 2 ^ 32 }
        ensures { self.new.0 ≡ replaced self.old.0 a b new }
    {
        let count = new.len();
        take_out(&mut self.chunks, a, b);
        put_in(&mut self.chunks, &mut self.empty, a, new.into_vec());
        join_at(&mut self.chunks, a + count);
        join_at(&mut self.chunks, a);
        note_ends(&self.chunks, &mut self.ends);
        self.even = even_count(&self.chunks);
        self.spare = 0;
    }
}

/// Makes so many chunks, with those that stand.
fn make_chunks<T: Drop>(
    alloc: Global,
    chunks: &mut Vec<Chunk<T>>,
    count: usize,
) -> Result<(), Memory>
    ensures made { OnOk result (count ≤ vec_len chunks.new) }
    ensures kept { vec_len chunks.old ≤ vec_len chunks.new }
{
    'more: while chunks.len() < count {
        chunks.push(Chunk::new(alloc)?)?;
    }
    Ok(())
}
