//! Chunks, one after the other: what is taken out of the list that they are, and what is put in.
ghost use Rattle.std.specs.Prelude.{◌≡◌, ◌==◌, ◌+◌, ◌*◌, ◌-◌, ◌<◌, ◌≤◌, [], ◌++◌, length, take, drop, filter, not, vec_capacity, vec_len};
ghost use Rattle.chunk_list.specs.Flat.{IsCut, IsPlace, IsPut, cut_of, flat};

use crate::chunk::{Chunk, MOST};
use crate::moves::turn;

/// A place of a list in chunks: `within` places into a chunk.
#[derive(Clone, Copy)]
pub(crate) struct Place {
    pub(crate) chunk: usize,
    pub(crate) within: usize,
}

/// The place of an index.
fn place_of<T>(chunks: &Vec<Chunk<T>>, at: usize) -> Place
    requires { at ≤ length (flat chunks.now.items) }
    ensures { IsPlace chunks.now.items result.chunk result.within at }
{
    let mut left = at;
    for (i, chunk) in chunks.iter().enumerate() {
        let here = chunk.len();
        if left < here {
            return Place {
                chunk: i,
                within: left,
            };
        }
        left -= here;
    }
    Place {
        chunk: chunks.len(),
        within: 0,
    }
}

/// Makes a cut at a place: the answer is the number of chunks before it.
fn split<T: Drop>(chunks: &mut Vec<Chunk<T>>, empty: &mut Vec<Chunk<T>>, at: usize) -> usize
    requires inside { at ≤ length (flat chunks.old.items) }
    requires room { vec_len chunks.old < vec_capacity chunks.old }
    requires spare { 0 < vec_len empty.old }
    ensures same { flat chunks.new.items ≡ flat chunks.old.items }
    ensures cut { IsCut chunks.new.items result at }
    ensures room { vec_capacity chunks.new ≡ vec_capacity chunks.old }
    ensures count { vec_len chunks.new ≤ vec_len chunks.old + 1 }
    ensures spare { vec_len empty.old ≤ vec_len empty.new + 1 }
{
    let p = place_of(chunks, at);
    if p.within == 0 {
        return p.chunk;
    }
    let mut tail = empty.take_last();
    tail.clear();
    chunks[p.chunk].move_tail(&mut tail, p.within);
    let _ = chunks.insert(p.chunk + 1, tail);
    p.chunk + 1
}

/// Puts elements behind the others, in chunks that were made before.
fn fill<T: Drop>(chunks: &mut Vec<Chunk<T>>, empty: &mut Vec<Chunk<T>>, new: Vec<T>)
    requires some { 0 < length new.items }
    requires spare { length new.items ≤ 512 * vec_len empty.old }
    requires room { length new.items ≤ 512 * (vec_capacity chunks.old - vec_len chunks.old) }
    ensures items { flat (drop (vec_len chunks.old) chunks.new.items) ≡ new.items }
    ensures behind { take (vec_len chunks.old) chunks.new.items ≡ chunks.old.items }
    ensures room { vec_capacity chunks.new ≡ vec_capacity chunks.old }
    ensures count { 512 * vec_len chunks.new < 512 * vec_len chunks.old + length new.items + 512 }
{
    let mut chunk = take_empty(empty);
    for x in new {
        put_one(chunks, empty, &mut chunk, x);
    }
    chunks.push_reserved(chunk);
}

/// Puts an element into the open chunk, or where this one is full into the next one.
fn put_one<T: Drop>(
    chunks: &mut Vec<Chunk<T>>,
    empty: &mut Vec<Chunk<T>>,
    chunk: &mut Chunk<T>,
    x: T,
)
    requires spare { length chunk.old ≡ 512 → 0 < vec_len empty.old }
    requires room { length chunk.old ≡ 512 → vec_len chunks.old < vec_capacity chunks.old }
    ensures put { IsPut x chunks.old.items (vec_len empty.old) chunk.old
        chunks.new.items (vec_len empty.new) chunk.new }
    ensures room { vec_capacity chunks.new ≡ vec_capacity chunks.old }
{
    if chunk.len() == MOST {
        let full = std::mem::replace(chunk, take_empty(empty));
        chunks.push_reserved(full);
    }
    chunk.push(x);
}

/// One of the chunks that were made before.
fn take_empty<T: Drop>(empty: &mut Vec<Chunk<T>>) -> Chunk<T>
    requires { 0 < vec_len empty.old }
    ensures blank { result ≡ [] }
    ensures one { vec_len empty.new + 1 ≡ vec_len empty.old }
{
    let mut chunk = empty.take_last();
    chunk.clear();
    chunk
}

/// Puts elements in before place `at`. Without new elements no chunk is cut.
pub(crate) fn put_in<T: Drop>(
    chunks: &mut Vec<Chunk<T>>,
    empty: &mut Vec<Chunk<T>>,
    at: usize,
    new: Vec<T>,
)
    requires inside { at ≤ length (flat chunks.old.items) }
    requires spare { length new.items ≤ 512 * (vec_len empty.old - 1) }
    requires room { length new.items ≤ 512 * (vec_capacity chunks.old - vec_len chunks.old - 1) }
    ensures items { flat chunks.new.items
        ≡ take at (flat chunks.old.items) ++ new.items ++ drop at (flat chunks.old.items) }
    ensures room { vec_capacity chunks.new ≡ vec_capacity chunks.old }
    ensures count { 512 * vec_len chunks.new < 512 * (vec_len chunks.old + 2) + length new.items }
    ensures none { length new.items ≡ 0 → vec_len chunks.new ≡ vec_len chunks.old }
{
    if new.is_empty() {
        return;
    }
    let before = split(chunks, empty, at);
    let behind = chunks.len() - before;
    fill(chunks, empty, new);
    turn(chunks, before, behind);
}

/// Takes out the elements from `a` up to, and without, `b`.
pub(crate) fn take_out<T: Drop>(chunks: &mut Vec<Chunk<T>>, a: usize, b: usize)
    requires { a ≤ b }
    ensures items { flat chunks.new.items
        ≡ take a (flat chunks.old.items) ++ drop b (flat chunks.old.items) }
    ensures room { vec_capacity chunks.new ≡ vec_capacity chunks.old }
    ensures count { vec_len chunks.new ≤ vec_len chunks.old }
{
    if a < b {
        cut_chunks(chunks, a, b);
        drop_empty(chunks);
    }
}

/// Drops the chunks without elements.
fn drop_empty<T: Drop>(chunks: &mut Vec<Chunk<T>>)
    ensures items { chunks.new.items
        ≡ filter (λ chunk. not (length chunk == 0)) chunks.old.items }
    ensures room { vec_capacity chunks.new ≡ vec_capacity chunks.old }
    ensures count { vec_len chunks.new ≤ vec_len chunks.old }
{
    chunks.retain(|chunk| !chunk.is_empty());
}

/// The same, where chunks without elements stay.
fn cut_chunks<T: Drop>(chunks: &mut Vec<Chunk<T>>, a: usize, b: usize)
    requires { a ≤ b }
    ensures items { chunks.new.items ≡ cut_of chunks.old.items a b }
    ensures room { vec_capacity chunks.new ≡ vec_capacity chunks.old }
    ensures count { vec_len chunks.new ≡ vec_len chunks.old }
{
    let mut from = a;
    let mut to = b;
    for i in 0..chunks.len() {
        let here = chunks[i].len();
        chunks[i].cut_out(from, to);
        from = from.saturating_sub(here);
        to = to.saturating_sub(here);
    }
}

/// Joins the chunk of a place with its neighbours, where one chunk has room for both.
pub(crate) fn join_at<T: Drop>(chunks: &mut Vec<Chunk<T>>, at: usize)
    requires { at ≤ length (flat chunks.old.items) }
    ensures same { flat chunks.new.items ≡ flat chunks.old.items }
    ensures room { vec_capacity chunks.new ≡ vec_capacity chunks.old }
    ensures count { vec_len chunks.new ≤ vec_len chunks.old }
{
    let place = place_of(chunks, at);
    join(chunks, place.chunk + 1);
    join(chunks, place.chunk);
}

/// Joins chunk `i` with the one before it, where one chunk has room for both.
fn join<T: Drop>(chunks: &mut Vec<Chunk<T>>, i: usize)
    ensures same { flat chunks.new.items ≡ flat chunks.old.items }
    ensures room { vec_capacity chunks.new ≡ vec_capacity chunks.old }
    ensures count { vec_len chunks.new ≤ vec_len chunks.old }
{
    if i == 0 || i >= chunks.len() {
        return;
    }
    if chunks[i - 1].len() + chunks[i].len() <= MOST {
        let next = chunks.remove(i);
        chunks[i - 1].append(next);
    }
}
