//! Where chunks end in the list that they are: the chunk of an element is found by halving.
ghost use Rattle.std.specs.Prelude.{◌≡◌, ◌+◌, ◌<◌, ◌≤◌, ◌-◌, ◌^◌, ◌∷◌, ◌++◌, [], IsTrue, length, slice_index, vec_capacity, vec_len};
ghost use Rattle.chunk_list.specs.Flat.{HasRoom, Holds, ends_from, even_of, flat, start_in};

use crate::chunk::{Chunk, MOST};

/// Notes where each chunk ends.
pub(crate) fn note_ends<T>(chunks: &Vec<Chunk<T>>, ends: &mut Vec<usize>)
    requires few { length (flat chunks.now.items) < 2 ^ 32 }
    requires room { vec_len chunks.now ≤ vec_capacity ends.old }
    ensures ends { ends.new.items ≡ ends_from 0 chunks.now.items }
    ensures room { vec_capacity ends.new ≡ vec_capacity ends.old }
{
    ends.clear();
    let mut end = 0;
    for chunk in chunks {
        end += chunk.len();
        ends.push_reserved(end);
    }
}

/// How many elements the full chunks at the front have, with those of the chunk behind them: each of
/// them stands where it does in a list all of whose chunks are full.
pub(crate) fn even_count<T>(chunks: &Vec<Chunk<T>>) -> usize
    requires { length (flat chunks.now.items) < 2 ^ 32 }
    ensures { result ≡ even_of chunks.now.items }
{
    let mut count = 0;
    for chunk in chunks {
        count += chunk.len();
        if chunk.len() < MOST {
            return count;
        }
    }
    count
}

/// Whether the last chunk has room for one more element.
pub(crate) fn has_room<T>(chunks: &Vec<Chunk<T>>) -> bool
    ensures { IsTrue result → HasRoom chunks.now.items }
{
    match chunks.last() {
        Some(chunk) => chunk.len() < MOST,
        None => false,
    }
}

/// Puts an element into the last chunk, which has room for it. The answer is how many elements stand
/// then as if all chunks were full.
pub(crate) fn push_last<T: Drop>(
    chunks: &mut Vec<Chunk<T>>,
    ends: &mut Vec<usize>,
    even: usize,
    x: T,
) -> usize
    requires room { HasRoom chunks.old.items }
    requires few { length (flat chunks.old.items) + 1 < 2 ^ 32 }
    requires ends { ends.old.items ≡ ends_from 0 chunks.old.items }
    requires even { even ≡ even_of chunks.old.items }
    ensures list { flat chunks.new.items ≡ flat chunks.old.items ++ x ∷ [] }
    ensures ends { ends.new.items ≡ ends_from 0 chunks.new.items }
    ensures even { result ≡ even_of chunks.new.items }
    ensures chunks { (vec_len chunks.new ≡ vec_len chunks.old)
        × (vec_capacity chunks.new ≡ vec_capacity chunks.old) }
    ensures ends_room { (vec_len ends.new ≡ vec_len ends.old)
        × (vec_capacity ends.new ≡ vec_capacity ends.old) }
{
    let mut chunk = chunks.take_last();
    let end = ends.take_last();
    let are_full = end - chunk.len() == chunks.len().saturating_mul(MOST);
    chunk.push(x);
    chunks.push_reserved(chunk);
    ends.push_reserved(end + 1);
    if are_full && even == end {
        even + 1
    } else {
        even
    }
}

/// Where chunk `i` begins.
pub(crate) fn start_of(ends: &[usize], i: usize) -> usize
    requires { i < length ends.now }
    ensures { result ≡ start_in ends.now i }
{
    if i == 0 { 0 } else { ends[i - 1] }
}

/// The chunk of the element at `at`. Chunks are mostly full, so the one in which it stands then is
/// looked at first.
pub(crate) fn chunk_of(ends: &[usize], at: usize) -> usize
    requires some { 0 < length ends.now }
    requires inside { at < slice_index ends.now (length ends.now - 1) }
    ensures { Holds ends.now at result }
{
    let last = ends.len() - 1;
    let guess = (at / MOST).min(last);
    if start_of(ends, guess) > at {
        return search(ends, at, 0, guess - 1);
    }
    if at < ends[guess] {
        return guess;
    }
    search(ends, at, guess, last)
}

/// The same among the chunks from `first` to `last`.
fn search(ends: &[usize], at: usize, first: usize, last: usize) -> usize
    requires ordered { first ≤ last }
    requires inside { last < length ends.now }
    requires from { start_in ends.now first ≤ at }
    requires to { at < slice_index ends.now last }
    ensures { Holds ends.now at result }
{
    let mut low = first;
    let mut high = last;
    while low < high {
        let middle = low + (high - low) / 2;
        if at < ends[middle] {
            high = middle;
        } else {
            low = middle + 1;
        }
    }
    low
}
