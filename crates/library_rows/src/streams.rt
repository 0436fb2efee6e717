//! Calls of sources, sinks and places of `syn_base`.
//!
//!     reader TEXT 2 2         what calls of a reader's source give, with buffers of so many bytes
//!     source TEXT 2 2 5 5     so of a source in memory that gives so many bytes a call and fails at one
//!     writer TEXT MORE ..     whether a writer's sink takes all of a text, how many bytes of each more text,
//!                             and what was written
//!     places 1:9 2:0          whether a place stands before another one

ghost use Rattle.std.specs.Prelude.{◌<◌, length};

use crate::answer::{add_bytes, add_number, add_whether, add_word};
use crate::fault::{Fault, number_of};
use std::alloc::Global;
use syn_base::{List, MemorySource, Place, Put, Sink, Source, StdSink, StdSource, Taken, put_all};

/// How many bytes a buffer has at most.
const MOST: usize = 1000;

/// Tells what one call gives.
fn add_taken<S: Source>(source: &mut S, size: &str, answers: &mut String) -> Result<(), Fault> {
    let mut buffer = [0u8; MOST];
    let size = number_of(size)?;
    if size == 0 || size > MOST {
        return Err(Fault::BadCase);
    }
    match source.take(&mut buffer[..size]) {
        Taken::Bytes(count) => add_bytes(answers, &buffer[..count]),
        Taken::Failed => add_word(answers, "failed"),
    }
}

/// Tells what the calls of a source give.
fn add_all_taken<S: Source>(
    source: &mut S,
    sizes: &[&str],
    answers: &mut String,
) -> Result<(), Fault> {
    for size in sizes {
        add_taken(source, size, answers)?;
    }
    Ok(())
}

pub(crate) fn reader(arguments: &[&str], answers: &mut String) -> Result<(), Fault> {
    let [text, sizes @ ..] = arguments else {
        return Err(Fault::BadCase);
    };
    let mut source = StdSource::new(text.as_bytes());
    add_all_taken(&mut source, sizes, answers)
}

pub(crate) fn source(alloc: Global, arguments: &[&str], answers: &mut String) -> Result<(), Fault> {
    let [text, most, failing, sizes @ ..] = arguments else {
        return Err(Fault::BadCase);
    };
    let (most, failing) = (number_of(most)?, number_of(failing)?);
    if most == 0 {
        return Err(Fault::BadCase);
    }
    let bytes = List::from_slice(alloc, text.as_bytes())?;
    let failing = List::from_slice(alloc, &[failing as u64])?;
    let mut source = MemorySource::new(bytes, most, failing);
    add_all_taken(&mut source, sizes, answers)
}

pub(crate) fn writer(alloc: Global, arguments: &[&str], answers: &mut String) -> Result<(), Fault> {
    let [text, more @ ..] = arguments else {
        return Err(Fault::BadCase);
    };
    let mut written = Vec::new(alloc);
    put(&mut StdSink::new(&mut written), text, more, answers)?;
    add_bytes(answers, written.as_slice())
}

/// Tells whether a sink takes all of a text, and how many bytes of each more text.
fn put<S: Sink>(
    sink: &mut S,
    text: &str,
    more: &[&str],
    answers: &mut String,
) -> Result<(), Fault> {
    add_whether(answers, put_all(sink, text.as_bytes()))?;
    for piece in more {
        put_piece(sink, piece, answers)?;
    }
    Ok(())
}

/// Tells how many bytes of a text one call takes.
fn put_piece<S: Sink>(sink: &mut S, text: &str, answers: &mut String) -> Result<(), Fault> {
    if text.is_empty() {
        return Err(Fault::BadCase);
    }
    match sink.put(text.as_bytes()) {
        Put::Bytes(count) => add_number(answers, count),
        Put::Failed => add_word(answers, "failed"),
    }
}

pub(crate) fn places(arguments: &[&str], answer: &mut String) -> Result<(), Fault> {
    let [first, second] = arguments else {
        return Err(Fault::BadCase);
    };
    let holds = place_of(first)? < place_of(second)?;
    add_whether(answer, holds)
}

/// A place, as `line:column`.
fn place_of(text: &str) -> Result<Place, Fault> {
    let (line, col) = text.split_once(':').ok_or(Fault::BadCase)?;
    Ok(Place {
        line: number_of(line)?,
        col: number_of(col)?,
    })
}
