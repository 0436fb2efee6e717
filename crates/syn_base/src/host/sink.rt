//! A writer of std as a sink.
ghost use Rattle.std.specs.Prelude.{◌≡◌, None};

use crate::{Put, Sink};
use std::io::Write;
use std::marker::Model;

/// A writer of std. Each write that fails is counted, and one that takes nothing counts as failed.
#[derive(Drop)]
pub struct StdSink<W: Write + Drop> {
    writer: W,
    faults: u64,
}

impl<W: Write + Drop> Model for StdSink<W> {
    ghost use Rattle.std.specs.Prelude.{ℕ};

    ghost Value = { ℕ };

    ghost view = { λ s. s.faults };
}

impl<W: Write + Drop> StdSink<W> {
    /// The writer as a sink, of which no call failed yet.
    pub fn new(writer: W) -> StdSink<W>
        ensures { result ≡ 0 }
    {
        StdSink { writer, faults: 0 }
    }
}

impl<W: Write + Drop> Sink for StdSink<W> {
    ghost written = { λ _. None };

    ghost faults = { λ s. s };

    fn put(&mut self, piece: &[u8]) -> Put {
        match self.writer.write(piece) {
            Ok(count) if count > 0 => Put::Bytes(count),
            _ => {
                self.faults = self.faults.saturating_add(1);
                Put::Failed
            }
        }
    }
}
