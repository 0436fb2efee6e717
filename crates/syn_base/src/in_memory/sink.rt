//! A sink in memory.
ghost use Rattle.std.specs.Prelude.{◌≡◌, ◌<◌, ◌-◌, [], length, Some, IfOk, if◌then◌else◌};
ghost use Rattle.syn_base.specs.Causes.{one_more, Counted};
ghost use Rattle.syn_base.specs.InMemory.{moved, counting, sink_fails};
ghost use Rattle.syn_base.specs.Outside.{Puts, is_failed_put};

use crate::{List, Memory, Put, Sink};
use std::alloc::Global;
use std::marker::Model;

/// Bytes in memory that are written from the front, `most` of them at a call, as far as there is
/// room.
#[derive(Drop)]
pub struct MemorySink {
    bytes: Vec<u8>,
    room: usize,
    most: usize,
    failing: List<u64>,
    calls: u64,
    faults: u64,
}

impl Model for MemorySink {
    ghost use Rattle.std.specs.Prelude.{◌<◌, ◌≤◌, length, vec_capacity};
    ghost use Rattle.syn_base.specs.InMemory.{HeldSink};

    ghost Value = { HeldSink };

    ghost view = { λ s. record {
      bytes = s.bytes.items;
      room = s.room;
      most = s.most;
      failing = s.failing;
      calls = s.calls;
      faults = s.faults;
    } };

    ghost invariant = { λ s.
        (length s.bytes.items ≤ s.room) × (s.room ≤ vec_capacity s.bytes) × (0 < s.most) };
}

impl MemorySink {
    /// An empty sink with room for `room` bytes, whose memory it takes at once. The calls whose
    /// numbers, from 1, are in `failing` fail.
    pub fn new(
        alloc: Global,
        room: usize,
        most: usize,
        failing: List<u64>,
    ) -> Result<MemorySink, Memory>
        requires { 0 < most }
        ensures { IfOk result (λ sink. sink ≡ record {
          bytes = [];
          room = room;
          most = most;
          failing = failing;
          calls = 0;
          faults = 0;
        }) }
    {
        Ok(MemorySink {
            bytes: Vec::with_capacity(alloc, room)?,
            room,
            most,
            failing,
            calls: 0,
            faults: 0,
        })
    }

    /// What was written.
    pub fn bytes(&self) -> &[u8]
        ensures { result.now ≡ self.now.bytes }
    {
        self.bytes.as_slice()
    }
}

impl Sink for MemorySink {
    ghost written = { λ s. Some s.bytes };

    ghost faults = { λ s. s.faults };

    /// It takes no memory.
    fn put(&mut self, piece: &[u8]) -> Put
        requires { 0 < length piece.now }
        ensures answer { Puts (Some self.old.bytes) (Some self.new.bytes) piece.now result }
        ensures faults { Counted (is_failed_put result) self.old.faults self.new.faults }
        // Exactly the calls of the list and those without room fail; the others move as many bytes
        // as they can.
        ensures exact { result ≡ (if sink_fails self.old then Put.Failed
            else Put.Bytes (moved (length piece.now) self.old.most
            (self.old.room - length self.old.bytes))) }
        ensures counted { self.new.faults ≡ counting (is_failed_put result) self.old.faults }
        ensures calls { self.new.calls ≡ one_more self.old.calls }
        ensures failing { self.new.failing ≡ self.old.failing }
        ensures limits { (self.new.room ≡ self.old.room) × (self.new.most ≡ self.old.most) }
    {
        self.calls = self.calls.saturating_add(1);
        let is_full = self.bytes.len() == self.room;
        if self.failing.as_slice().contains(&self.calls) || is_full {
            self.faults = self.faults.saturating_add(1);
            return Put::Failed;
        }
        let count = piece.len().min(self.most.min(self.room - self.bytes.len()));
        self.bytes.extend_from_slice(&piece[..count]).unwrap();
        Put::Bytes(count)
    }
}
