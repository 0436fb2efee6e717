//! A source in memory.
ghost use Rattle.std.specs.Prelude.{◌≡◌, ◌<◌, ◌++◌, take, length, Some, if◌then◌else◌};
ghost use Rattle.syn_base.specs.Causes.{one_more, Counted};
ghost use Rattle.syn_base.specs.InMemory.{fails_at, moved, counting};
ghost use Rattle.syn_base.specs.Outside.{Takes, is_failed_take};

use crate::{List, Source, Taken};
use std::marker::Model;

/// Bytes in memory, of which one call gives `most` at the most.
#[derive(Drop)]
pub struct MemorySource {
    bytes: List<u8>,
    at: usize,
    most: usize,
    failing: List<u64>,
    calls: u64,
    faults: u64,
}

impl Model for MemorySource {
    ghost use Rattle.std.specs.Prelude.{◌<◌, ◌≤◌, drop, length};
    ghost use Rattle.syn_base.specs.InMemory.{HeldSource};

    ghost Value = { HeldSource };

    ghost view = { λ s. record {
      left = drop s.at s.bytes;
      most = s.most;
      failing = s.failing;
      calls = s.calls;
      faults = s.faults;
    } };

    ghost invariant = { λ s. (s.at ≤ length s.bytes) × (0 < s.most) };
}

impl MemorySource {
    /// These bytes. The calls whose numbers, from 1, are in `failing` fail.
    pub fn new(bytes: List<u8>, most: usize, failing: List<u64>) -> MemorySource
        requires { 0 < most }
        ensures { result ≡ record {
          left = bytes;
          most = most;
          failing = failing;
          calls = 0;
          faults = 0;
        } }
    {
        MemorySource {
            bytes,
            at: 0,
            most,
            failing,
            calls: 0,
            faults: 0,
        }
    }
}

impl Source for MemorySource {
    ghost left = { λ s. Some s.left };

    ghost faults = { λ s. s.faults };

    fn take(&mut self, buf: &mut [u8]) -> Taken
        requires { 0 < length buf.old }
        ensures answer { Takes (Some self.old.left) (Some self.new.left) buf.new result }
        ensures faults { Counted (is_failed_take result) self.old.faults self.new.faults }
        // Exactly the calls of the list fail; the others move as many bytes as they can.
        ensures exact { result ≡ (if fails_at self.old.failing (one_more self.old.calls)
            then Taken.Failed
            else Taken.Bytes (moved (length buf.old) self.old.most (length self.old.left))) }
        ensures counted { self.new.faults ≡ counting (is_failed_take result) self.old.faults }
        ensures calls { self.new.calls ≡ one_more self.old.calls }
        ensures failing { self.new.failing ≡ self.old.failing }
        ensures most { self.new.most ≡ self.old.most }
    {
        self.calls = self.calls.saturating_add(1);
        if self.failing.as_slice().contains(&self.calls) {
            self.faults = self.faults.saturating_add(1);
            return Taken::Failed;
        }
        let rest = &self.bytes.as_slice()[self.at..];
        let count = buf.len().min(self.most.min(rest.len()));
        buf[..count].copy_from_slice(&rest[..count]);
        self.at += count;
        Taken::Bytes(count)
    }
}
