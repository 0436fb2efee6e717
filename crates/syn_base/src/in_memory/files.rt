//! Files in memory.
ghost use Rattle.std.specs.Prelude.{◌≡◌, Some, option_copied};
ghost use Rattle.syn_base.specs.Causes.{one_more, Counted};
ghost use Rattle.syn_base.specs.InMemory.{after_fetch, fails_at};
ghost use Rattle.syn_base.specs.Outside.{Fetches, file_named, is_failed, is_missing, is_too_long};

use crate::{Fetched, Files, List};
use std::alloc::Global;
use std::marker::Model;

/// Files in memory: pairs of a name's bytes and a file's bytes, of which the first with a name
/// counts.
#[derive(Drop)]
pub struct MemoryFiles {
    files: List<(List<u8>, List<u8>)>,
    failing: List<u64>,
    calls: u64,
    faults: u64,
    misses: u64,
    longs: u64,
}

impl Model for MemoryFiles {
    ghost use Rattle.syn_base.specs.InMemory.{HeldFiles};

    ghost Value = { HeldFiles };

    ghost view = { λ m. record {
      files = m.files;
      failing = m.failing;
      calls = m.calls;
      faults = m.faults;
      misses = m.misses;
      longs = m.longs;
    } };
}

impl MemoryFiles {
    /// These files. The calls whose numbers, from 1, are in `failing` answer that the read failed.
    pub fn new(files: List<(List<u8>, List<u8>)>, failing: List<u64>) -> MemoryFiles
        ensures { result ≡ record {
          files = files;
          failing = failing;
          calls = 0;
          faults = 0;
          misses = 0;
          longs = 0;
        } }
    {
        MemoryFiles {
            files,
            failing,
            calls: 0,
            faults: 0,
            misses: 0,
            longs: 0,
        }
    }
}

/// The bytes of the first file of that name.
fn find_file<'a>(files: &'a [(List<u8>, List<u8>)], name: &str) -> Option<&'a List<u8>>
    ensures { option_copied result ≡ file_named files.now name.now }
{
    for (file, bytes) in files {
        if name.as_bytes() == file.as_slice() {
            return Some(bytes);
        }
    }
    None
}

impl Files for MemoryFiles {
    ghost told = { λ m. Some m.files };

    ghost faults = { λ m. m.faults };

    ghost misses = { λ m. m.misses };

    ghost longs = { λ m. m.longs };

    fn fetch(&mut self, alloc: Global, name: &str, limit: usize) -> Fetched
        ensures kept { self.new.files ≡ self.old.files }
        ensures answer { Fetches (Some self.old.files) name.now limit result }
        ensures faults { Counted (is_failed result) self.old.faults self.new.faults }
        ensures misses { Counted (is_missing result) self.old.misses self.new.misses }
        ensures longs { Counted (is_too_long result) self.old.longs self.new.longs }
        // Exactly the calls of the list fail, and each answer raises its count by one.
        ensures failed { is_failed result ≡ fails_at self.old.failing (one_more self.old.calls) }
        ensures after { self.new ≡ after_fetch self.old result }
    {
        self.calls = self.calls.saturating_add(1);
        if self.failing.as_slice().contains(&self.calls) {
            self.faults = self.faults.saturating_add(1);
            return Fetched::Failed;
        }
        let Some(bytes) = find_file(self.files.as_slice(), name) else {
            self.misses = self.misses.saturating_add(1);
            return Fetched::Missing;
        };
        if bytes.len() > limit {
            self.longs = self.longs.saturating_add(1);
            return Fetched::TooLong;
        }
        match Vec::from_slice(alloc, bytes.as_slice()) {
            Ok(copy) => Fetched::Whole(List::from_vec(copy)),
            Err(_) => Fetched::Memory,
        }
    }
}
