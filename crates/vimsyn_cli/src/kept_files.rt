//! Files that the program keeps. They are always read.
ghost use Rattle.std.specs.Prelude.{Some};

use std::alloc::Global;
use std::marker::Model;
use syn_base::{Fetched, Files, List, MemoryFiles};

/// Files in memory, of which no call is to fail.
#[derive(Drop)]
pub(crate) struct KeptFiles {
    files: MemoryFiles,
}

impl Model for KeptFiles {
    ghost use Rattle.std.specs.Prelude.{◌≡◌, []};
    ghost use Rattle.syn_base.specs.InMemory.{HeldFiles};

    ghost Value = { HeldFiles };

    ghost view = { λ k. k.files };

    ghost invariant = { λ k. k.files.failing ≡ [] };
}

impl KeptFiles {
    ghost use Rattle.std.specs.Prelude.{◌≡◌};

    /// These files, each with its name.
    pub(crate) fn new(alloc: Global, files: List<(List<u8>, List<u8>)>) -> KeptFiles
        ensures { result.files ≡ files }
    {
        KeptFiles {
            files: MemoryFiles::new(files, List::new(alloc)),
        }
    }
}

impl Files for KeptFiles {
    ghost told = { λ k. Some k.files };

    // No read fails.
    ghost faults = { λ k. 0 };

    ghost misses = { λ k. k.misses };

    ghost longs = { λ k. k.longs };

    fn fetch(&mut self, alloc: Global, name: &str, limit: usize) -> Fetched {
        self.files.fetch(alloc, name, limit)
    }
}
