//! The machine's files.
ghost use Rattle.std.specs.Prelude.{◌≡◌, ◌≤◌, None, IfOk, vec_len};

use crate::{Fetched, Files, List};
use std::alloc::Global;
use std::fs::File;
use std::io::{ErrorKind, Read};
use std::marker::Model;
use std::rt;

/// How many bytes of a file are asked for at a time.
const PIECE: usize = 65536;

/// The files of the machine, by a runtime.
#[derive(Drop)]
pub struct HostFiles<R: rt::Files + Drop> {
    rt: R,
    faults: u64,
    misses: u64,
    longs: u64,
}

impl<R: rt::Files + Drop> Model for HostFiles<R> {
    ghost use Rattle.syn_base.specs.Causes.{FileCounts};

    ghost Value = { FileCounts };

    ghost view = { λ h. record { faults = h.faults; misses = h.misses; longs = h.longs } };
}

impl<R: rt::Files + Drop> HostFiles<R> {
    /// The files that the runtime reaches. Paths are as the system reads them.
    pub fn new(rt: R) -> HostFiles<R>
        ensures { result ≡ record { faults = 0; misses = 0; longs = 0 } }
    {
        HostFiles {
            rt,
            faults: 0,
            misses: 0,
            longs: 0,
        }
    }
}

/// Why a file was not read whole.
enum Unread {
    TooLong,
    Failed,
    Memory,
}

/// All bytes of a reader, if they are at most `limit`.
fn read_whole<F: Read>(alloc: Global, file: &mut F, limit: usize) -> Result<Vec<u8>, Unread>
    ensures { IfOk result (λ bytes. vec_len bytes ≤ limit) }
{
    let mut bytes = Vec::new(alloc);
    let mut piece = [0u8; PIECE];
    // The limit or the file's end comes long before; counted turns need no measure.
    for _ in 0..u64::MAX {
        let count = file.read(&mut piece).map_err(|_| Unread::Failed)?;
        if count == 0 {
            return Ok(bytes);
        }
        if count > limit - bytes.len() {
            return Err(Unread::TooLong);
        }
        bytes
            .extend_from_slice(&piece[..count])
            .map_err(|_| Unread::Memory)?;
    }
    Err(Unread::Failed)
}

impl<R: rt::Files + Drop> Files for HostFiles<R> {
    ghost told = { λ _. None };

    ghost faults = { λ h. h.faults };

    ghost misses = { λ h. h.misses };

    ghost longs = { λ h. h.longs };

    /// Only an absent file is missing: a folder, or a path through a file, fails.
    fn fetch(&mut self, alloc: Global, name: &str, limit: usize) -> Fetched {
        let mut file = match File::open(&self.rt, name) {
            Ok(file) => file,
            Err(error) if error.kind() == ErrorKind::NotFound => {
                self.misses = self.misses.saturating_add(1);
                return Fetched::Missing;
            }
            Err(_) => {
                self.faults = self.faults.saturating_add(1);
                return Fetched::Failed;
            }
        };
        match read_whole(alloc, &mut file, limit) {
            Ok(bytes) => Fetched::Whole(List::from_vec(bytes)),
            Err(Unread::TooLong) => {
                self.longs = self.longs.saturating_add(1);
                Fetched::TooLong
            }
            Err(Unread::Failed) => {
                self.faults = self.faults.saturating_add(1);
                Fetched::Failed
            }
            Err(Unread::Memory) => Fetched::Memory,
        }
    }
}
