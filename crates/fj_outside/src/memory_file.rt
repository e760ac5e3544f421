// A file in memory.
ghost use Rattle.std.specs.Prelude.{◌≡◌, ◌+◌, ◌≤◌, [], ◌++◌, List, ℕ, length, take, drop, IfOk, OnOk, OnErr, true, refl};

use crate::errors::{Failed, Stop};
use crate::outside::FileStore;
use crate::overwrite::overwrite;
use std::alloc::{AllocError, Global};
use std::marker::Model;

/// A file in memory, seen as its bytes. It has no faults.
#[derive(Drop)]
pub struct MemoryFile {
    bytes: Vec<u8>,
}

impl Model for MemoryFile {
    ghost use Rattle.std.specs.Prelude.{List, ℕ};

    ghost Value = { List ℕ };

    ghost view = { λ s. s.bytes.items };
}

impl MemoryFile {
    pub fn new(alloc: Global) -> MemoryFile
        ensures { result ≡ [] }
    {
        MemoryFile {
            bytes: Vec::new(alloc),
        }
    }

    pub fn from_bytes(alloc: Global, bytes: &[u8]) -> Result<MemoryFile, AllocError>
        ensures { IfOk result (λ file. file ≡ bytes.now) }
    {
        Ok(MemoryFile {
            bytes: Vec::from_slice(alloc, bytes)?,
        })
    }

    pub fn bytes(&self) -> &[u8]
        ensures { result.now ≡ self.now }
    {
        &self.bytes
    }
}

impl FileStore for MemoryFile {
    ghost tells = { λ _. Unit {0} };

    ghost told = { λ _. true };

    ghost decided = { λ _. (λ _. tt, λ _. refl) };

    ghost bytes = { λ s. s };

    ghost size = { λ s. length s };

    ghost count = { λ _. 0 };

    fn len(&self) -> u64 {
        self.bytes.len() as u64
    }

    fn read_at(&mut self, at: u64, buf: &mut [u8]) -> Result<usize, Failed> {
        let len = self.bytes.len();
        if at >= len as u64 {
            return Ok(0);
        }
        let from = at as usize;
        let count = buf.len().min(len - from);
        buf[..count].copy_from_slice(&self.bytes[from..from + count]);
        Ok(count)
    }

    #[tactic(auto, using(crate::proofs::ByteLaws::unwritten))]
    fn write_at(&mut self, at: u64, piece: &[u8]) -> Result<(), Stop> {
        match overwrite(&mut self.bytes, at as usize, piece) {
            Ok(()) => Ok(()),
            Err(e) => Err(Stop::Memory(e)),
        }
    }

    fn cut(&mut self, len: u64) -> Result<(), Failed> {
        self.bytes.truncate(len as usize);
        Ok(())
    }

    fn faults(&self) -> u64 {
        0
    }
}
