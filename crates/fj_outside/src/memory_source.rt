// A source over bytes in memory.
ghost use Rattle.std.specs.Prelude.{◌≡◌, ◌≤◌, ◌++◌, ℕ, length, take, drop, IfOk};

use crate::errors::Failed;
use crate::outside::Source;
use std::alloc::{AllocError, Global};
use std::marker::Model;

/// A source over bytes in memory, seen as the bytes that are left. It has no faults.
#[derive(Drop)]
pub struct MemorySource {
    bytes: Vec<u8>,
    at: usize,
}

impl Model for MemorySource {
    ghost use Rattle.std.specs.Prelude.{List, ℕ, drop, length, ◌≤◌};

    ghost Value = { List ℕ };

    ghost view = { λ s. drop s.at s.bytes.items };

    ghost invariant = { λ s. s.at ≤ length s.bytes.items };
}

impl MemorySource {
    /// A source with a copy of these bytes left.
    pub fn new(alloc: Global, bytes: &[u8]) -> Result<MemorySource, AllocError>
        ensures { IfOk result (λ source. source ≡ bytes.now) }
    {
        Ok(MemorySource {
            bytes: Vec::from_slice(alloc, bytes)?,
            at: 0,
        })
    }
}

impl Source for MemorySource {
    ghost tells = { λ _. Unit {0} };

    ghost left = { λ s. s };

    ghost count = { λ _. 0 };

    #[tactic(auto, using(crate::proofs::ByteLaws::read_front))]
    fn read(&mut self, buf: &mut [u8]) -> Result<usize, Failed> {
        let rest = self.bytes.len() - self.at;
        let count = buf.len().min(rest);
        let from = self.at;
        buf[..count].copy_from_slice(&self.bytes[from..from + count]);
        self.at = from + count;
        Ok(count)
    }

    fn faults(&self) -> u64 {
        0
    }
}
