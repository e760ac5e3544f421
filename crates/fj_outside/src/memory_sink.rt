// A sink that keeps what it takes.
ghost use Rattle.std.specs.Prelude.{◌≡◌, ◌≢◌, ◌<◌, [], ◌++◌, length, IfOk, OnOk, OnErr};

use crate::errors::Stop;
use crate::outside::Sink;
use std::alloc::Global;
use std::marker::Model;

/// A sink that keeps what it takes, seen as those bytes. It has no faults.
#[derive(Drop)]
pub struct MemorySink {
    bytes: Vec<u8>,
}

impl Model for MemorySink {
    ghost use Rattle.std.specs.Prelude.{List, ℕ};

    ghost Value = { List ℕ };

    ghost view = { λ s. s.bytes.items };
}

impl MemorySink {
    pub fn new(alloc: Global) -> MemorySink
        ensures { result ≡ [] }
    {
        MemorySink {
            bytes: Vec::new(alloc),
        }
    }

    /// The bytes that it took.
    pub fn taken(&self) -> &[u8]
        ensures { result.now ≡ self.now }
    {
        &self.bytes
    }
}

impl Sink for MemorySink {
    ghost tells = { λ _. Unit {0} };

    ghost taken = { λ s. s };

    ghost count = { λ _. 0 };

    /// It takes whole pieces.
    fn write(&mut self, piece: &[u8]) -> Result<usize, Stop>
        requires { 0 < length piece.now }
        ensures bound { IfOk result (λ n. n ≡ length piece.now) }
        ensures bytes { OnOk result (self.new ≡ self.old ++ piece.now) }
        ensures err { OnErr result (self.new ≡ self.old) }
        ensures failed { result ≢ Err Stop.Failed }
    {
        self.bytes.extend_from_slice(piece)?;
        Ok(piece.len())
    }

    fn faults(&self) -> u64 {
        0
    }
}
