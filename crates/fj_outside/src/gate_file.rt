// A file in memory at a gate.
ghost use Rattle.std.specs.Prelude.{◌≡◌, ◌≢◌, ◌-◌, ◌<◌, ◌≤◌, ◌++◌, List, ℕ, length, take, drop, min, IfOk, OnOk, OnErr, IsOk, false, true, refl};
ghost use Rattle.fj_outside.specs.Faults.{Rose};
ghost use Rattle.fj_outside.specs.Bytes.{written, IsPartlyWritten};

use crate::errors::{Failed, Stop};
use crate::gate::Gate;
use crate::memory_file::MemoryFile;
use crate::outside::FileStore;

/// A file in memory whose writes open a gate, or go on only where it is open, or neither.
#[derive(Drop)]
pub struct GateFile {
    inner: MemoryFile,
    gate: Gate,
    waits: bool,
    opens: bool,
    faults: u64,
}

impl GateFile {
    ghost use Rattle.fj_outside.specs.Gate.{turns_of, file_bytes, file_waits, file_opens, file_turns, file_count};

    /// A file in memory at a gate: whether its calls wait there, and whether they open it.
    pub fn new(inner: MemoryFile, gate: Gate, waits: bool, opens: bool) -> GateFile
        ensures bytes { file_bytes result ≡ inner }
        ensures turns { file_turns result ≡ turns_of gate }
        ensures waits { file_waits result ≡ waits }
        ensures opens { file_opens result ≡ opens }
        ensures count { file_count result ≡ 0 }
    {
        GateFile {
            inner,
            gate,
            waits,
            opens,
            faults: 0,
        }
    }

    pub(crate) fn into_inner(self) -> MemoryFile
        ensures { result ≡ file_bytes self }
    {
        let GateFile {
            inner,
            gate: _,
            waits: _,
            opens: _,
            faults: _,
        } = self;
        inner
    }
}

impl FileStore for GateFile {
    ghost use Rattle.fj_outside.specs.Gate.{file_bytes, file_waits, file_count};

    ghost tells = { λ _. Unit {0} };

    ghost told = { λ _. true };

    ghost decided = { λ _. (λ _. tt, λ _. refl) };

    ghost bytes = { file_bytes };

    ghost size = { λ file. length (file_bytes file) };

    ghost count = { file_count };

    fn len(&self) -> u64 {
        self.inner.len()
    }

    fn read_at(&mut self, at: u64, buf: &mut [u8]) -> Result<usize, Failed>
        ensures whole { IsOk result }
        ensures amount { IfOk result (λ n. n ≡ min (length buf.old) (length (file_bytes self.old) - at)) }
        ensures same { file_bytes self.new ≡ file_bytes self.old }
        ensures bytes { IfOk result (λ n. buf.new ≡ take n (drop at (file_bytes self.old)) ++ drop n buf.old) }
        ensures count { file_count self.new ≡ file_count self.old }
    {
        self.inner.read_at(at, buf)
    }

    /// Where it waits and the gate is not seen open, it fails and writes nothing.
    #[tactic(auto, using(crate::proofs::ByteLaws::unwritten))]
    fn write_at(&mut self, at: u64, piece: &[u8]) -> Result<(), Stop>
        requires { at ≤ length (file_bytes self.old) }
        ensures free { file_waits self.old ≡ false → result ≢ Err Stop.Failed }
        ensures untouched { result ≡ Err Stop.Failed → file_bytes self.new ≡ file_bytes self.old }
        ensures bytes { OnOk result (file_bytes self.new ≡ written (file_bytes self.old) at piece.now) }
        ensures err { OnErr result (IsPartlyWritten (file_bytes self.old) at piece.now (file_bytes self.new)) }
        ensures later { file_count self.old ≤ file_count self.new }
        ensures failed { result ≡ Err Stop.Failed → Rose (file_count self.old) (file_count self.new) }
    {
        if self.opens {
            self.gate.open();
        }
        if self.waits && !self.gate.lets_through() {
            self.faults = self.faults.saturating_add(1);
            return Err(Stop::Failed);
        }
        self.inner.write_at(at, piece)
    }

    fn cut(&mut self, len: u64) -> Result<(), Failed>
        requires { len ≤ length (file_bytes self.old) }
        ensures whole { IsOk result }
        ensures bytes { file_bytes self.new ≡ take len (file_bytes self.old) }
        ensures count { file_count self.new ≡ file_count self.old }
    {
        self.inner.cut(len)
    }

    fn faults(&self) -> u64 {
        self.faults
    }
}
