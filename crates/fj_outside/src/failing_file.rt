// A file in memory of which some calls fail.
ghost use Rattle.std.specs.Prelude.{◌≡◌, ◌⊎◌, ◌+◌, ◌-◌, ◌<◌, ◌≤◌, ◌++◌, [], List, ℕ, length, take, drop, min, max, IfOk, OnOk, OnErr, IsErr, IsTrue, ◌↔◌, true, refl};
ghost use Rattle.fj_outside.specs.Faults.{Rose};
ghost use Rattle.fj_outside.specs.Bytes.{written, IsPartlyWritten};
ghost use Rattle.fj_outside.specs.Plan.{FailsNext, after_call};

use crate::errors::{Failed, Stop};
use crate::memory_file::MemoryFile;
use crate::outside::FileStore;
use crate::plan::Plan;

/// A file in memory of which some reads, writes and cuts fail. They are counted together, from 1, over the life of
/// its disk. What fails changes nothing.
#[derive(Drop)]
pub struct FailingFile {
    inner: MemoryFile,
    plan: Plan,
    faults: u64,
}

impl FailingFile {
    ghost use Rattle.fj_outside.specs.FailingFile.{file_bytes, file_calls, file_count};

    pub(crate) fn new(inner: MemoryFile, plan: Plan) -> FailingFile
        ensures bytes { file_bytes result ≡ inner }
        ensures calls { file_calls result ≡ plan }
        ensures count { file_count result ≡ 0 }
    {
        FailingFile {
            inner,
            plan,
            faults: 0,
        }
    }

    /// How many calls there were, over the life of its disk.
    pub(crate) fn made(&self) -> u64
        ensures { result ≡ (file_calls self.now).made }
    {
        self.plan.made()
    }

    pub(crate) fn into_inner(self) -> MemoryFile
        ensures { result ≡ file_bytes self }
    {
        let FailingFile {
            inner,
            plan: _,
            faults: _,
        } = self;
        inner
    }

    /// Counts a call, and answers whether it fails.
    fn fails_now(&mut self) -> bool
        ensures fails { IsTrue result ↔ FailsNext (file_calls self.old) }
        ensures counted { file_calls self.new ≡ after_call (file_calls self.old) }
        ensures same { file_bytes self.new ≡ file_bytes self.old }
        ensures later { file_count self.old ≤ file_count self.new }
        ensures failed { IsTrue result → Rose (file_count self.old) (file_count self.new) }
    {
        if self.plan.step() {
            self.faults = self.faults.saturating_add(1);
            return true;
        }
        false
    }
}

impl FileStore for FailingFile {
    ghost use Rattle.fj_outside.specs.FailingFile.{file_bytes, file_calls, file_count};

    ghost tells = { λ _. Unit {0} };

    ghost told = { λ _. true };

    ghost decided = { λ _. (λ _. tt, λ _. refl) };

    ghost bytes = { file_bytes };

    ghost size = { λ file. length (file_bytes file) };

    ghost count = { file_count };

    fn len(&self) -> u64 {
        self.inner.len()
    }

    fn read_at(&mut self, at: u64, buf: &mut [u8]) -> Result<usize, Failed>
        // The calls that fail are those of the plan.
        ensures planned { IsErr result ↔ FailsNext (file_calls self.old) }
        ensures counted { file_calls self.new ≡ after_call (file_calls self.old) }

        // The others are those of a file in memory.
        ensures amount { IfOk result (λ n. n ≡ min (length buf.old) (length (file_bytes self.old) - at)) }
        ensures same { file_bytes self.new ≡ file_bytes self.old }
        ensures bytes { IfOk result (λ n. buf.new ≡ take n (drop at (file_bytes self.old)) ++ drop n buf.old) }
        ensures later { file_count self.old ≤ file_count self.new }
        ensures failed { OnErr result (Rose (file_count self.old) (file_count self.new)) }
    {
        if self.fails_now() {
            return Err(Failed);
        }
        self.inner.read_at(at, buf)
    }

    #[tactic(auto, using(crate::proofs::ByteLaws::unwritten))]
    fn write_at(&mut self, at: u64, piece: &[u8]) -> Result<(), Stop>
        requires { at ≤ length (file_bytes self.old) }

        // The calls that fail are those of the plan. What fails writes nothing.
        ensures planned { (result ≡ Err Stop.Failed) ↔ FailsNext (file_calls self.old) }
        ensures counted { file_calls self.new ≡ after_call (file_calls self.old) }
        ensures untouched { result ≡ Err Stop.Failed → file_bytes self.new ≡ file_bytes self.old }

        // The others are those of a file in memory.
        ensures bytes { OnOk result (file_bytes self.new ≡ written (file_bytes self.old) at piece.now) }
        ensures err { OnErr result (IsPartlyWritten (file_bytes self.old) at piece.now (file_bytes self.new)) }
        ensures later { file_count self.old ≤ file_count self.new }
        ensures failed { result ≡ Err Stop.Failed → Rose (file_count self.old) (file_count self.new) }
    {
        if self.fails_now() {
            return Err(Stop::Failed);
        }
        self.inner.write_at(at, piece)
    }

    fn cut(&mut self, len: u64) -> Result<(), Failed>
        requires { len ≤ length (file_bytes self.old) }

        // The calls that fail are those of the plan. What fails cuts nothing.
        ensures planned { IsErr result ↔ FailsNext (file_calls self.old) }
        ensures counted { file_calls self.new ≡ after_call (file_calls self.old) }
        ensures err { OnErr result (file_bytes self.new ≡ file_bytes self.old) }

        // The others are those of a file in memory.
        ensures bytes { OnOk result (file_bytes self.new ≡ take len (file_bytes self.old)) }
        ensures later { file_count self.old ≤ file_count self.new }
        ensures failed { OnErr result (Rose (file_count self.old) (file_count self.new)) }
    {
        if self.fails_now() {
            return Err(Failed);
        }
        self.inner.cut(len)
    }

    fn faults(&self) -> u64 {
        self.faults
    }
}
