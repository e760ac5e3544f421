// A sink in memory of which some calls fail.
ghost use Rattle.std.specs.Prelude.{◌≡◌, ◌+◌, ◌<◌, ◌≤◌, ◌++◌, length, take, IfOk, OnOk, OnErr, ◌↔◌};
ghost use Rattle.fj_outside.specs.Faults.{Rose};
ghost use Rattle.fj_outside.specs.Plan.{planned, FailsNext, after_call};

use crate::errors::Stop;
use crate::memory_sink::MemorySink;
use crate::outside::Sink;
use crate::plan::Plan;
use std::alloc::{AllocError, Global};

/// A sink in memory of which some writes fail, counted from 1. What fails takes nothing.
#[derive(Drop)]
pub struct FailingSink {
    inner: MemorySink,
    plan: Plan,
    faults: u64,
}

impl FailingSink {
    ghost use Rattle.fj_outside.specs.FailingSink.{sink_taken, sink_calls, sink_count};

    /// A sink that took what `inner` took, and of which the writes with these numbers fail.
    pub fn new(alloc: Global, inner: MemorySink, fails: &[u64]) -> Result<FailingSink, AllocError>
        ensures taken { IfOk result (λ sink. sink_taken sink ≡ inner) }
        ensures calls { IfOk result (λ sink. sink_calls sink ≡ planned fails.now) }
        ensures count { IfOk result (λ sink. sink_count sink ≡ 0) }
    {
        Ok(FailingSink {
            plan: Plan::new(alloc, fails)?,
            inner,
            faults: 0,
        })
    }

    /// The bytes that it took.
    pub fn taken(&self) -> &[u8]
        ensures { result.now ≡ sink_taken self.now }
    {
        self.inner.taken()
    }
}

impl Sink for FailingSink {
    ghost use Rattle.fj_outside.specs.FailingSink.{sink_taken, sink_calls, sink_count};

    ghost tells = { λ _. Unit {0} };

    ghost taken = { sink_taken };

    ghost count = { sink_count };

    fn write(&mut self, piece: &[u8]) -> Result<usize, Stop>
        requires { 0 < length piece.now }

        // The calls that fail are those of the plan.
        ensures planned { (result ≡ Err Stop.Failed) ↔ FailsNext (sink_calls self.old) }
        ensures counted { sink_calls self.new ≡ after_call (sink_calls self.old) }

        // The others are those of a sink in memory.
        ensures bound { IfOk result (λ n. n ≡ length piece.now) }
        ensures bytes { OnOk result (sink_taken self.new ≡ sink_taken self.old ++ piece.now) }
        ensures err { OnErr result (sink_taken self.new ≡ sink_taken self.old) }
        ensures later { sink_count self.old ≤ sink_count self.new }
        ensures failed { result ≡ Err Stop.Failed → Rose (sink_count self.old) (sink_count self.new) }
    {
        if self.plan.step() {
            self.faults = self.faults.saturating_add(1);
            return Err(Stop::Failed);
        }
        self.inner.write(piece)
    }

    fn faults(&self) -> u64 {
        self.faults
    }
}
