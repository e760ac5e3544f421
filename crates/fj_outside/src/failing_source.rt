// A source in memory of which some calls fail.
ghost use Rattle.std.specs.Prelude.{◌≡◌, ◌+◌, ◌<◌, ◌≤◌, ◌++◌, [], length, take, drop, IfOk, OnOk, OnErr, IsErr, ◌↔◌};
ghost use Rattle.fj_outside.specs.Faults.{Rose};
ghost use Rattle.fj_outside.specs.Plan.{planned, FailsNext, after_call};

use crate::errors::Failed;
use crate::memory_source::MemorySource;
use crate::outside::Source;
use crate::plan::Plan;
use std::alloc::{AllocError, Global};

/// A source in memory of which some reads fail, counted from 1. What fails moves nothing.
#[derive(Drop)]
pub struct FailingSource {
    inner: MemorySource,
    plan: Plan,
    faults: u64,
}

impl FailingSource {
    ghost use Rattle.fj_outside.specs.FailingSource.{source_left, source_calls, source_count};

    /// A source that has left what `inner` has, and of which the reads with these numbers fail.
    pub fn new(
        alloc: Global,
        inner: MemorySource,
        fails: &[u64],
    ) -> Result<FailingSource, AllocError>
        ensures left { IfOk result (λ source. source_left source ≡ inner) }
        ensures calls { IfOk result (λ source. source_calls source ≡ planned fails.now) }
        ensures count { IfOk result (λ source. source_count source ≡ 0) }
    {
        Ok(FailingSource {
            plan: Plan::new(alloc, fails)?,
            inner,
            faults: 0,
        })
    }
}

impl Source for FailingSource {
    ghost use Rattle.fj_outside.specs.FailingSource.{source_left, source_calls, source_count};

    ghost tells = { λ _. Unit {0} };

    ghost left = { source_left };

    ghost count = { source_count };

    fn read(&mut self, buf: &mut [u8]) -> Result<usize, Failed>
        requires { 0 < length buf.old }

        // The calls that fail are those of the plan.
        ensures planned { IsErr result ↔ FailsNext (source_calls self.old) }
        ensures counted { source_calls self.new ≡ after_call (source_calls self.old) }
        ensures unmoved { OnErr result (source_left self.new ≡ source_left self.old) }

        // The others are those of a source in memory.
        ensures bound { IfOk result (λ n. n ≤ length buf.old) }
        ensures bytes { IfOk result (λ n. source_left self.old ≡ take n buf.new ++ source_left self.new) }
        ensures rest { IfOk result (λ n. drop n buf.new ≡ drop n buf.old) }
        ensures end { IfOk result (λ n. n ≡ 0 → source_left self.old ≡ []) }
        ensures later { source_count self.old ≤ source_count self.new }
        ensures failed { OnErr result (Rose (source_count self.old) (source_count self.new)) }
    {
        if self.plan.step() {
            self.faults = self.faults.saturating_add(1);
            return Err(Failed);
        }
        self.inner.read(buf)
    }

    fn faults(&self) -> u64 {
        self.faults
    }
}
