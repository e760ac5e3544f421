// The unit: jobs over one bay.
ghost use Rattle.std.specs.Prelude.{◌≡◌, length, Some, slice_get, IfOk, IfErr, IfSome, IfNone, OnOk, OnErr};
ghost use Rattle.fj_unit.specs.Unit.{fresh, given, told};
ghost use Rattle.fj_unit.specs.Held.{task, reply};

use fj_bay::{Answer, Bay, Job};
use fj_outside::{MemoryFile, Stop};
use fj_slot::{Engine, Slot, Told};
use std::alloc::{AllocError, Global};
use std::marker::Model;

/// A unit whose file is in memory.
#[derive(Drop)]
pub struct Unit {
    slot: Slot<Bay<MemoryFile>>,
}

/// What became of a job.
#[derive(Drop)]
pub struct Outcome {
    pub job: Job<MemoryFile>,
    pub answer: Answer,
}

impl Model for Unit {
    ghost use Rattle.fj_unit.specs.Unit.{Unit as PlainUnit};
    ghost use Rattle.fj_unit.specs.Held.{unit_of, IsHeld};
    ghost use Rattle.std.specs.Coded.{codes};
    ghost use Rattle.fj_format.specs.contracts.item.FormatItem as item;

    ghost Value = { PlainUnit };

    ghost coded = { Prim.hlevel (codes, item.the_row.coded) };

    ghost view = { λ u. unit_of u.slot };

    ghost invariant = { λ u. IsHeld u.slot };
}

impl Unit {
    /// A unit that is not connected.
    pub fn new(alloc: Global) -> Result<Unit, AllocError>
        ensures { IfOk result (λ unit. unit ≡ fresh) }
    {
        Ok(Unit {
            slot: Slot::new(alloc, Bay::empty(alloc)?),
        })
    }

    /// Gives it a job, which is carried out behind all others. It performs nothing. Want of memory changes nothing.
    pub fn give(&mut self, job: Job<MemoryFile>) -> Result<(), AllocError>
        ensures ok { OnOk result (self.new ≡ given self.old (task job)) }
        ensures err { OnErr result (self.new ≡ self.old) }
    {
        if self.slot.submitted() >= 4_611_686_018_427_387_904 {
            return Err(AllocError);
        }
        match self.slot.submit(job) {
            Ok(_) => Ok(()),
            Err(refused) => Err(refused.error),
        }
    }

    /// Carries out one job, on the thread that calls. It tells whether there was one that could be begun.
    pub fn work(&mut self) -> bool
        ensures { self.new ≡ self.old }
    {
        let Some(mut out) = self.slot.begin() else {
            return false;
        };
        let before = out.engine.faults();
        let got = out.engine.perform(&mut out.job);
        self.slot.end(out, got, before);
        true
    }

    /// How many jobs were not told.
    #[tactic(auto, using(crate::proofs::Steps::count_pending))]
    pub fn count_pending(&self) -> u64
        ensures { result ≡ length self.now.pending }
    {
        let told = self.slot.told();
        let given = self.slot.submitted();
        if told > given {
            return 0;
        }
        given - told
    }

    /// Whether the next job can be told.
    pub fn is_ready(&self) -> bool {
        self.slot.ready()
    }

    /// Tells the next job, where it is done. `Stop`: it was not carried out, nor will any behind it be.
    pub fn tell(&mut self) -> Option<Result<Outcome, Stop>>
        ensures none { IfNone result (self.new ≡ self.old) }
        ensures some { IfSome result (λ it. IfOk it (λ _. self.new ≡ told self.old)) }
        ensures stopped { IfSome result (λ it. IfErr it (λ _. self.new ≡ self.old)) }
        ensures outcome { IfSome result (λ it. IfOk it (λ o. slice_get self.old.pending 0 ≡ Some (task o.job, reply o.answer))) }
    {
        if !self.slot.ready() {
            return None;
        }
        if self.slot.told() >= self.slot.done() {
            if let Some(halt) = self.slot.halted() {
                return Some(Err(halt.stop));
            }
        }
        match self.slot.tell() {
            Told::Done { job, answer } => Some(Ok(Outcome { job, answer })),
            Told::Stopped { .. } => unreachable!(),
        }
    }

    /// Carries jobs out until the next one can be told, and tells it; `None` where none is left, or another thread has it.
    pub fn tell_next(&mut self) -> Option<Result<Outcome, Stop>>
        ensures none { IfNone result (self.new ≡ self.old) }
        ensures some { IfSome result (λ it. IfOk it (λ _. self.new ≡ told self.old)) }
        ensures stopped { IfSome result (λ it. IfErr it (λ _. self.new ≡ self.old)) }
        ensures outcome { IfSome result (λ it. IfOk it (λ o. slice_get self.old.pending 0 ≡ Some (task o.job, reply o.answer))) }
    {
        for _ in 0..u64::MAX {
            if self.is_ready() {
                break;
            }
            if !self.work() {
                break;
            }
        }
        self.tell()
    }
}
