// Slots over an adder: a job is a number that is added, and its answer is the sum.
ghost use Rattle.std.specs.Prelude.{◌≡◌, ℕ, ◌+◌, ◌%◌, ◌^◌, Some};
ghost use Rattle.fj_outside.specs.declared.errors.Stop.TheVariants.{Failed};

use fj_outside::Stop;
use fj_slot::{Engine, Slot, Told};
use std::alloc::Global;
use std::test::Fail;

/// Adds so many numbers, and fails at the next one.
#[derive(Drop)]
struct Adder {
    sum: u64,
    left: u64,
    faults: u64,
}

impl Engine for Adder {
    type Job = u64;

    type Answer = u64;

    type State = u64;

    type Task = u64;

    type Reply = u64;

    ghost meaning = { record {
      state = λ adder. Some adder.sum;
      task = λ job. Some job;
      reply = λ answer. answer;
      serve = λ s t. record { engine = (s + t) % 2 ^ 64; job = t; answer = (s + t) % 2 ^ 64 };
      spoilt = λ s _ stop adder. (stop ≡ Failed) × (adder.sum ≡ s);
      faults = λ adder. adder.faults;
    } };

    fn perform(&mut self, job: &mut u64) -> Result<u64, Stop> {
        if self.left == 0 {
            self.faults = self.faults.saturating_add(1);
            return Err(Stop::Failed);
        }
        self.left -= 1;
        self.sum = self.sum.wrapping_add(*job);
        Ok(self.sum)
    }

    fn faults(&self) -> u64 {
        self.faults
    }
}

fn slot_of(alloc: Global, left: u64) -> Slot<Adder> {
    Slot::new(
        alloc,
        Adder {
            sum: 0,
            left,
            faults: 0,
        },
    )
}

/// Submits a number, again where memory was refused. Answers its job's number, or the job that was handed back at last.
fn give(slot: &mut Slot<Adder>, number: u64) -> Result<u64, u64> {
    let mut job = number;
    for _ in 0..3u8 {
        if slot.submitted() >= 1 << 62 {
            return Err(job);
        }
        match slot.submit(job) {
            Ok(number) => return Ok(number),
            Err(refused) => job = refused.job,
        }
    }
    Err(job)
}

fn perform_next(slot: &mut Slot<Adder>) {
    if let Some(mut out) = slot.begin() {
        let before = out.engine.faults();
        let got = out.engine.perform(&mut out.job);
        slot.end(out, got, before);
    }
}

/// The job and its answer, or the job and the counts of the stop.
fn next_told(slot: &mut Slot<Adder>) -> Option<(u64, Result<u64, (u64, u64)>)> {
    if !slot.ready() {
        return None;
    }
    match slot.tell() {
        Told::Done { job, answer } => Some((job, Ok(answer))),
        Told::Stopped {
            job,
            stop: _,
            before,
            after,
        } => Some((job, Err((before, after)))),
    }
}

#[test]
fn answers_in_order_many_jobs_pending(rt: HostRuntime) -> Result<(), Fail> {
    let mut slot = slot_of(rt.alloc(), u64::MAX);
    for number in 1..=100_000u64 {
        assert_eq!(rt; give(&mut slot, number), Ok(number - 1));
    }
    assert_eq!(rt; next_told(&mut slot), None);
    let mut last = None;
    for _ in 0..100_000u32 {
        perform_next(&mut slot);
        last = next_told(&mut slot);
    }
    assert_eq!(rt; last, Some((100_000, Ok(5_000_050_000))));
    assert_eq!(rt;
        (slot.submitted(), slot.done(), slot.told()),
        (100_000, 100_000, 100_000)
    );
    assert!(rt; slot.halted().is_none());
    Ok(())
}

#[test]
fn a_stop_is_told_from_its_job_on(rt: HostRuntime) -> Result<(), Fail> {
    for left in 0..5u64 {
        let mut slot = slot_of(rt.alloc(), left);
        for number in 1..=5u64 {
            assert_eq!(rt; give(&mut slot, number), Ok(number - 1));
            perform_next(&mut slot);
        }
        for number in 1..=5u64 {
            let want = if number <= left {
                Ok(number.wrapping_mul(number.wrapping_add(1)) / 2)
            } else {
                Err((0, 1))
            };
            assert_eq!(rt; next_told(&mut slot), Some((number, want)));
        }
        assert_eq!(rt; next_told(&mut slot), None);
        assert_eq!(rt; (slot.done(), slot.told()), (left, 5));
        assert!(rt; slot.begin().is_none());
    }
    Ok(())
}
