//! An engine that adds.
ghost use Rattle.std.specs.Prelude.{◌≡◌, None};

use fj_outside::Stop;
use fj_slot::Engine;

/// It adds numbers up.
#[derive(Drop)]
pub struct Counter {
    sum: u64,
    faults: u64,
}

impl Engine for Counter {
    type Job = u64;

    type Answer = u64;

    type State = u64;

    type Task = u64;

    type Reply = u64;

    // It tells nothing.
    ghost meaning = { record {
      state = λ _. None;
      task = λ _. None;
      reply = λ answer. answer;
      serve = λ s t. record { engine = s; job = t; answer = t };
      spoilt = λ _ _ _ _. ⊥;
      faults = λ c. c.faults;
    } };

    fn perform(&mut self, job: &mut u64) -> Result<u64, Stop> {
        self.sum = self.sum.wrapping_add(*job);
        Ok(self.sum)
    }

    fn faults(&self) -> u64 {
        self.faults
    }
}

pub fn new_counter() -> Counter {
    Counter { sum: 0, faults: 0 }
}
