// A script that submits a short job to each of some slots, where each job waits for the others, and then waits for each.
ghost use Rattle.std.specs.Prelude.{◌≡◌, ℕ, ◌+◌, ◌-◌, ◌^◌, ◌<◌, ◌≤◌, ltb, None, if◌then◌else◌, true, false};
ghost use Rattle.fj_world.specs.declared.ask.Ask.TheVariants.{Finished};
ghost use Rattle.fj_world.specs.Conduct.{IsSubmitting, IsSettling, Takes, Tells, Idle, Submitting, Settling};

use crate::asking::meet;
use fj_outside::Stop;
use fj_slot::{Engine, Refused, Told};
use fj_world::{Ask, Script};
use std::sync::Arc;
use std::sync::atomic::AtomicU64;

// It is as a slow file: its short jobs wait until so many are performed at a time, or it has looked so many times.
#[derive(Drop)]
pub(crate) struct Meeter {
    many: u64,
    looks: u32,
    at_work: Arc<AtomicU64>,
}

impl Engine for Meeter {
    type Job = u64;

    type Answer = u64;

    type State = u64;

    type Task = u64;

    type Reply = u64;

    // It tells nothing.
    ghost meaning = { record {
      state = λ _. None;
      task = λ _. None;
      reply = λ answer. answer;
      serve = λ s t. record { engine = s; job = t; answer = t };
      spoilt = λ _ _ _ _. ⊥;
      faults = λ _. 0;
    } };

    fn perform(&mut self, job: &mut u64) -> Result<u64, Stop> {
        meet(&self.at_work, self.many, self.looks);
        Ok(*job)
    }

    fn faults(&self) -> u64 {
        0
    }

    fn is_long(_job: &u64) -> bool {
        false
    }
}

pub(crate) fn new_meeter(many: u64, looks: u32, at_work: Arc<AtomicU64>) -> Meeter {
    Meeter {
        many,
        looks,
        at_work,
    }
}

// Submits a job to each slot, and then waits for each.
#[derive(Drop)]
pub(crate) struct OnEach {
    slots: u32,
    sent: u32,
    pub(crate) heard: u32,
    number_due: bool,
    answer_due: bool,
    over: bool,
    stopped: bool,
    ghost stops: { stopped ≡ true → over ≡ true },
    ghost within: { (heard ≤ sent) × (sent ≤ slots) },
    ghost submits: { number_due ≡ true → (over ≡ false) × (sent < slots) × (answer_due ≡ false) },
    ghost settles: { answer_due ≡ true → (over ≡ false) × (heard < sent) },
}

impl Script for OnEach {
    type Gear = Meeter;

    // It tells nothing of itself.
    ghost conduct = { record {
      left = λ s. if s.over then 0 else (s.slots - s.sent) + (s.slots - s.heard);
      uses = λ s. s.slots;
      owed = λ s at. if ltb at s.sent then (if ltb at s.heard then 0 else 1) else 0;
      due = λ s. if s.number_due then Submitting s.sent else (if s.answer_due then Settling s.heard else Idle);
      over = λ s. s.over;
      stopped = λ s. s.stopped;
      leads = λ _ _. Unit {0};
      State = ℕ;
      state = λ _. None;
      ask = λ _. Finished;
      asked = λ s. s;
      took = λ s _. s;
      told = λ s _. s;
    } };

    ghost gives = { λ _ _. Unit {0} };

    fn ask(&mut self) -> Ask<u64> {
        if self.over {
            return Ask::Finished;
        }
        if self.sent < self.slots {
            self.number_due = true;
            return Ask::Submit {
                slot: self.sent,
                job: 1,
            };
        }
        if self.heard == self.sent {
            return Ask::Finished;
        }
        self.answer_due = true;
        Ask::Settle { slot: self.heard }
    }

    fn took(&mut self, number: Result<u64, Refused<u64>>)
        requires { IsSubmitting (⟦<OnEach as Script>⟧.conduct.due self.old) }
        ensures { Takes ⟦<OnEach as Script>⟧.conduct self.old number self.new }
    {
        self.number_due = false;
        match number {
            Ok(_) => self.sent += 1,
            Err(_) => self.over = true,
        }
    }

    fn told(&mut self, told: Told<Meeter>)
        requires { IsSettling (⟦<OnEach as Script>⟧.conduct.due self.old) }
        ensures { Tells ⟦<Meeter as Engine>⟧.meaning ⟦<OnEach as Script>⟧.conduct self.old told self.new }
    {
        self.answer_due = false;
        self.heard += 1;
        match told {
            Told::Done { job: _, answer: _ } => (),
            Told::Stopped {
                job: _,
                stop: _,
                before: _,
                after: _,
            } => {
                self.over = true;
                self.stopped = true;
            }
        }
    }
}

pub(crate) fn new_on_each(slots: u32) -> OnEach
    ensures idle { ⟦<OnEach as Script>⟧.conduct.due result ≡ Idle }
    ensures uses { ⟦<OnEach as Script>⟧.conduct.uses result ≡ slots }
    ensures left { ⟦<OnEach as Script>⟧.conduct.left result < 2 ^ 34 }
    ensures owed { (at : ℕ) → ⟦<OnEach as Script>⟧.conduct.owed result at ≡ 0 }
{
    OnEach {
        slots,
        sent: 0,
        heard: 0,
        number_due: false,
        answer_due: false,
        over: false,
        stopped: false,
    }
}
