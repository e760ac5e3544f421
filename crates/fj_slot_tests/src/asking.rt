// A script that submits numbers to two adders and waits for each sum.
ghost use Rattle.std.specs.Prelude.{◌≡◌, ℕ, ◌+◌, ◌-◌, ◌^◌, ◌<◌, ◌≤◌, ◌==◌, None, if◌then◌else◌, true, false};
ghost use Rattle.fj_world.specs.declared.ask.Ask.TheVariants.{Finished};
ghost use Rattle.fj_world.specs.Conduct.{IsSubmitting, IsSettling, Takes, Tells, Idle, Submitting, Settling};

use fj_outside::Stop;
use fj_slot::{Engine, Refused, Told};
use fj_world::{Ask, Script};
use std::sync::Arc;
use std::sync::atomic::AtomicU64;
use std::sync::atomic::Ordering::SeqCst;
use std::thread;

// This much is counted by each job that met the others.
pub(crate) const MET: u64 = 1000;

// Looks so many times whether so many jobs are performed at a time, this one among them.
pub(crate) fn meet(at_work: &AtomicU64, many: u64, looks: u32) {
    let _ = at_work.fetch_add(1, SeqCst);
    for _ in 0..looks {
        if at_work.load(SeqCst) >= many {
            let _ = at_work.fetch_add(MET, SeqCst);
            return;
        }
        thread::yield_now();
    }
    let _ = at_work.fetch_sub(1, SeqCst);
}

// It looks at its first job whether another is at work, adds until so many jobs are left, and then fails.
#[derive(Drop)]
pub(crate) struct Adder {
    sum: u64,
    left: u64,
    faults: u64,
    looks: u32,
    at_work: Arc<AtomicU64>,
}

impl Engine for Adder {
    type Job = u64;

    type Answer = u64;

    type State = u64;

    type Task = u64;

    type Reply = u64;

    // It tells nothing.
    ghost meaning = { record {
      state = λ _. None;
      task = λ _. None;
      reply = λ answer. answer;
      serve = λ s t. record { engine = s; job = t; answer = t };
      spoilt = λ _ _ _ _. ⊥;
      faults = λ adder. adder.faults;
    } };

    fn perform(&mut self, job: &mut u64) -> Result<u64, Stop> {
        if self.left == 0 {
            self.faults = self.faults.saturating_add(1);
            return Err(Stop::Failed);
        }
        if self.sum == 0 {
            meet(&self.at_work, 2, self.looks);
        }
        self.left -= 1;
        self.sum = self.sum.wrapping_add(*job);
        Ok(self.sum)
    }

    fn faults(&self) -> u64 {
        self.faults
    }
}

// Submits the numbers from 1 to a limit, by turns to two slots, and then waits for all of their sums.
#[derive(Drop)]
pub(crate) struct Asker {
    limit: u64,
    sent: u64,
    owed_first: u64,
    owed_second: u64,
    // the last sums that were told
    pub(crate) first: u64,
    pub(crate) second: u64,
    slot: u32,
    number_due: bool,
    answer_due: bool,
    over: bool,
    pub(crate) stopped: bool,
    ghost stops: { stopped ≡ true → over ≡ true },
    ghost within: { sent ≤ limit },
    ghost few: { limit < 2 ^ 32 },
    ghost owed: { owed_first + owed_second ≤ sent },
    ghost two: { slot < 2 },
    ghost submits: { number_due ≡ true → (over ≡ false) × (sent < limit) × (answer_due ≡ false) },
    ghost settles: { answer_due ≡ true → (over ≡ false) × (0 < (if slot == 0 then owed_first else owed_second)) },
}

impl Script for Asker {
    type Gear = Adder;

    // It tells nothing of itself.
    ghost conduct = { record {
      left = λ s. if s.over then 0 else (s.limit - s.sent) + (s.limit - s.sent) + s.owed_first + s.owed_second;
      uses = λ _. 2;
      owed = λ s at. if at == 0 then s.owed_first else (if at == 1 then s.owed_second else 0);
      due = λ s. if s.number_due then Submitting s.slot else (if s.answer_due then Settling s.slot else Idle);
      over = λ s. s.over;
      stopped = λ s. s.stopped;
      leads = λ _ _. Unit {0};
      State = ℕ;
      state = λ _. None;
      ask = λ _. Finished;
      asked = λ s. s;
      took = λ s _. s;
      told = λ s _. s;
    } };

    ghost gives = { λ _ _. Unit {0} };

    fn ask(&mut self) -> Ask<u64> {
        if self.over {
            return Ask::Finished;
        }
        if self.sent < self.limit {
            self.slot = (self.sent % 2) as u32;
            self.number_due = true;
            return Ask::Submit {
                slot: self.slot,
                job: self.sent + 1,
            };
        }
        if self.owed_first == 0 && self.owed_second == 0 {
            return Ask::Finished;
        }
        self.slot = if self.owed_second <= self.owed_first {
            0
        } else {
            1
        };
        self.answer_due = true;
        Ask::Settle { slot: self.slot }
    }

    fn took(&mut self, number: Result<u64, Refused<u64>>)
        requires { IsSubmitting (⟦<Asker as Script>⟧.conduct.due self.old) }
        ensures { Takes ⟦<Asker as Script>⟧.conduct self.old number self.new }
    {
        self.number_due = false;
        match number {
            Ok(_) => {
                self.sent += 1;
                if self.slot == 0 {
                    self.owed_first += 1;
                } else {
                    self.owed_second += 1;
                }
            }
            Err(_) => self.over = true,
        }
    }

    fn told(&mut self, told: Told<Adder>)
        requires { IsSettling (⟦<Asker as Script>⟧.conduct.due self.old) }
        ensures { Tells ⟦<Adder as Engine>⟧.meaning ⟦<Asker as Script>⟧.conduct self.old told self.new }
    {
        self.answer_due = false;
        if self.slot == 0 {
            self.owed_first -= 1;
        } else {
            self.owed_second -= 1;
        }
        match told {
            Told::Done { job: _, answer } => {
                if self.slot == 0 {
                    self.first = answer;
                } else {
                    self.second = answer;
                }
            }
            Told::Stopped {
                job: _,
                stop: _,
                before: _,
                after: _,
            } => {
                self.over = true;
                self.stopped = true;
            }
        }
    }
}

pub(crate) fn new_adder(left: u64, looks: u32, at_work: Arc<AtomicU64>) -> Adder {
    Adder {
        sum: 0,
        left,
        faults: 0,
        looks,
        at_work,
    }
}

pub(crate) fn new_asker(limit: u64) -> Asker
    requires { limit < 2 ^ 32 }
    ensures idle { ⟦<Asker as Script>⟧.conduct.due result ≡ Idle }
    ensures left { ⟦<Asker as Script>⟧.conduct.left result < 2 ^ 34 }
    ensures owed { (at : ℕ) → ⟦<Asker as Script>⟧.conduct.owed result at ≡ 0 }
{
    Asker {
        limit,
        sent: 0,
        owed_first: 0,
        owed_second: 0,
        first: 0,
        second: 0,
        slot: 0,
        number_due: false,
        answer_due: false,
        over: false,
        stopped: false,
    }
}
