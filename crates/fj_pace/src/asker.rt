//! A script that keeps so many jobs submitted and not told, by turns in two slots or in one alone.
ghost use Rattle.std.specs.Prelude.{◌≡◌, ℕ, ◌+◌, ◌-◌, ◌^◌, ◌<◌, ◌≤◌, ◌==◌, None, if◌then◌else◌, true, false};
ghost use Rattle.fj_world.specs.declared.ask.Ask.TheVariants.{Finished};
ghost use Rattle.fj_world.specs.Conduct.{IsSubmitting, IsSettling, Takes, Tells, Idle, Submitting, Settling};

use crate::counter::Counter;
use fj_slot::{Engine, Refused, Told};
use fj_world::{Ask, Script};

/// Submits the numbers from 1 to a limit. It waits for a sum where so many jobs are owed.
#[derive(Drop)]
pub struct Asker {
    limit: u64,
    sent: u64,
    owed_first: u64,
    owed_second: u64,
    // the last sums that were told
    pub first: u64,
    second: u64,
    ahead: u64,
    both: bool,
    slot: u32,
    number_due: bool,
    answer_due: bool,
    over: bool,
    stopped: bool,
    ghost stops: { stopped ≡ true → over ≡ true },
    ghost within: { sent ≤ limit },
    ghost few: { limit < 2 ^ 32 },
    ghost owed: { owed_first + owed_second ≤ sent },
    ghost two: { slot < 2 },
    ghost submits: { number_due ≡ true → (over ≡ false) × (sent < limit) × (answer_due ≡ false) },
    ghost settles: { answer_due ≡ true → (over ≡ false) × (0 < (if slot == 0 then owed_first else owed_second)) },
}

impl Script for Asker {
    type Gear = Counter;

    // It tells nothing of itself.
    ghost conduct = { record {
      left = λ s. if s.over then 0 else (s.limit - s.sent) + (s.limit - s.sent) + s.owed_first + s.owed_second;
      uses = λ _. 2;
      owed = λ s at. if at == 0 then s.owed_first else (if at == 1 then s.owed_second else 0);
      due = λ s. if s.number_due then Submitting s.slot else (if s.answer_due then Settling s.slot else Idle);
      over = λ s. s.over;
      stopped = λ s. s.stopped;
      leads = λ _ _. Unit {0};
      State = ℕ;
      state = λ _. None;
      ask = λ _. Finished;
      asked = λ s. s;
      took = λ s _. s;
      told = λ s _. s;
    } };

    ghost gives = { λ _ _. Unit {0} };

    fn ask(&mut self) -> Ask<u64> {
        if self.over {
            return Ask::Finished;
        }
        if self.sent < self.limit && self.owed_first + self.owed_second < self.ahead {
            self.slot = if self.both { (self.sent % 2) as u32 } else { 0 };
            self.number_due = true;
            return Ask::Submit {
                slot: self.slot,
                job: self.sent + 1,
            };
        }
        if self.owed_first == 0 && self.owed_second == 0 {
            return Ask::Finished;
        }
        self.slot = if self.owed_second <= self.owed_first {
            0
        } else {
            1
        };
        self.answer_due = true;
        Ask::Settle { slot: self.slot }
    }

    fn took(&mut self, number: Result<u64, Refused<u64>>)
        requires { IsSubmitting (⟦<Asker as Script>⟧.conduct.due self.old) }
        ensures { Takes ⟦<Asker as Script>⟧.conduct self.old number self.new }
    {
        self.number_due = false;
        match number {
            Ok(_) => {
                self.sent += 1;
                if self.slot == 0 {
                    self.owed_first += 1;
                } else {
                    self.owed_second += 1;
                }
            }
            Err(_) => self.over = true,
        }
    }

    fn told(&mut self, told: Told<Counter>)
        requires { IsSettling (⟦<Asker as Script>⟧.conduct.due self.old) }
        ensures { Tells ⟦<Counter as Engine>⟧.meaning ⟦<Asker as Script>⟧.conduct self.old told self.new }
    {
        self.answer_due = false;
        if self.slot == 0 {
            self.owed_first -= 1;
        } else {
            self.owed_second -= 1;
        }
        match told {
            Told::Done { job: _, answer } => {
                if self.slot == 0 {
                    self.first = answer;
                } else {
                    self.second = answer;
                }
            }
            Told::Stopped {
                job: _,
                stop: _,
                before: _,
                after: _,
            } => {
                self.over = true;
                self.stopped = true;
            }
        }
    }
}

pub fn new_asker(limit: u64, ahead: u64, both: bool) -> Asker
    requires { limit < 2 ^ 32 }
    ensures idle { ⟦<Asker as Script>⟧.conduct.due result ≡ Idle }
    ensures left { ⟦<Asker as Script>⟧.conduct.left result < 2 ^ 34 }
    ensures owed { (at : ℕ) → ⟦<Asker as Script>⟧.conduct.owed result at ≡ 0 }
{
    Asker {
        limit,
        sent: 0,
        owed_first: 0,
        owed_second: 0,
        first: 0,
        second: 0,
        ahead,
        both,
        slot: 0,
        number_due: false,
        answer_due: false,
        over: false,
        stopped: false,
    }
}
