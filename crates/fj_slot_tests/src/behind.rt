// A short job that stands behind an earlier one of its slot is told to a worker where the earlier one is waited for.
ghost use Rattle.std.specs.Prelude.{◌≡◌, ℕ, ◌+◌, ◌-◌, ◌^◌, ◌<◌, ◌≤◌, ◌==◌, None, if◌then◌else◌, true, false};
ghost use Rattle.fj_world.specs.declared.ask.Ask.TheVariants.{Finished};
ghost use Rattle.fj_world.specs.Conduct.{IsSubmitting, IsSettling, Takes, Tells, Idle, Submitting, Settling};

use crate::asking::MET;
use crate::meeting::Meeter;
use crate::overlap::meeters;
use fj_crew::run_crew;
use fj_slot::{Engine, Refused, Told};
use fj_world::{Ask, Script};
use std::alloc::Global;
use std::sync::atomic::AtomicU64;
use std::sync::atomic::Ordering::SeqCst;
use std::sync::{Arc, Wait};
use std::test::Fail;
use std::thread;
use std::thread::Threads;

const ASKS: u32 = 6;

// What it asks at each place: whether it submits, and the slot.
fn ask_at(place: u32) -> (bool, u32)
    ensures { result.1 < 2 }
{
    match place {
        0 => (true, 0),
        1 => (true, 1),
        2 => (false, 1),
        3 => (true, 0),
        _ => (false, 0),
    }
}

// Looks so many times whether so many jobs were performed.
fn sees(performed: &AtomicU64, jobs: u64, looks: u32) -> bool {
    for _ in 0..looks {
        if performed.load(SeqCst) / MET >= jobs {
            return true;
        }
        thread::yield_now();
    }
    false
}

// Behind two jobs that are done it submits a third, and asks for the answer of the first; then it goes on once the third was performed,
// or it has looked so many times.
#[derive(Drop)]
struct Behind {
    performed: Arc<AtomicU64>,
    looks: u32,
    place: u32,
    owed_first: u64,
    owed_second: u64,
    slot: u32,
    seen: bool,
    number_due: bool,
    answer_due: bool,
    over: bool,
    stopped: bool,
    ghost stops: { stopped ≡ true → over ≡ true },
    ghost within: { place ≤ 6 },
    ghost owed: { owed_first + owed_second ≤ place },
    ghost two: { slot < 2 },
    ghost submits: { number_due ≡ true → (over ≡ false) × (place < 6) × (answer_due ≡ false) },
    ghost settles: { answer_due ≡ true → (over ≡ false) × (place < 6) × (0 < (if slot == 0 then owed_first else owed_second)) },
}

impl Script for Behind {
    type Gear = Meeter;

    // It tells nothing of itself.
    ghost conduct = { record {
      left = λ s. if s.over then 0 else 6 - s.place;
      uses = λ _. 2;
      owed = λ s at. if at == 0 then s.owed_first else (if at == 1 then s.owed_second else 0);
      due = λ s. if s.number_due then Submitting s.slot else (if s.answer_due then Settling s.slot else Idle);
      over = λ s. s.over;
      stopped = λ s. s.stopped;
      leads = λ _ _. Unit {0};
      State = ℕ;
      state = λ _. None;
      ask = λ _. Finished;
      asked = λ s. s;
      took = λ s _. s;
      told = λ s _. s;
    } };

    ghost gives = { λ _ _. Unit {0} };

    fn ask(&mut self) -> Ask<u64> {
        if self.over || self.place >= ASKS {
            return Ask::Finished;
        }
        if self.place == 3 {
            // Both are done, and the worker has had time to fall asleep.
            let _ = sees(&self.performed, 2, self.looks);
            let _ = sees(&self.performed, 3, 100_000);
        }
        if self.place == 5 {
            self.seen = sees(&self.performed, 3, self.looks);
        }
        let (submits, slot) = ask_at(self.place);
        self.slot = slot;
        if submits {
            self.number_due = true;
            return Ask::Submit { slot, job: 1 };
        }
        let owed = if slot == 0 {
            self.owed_first
        } else {
            self.owed_second
        };
        if owed == 0 {
            return Ask::Finished;
        }
        self.answer_due = true;
        Ask::Settle { slot }
    }

    fn took(&mut self, number: Result<u64, Refused<u64>>)
        requires { IsSubmitting (⟦<Behind as Script>⟧.conduct.due self.old) }
        ensures { Takes ⟦<Behind as Script>⟧.conduct self.old number self.new }
    {
        self.number_due = false;
        match number {
            Ok(_) => {
                self.place += 1;
                if self.slot == 0 {
                    self.owed_first += 1;
                } else {
                    self.owed_second += 1;
                }
            }
            Err(_) => self.over = true,
        }
    }

    fn told(&mut self, told: Told<Meeter>)
        requires { IsSettling (⟦<Behind as Script>⟧.conduct.due self.old) }
        ensures { Tells ⟦<Meeter as Engine>⟧.meaning ⟦<Behind as Script>⟧.conduct self.old told self.new }
    {
        self.answer_due = false;
        self.place += 1;
        if self.slot == 0 {
            self.owed_first -= 1;
        } else {
            self.owed_second -= 1;
        }
        match told {
            Told::Done { job: _, answer: _ } => (),
            Told::Stopped {
                job: _,
                stop: _,
                before: _,
                after: _,
            } => {
                self.over = true;
                self.stopped = true;
            }
        }
    }
}

fn new_behind(performed: Arc<AtomicU64>, looks: u32) -> Behind
    ensures idle { ⟦<Behind as Script>⟧.conduct.due result ≡ Idle }
    ensures left { ⟦<Behind as Script>⟧.conduct.left result < 2 ^ 34 }
    ensures owed { (at : ℕ) → ⟦<Behind as Script>⟧.conduct.owed result at ≡ 0 }
{
    Behind {
        performed,
        looks,
        place: 0,
        owed_first: 0,
        owed_second: 0,
        slot: 0,
        seen: false,
        number_due: false,
        answer_due: false,
        over: false,
        stopped: false,
    }
}

// How many asks were served, and whether the third job was performed before its answer was asked for.
fn run_behind<R: Threads + Wait + Sync>(
    rt: &R,
    alloc: Global,
    looks: u32,
    workers: u32,
) -> Option<(u32, bool)> {
    let performed = Arc::new(alloc, AtomicU64::new(0)).ok()?;
    let slots = meeters(alloc, 2, 1, 1, &performed)?;
    let mut script = new_behind(performed, looks);
    let _slots = run_crew(rt, alloc, &mut script, slots, workers).ok()?;
    Some((script.place, script.seen))
}

#[test]
fn a_job_behind_an_earlier_one_is_told(rt: HostRuntime) -> Result<(), Fail> {
    for workers in [1, 4] {
        let outcome = run_behind(&rt, rt.alloc(), 20_000_000, workers);
        assert_eq!(rt; outcome, Some((ASKS, true)));
    }
    // Where no worker is, it looks in vain.
    assert_eq!(rt; run_behind(&rt, rt.alloc(), 10, 0), Some((ASKS, false)));
    Ok(())
}
