// The slot.
ghost use Rattle.std.specs.Prelude.{◌≡◌, [], ◌<◌, ◌≤◌, ◌^◌, true, length, map, slice_get, Some, None, is_some, IsTrue, IfOk, IfErr, IfSome, IfNone};
ghost use Rattle.fj_slot.specs.Causes.{HasCause};
ghost use Rattle.fj_slot.specs.Sound.{IsCounted, IsSound, KeepsCounted, KeepsSound, KeepsSoundWith, KeepsSoundAfter, HandsOutDue, TellsOutcome};
ghost use Rattle.fj_slot.specs.Telling.{Tells};
ghost use Rattle.fj_slot.specs.Ledger.{fresh, with_job, with_out, with_answer, with_halt, with_tell, can_begin, can_tell, IsSized};

use crate::engine::Engine;
use crate::stop::Halt;
use crate::told::{Out, Refused, Told};
use fj_outside::Stop;
use std::alloc::Global;
use std::collections::VecDeque;
use std::marker::Model;
use std::snapshot::Snapshot;

/// A queue of jobs over one engine.
#[derive(Drop)]
pub struct Slot<E: Engine> {
    start: Snapshot<E>,
    given: Vec<Snapshot<E::Job>>,
    home: Option<E>,
    // submitted and not begun; in front of them the job that stopped the slot, until it is told
    waiting: VecDeque<E::Job>,
    finished: VecDeque<(E::Job, E::Answer)>,
    done: u64,
    told: u64,
    halt: Option<Halt>,
}

impl<E: Engine> Model for Slot<E> {
    ghost use Rattle.fj_slot.specs.Ledger.{Ledger};

    ghost Value = { Ledger E E.Job E.Answer };

    ghost use Rattle.fj_slot.specs.Slot.{IsWhole, given_jobs};

    ghost view = { λ s. record {
      start = s.start.value;
      jobs = given_jobs s;
      home = s.home;
      done = s.done;
      answers = s.finished.items;
      told = s.told;
      halt = s.halt;
    } };

    ghost invariant = { IsWhole };
}

impl<E: Engine> Slot<E> {
    /// A slot over an engine, with no job.
    pub fn new(alloc: Global, engine: E) -> Slot<E>
        ensures fresh { result ≡ fresh engine }
        ensures counted { IsCounted E.meaning result }
        ensures sound { (s : E.State) → E.meaning.state engine ≡ Some s → IsSound E.meaning s [] result }
    {
        Slot {
            start: Snapshot::of(&engine),
            given: Vec::new(alloc),
            home: Some(engine),
            waiting: VecDeque::new(alloc),
            finished: VecDeque::new(alloc),
            done: 0,
            told: 0,
            halt: None,
        }
    }

    /// The stop, where there is one.
    pub fn halted(&self) -> Option<Halt>
        ensures { result ≡ self.now.halt }
    {
        self.halt
    }

    /// How many jobs were submitted.
    pub fn submitted(&self) -> u64
        ensures number { result ≡ length self.now.jobs }
        ensures sized { IsSized self.now }
    {
        self.given.len() as u64
    }

    /// How many jobs are done.
    pub fn done(&self) -> u64
        ensures { result ≡ self.now.done }
    {
        self.done
    }

    /// How many jobs were told.
    pub fn told(&self) -> u64
        ensures { result ≡ self.now.told }
    {
        self.told
    }

    /// Appends a job and answers its number. It performs nothing.
    #[inline(always)]
    pub fn submit(&mut self, job: E::Job) -> Result<u64, Refused<E::Job>>
        requires { length self.old.jobs < 2 ^ 62 }
        ensures number { IfOk result (λ n. n ≡ length self.old.jobs) }
        ensures ok { IfOk result (λ _. self.new ≡ with_job self.old job) }
        ensures handed_back { IfErr result (λ refused. refused.job ≡ job) }
        ensures err { IfErr result (λ _. self.new ≡ self.old) }
        ensures counted { IfOk result (λ _. KeepsCounted E.meaning self.old self.new) }
        ensures sound { IfOk result (λ _. KeepsSoundWith E.meaning job self.old self.new) }
    {
        let out = if self.home.is_some() { 0 } else { 1 };
        let more = self.waiting.len() + out + 1;
        if let Err(error) = self.given.reserve(1) {
            return Err(Refused { job, error });
        }
        if let Err(error) = self.waiting.reserve(out + 1) {
            return Err(Refused { job, error });
        }
        if let Err(error) = self.finished.reserve(more) {
            return Err(Refused { job, error });
        }
        let number = self.given.len() as u64;
        self.given.push_reserved(Snapshot::of(&job));
        self.waiting.push_back_reserved(job);
        Ok(number)
    }

    /// Hands out the engine and the first job that was not begun.
    #[inline(always)]
    pub fn begin(&mut self) -> Option<Out<E>>
        ensures variant { is_some result ≡ can_begin self.old }
        ensures engine { IfSome result (λ out. self.old.home ≡ Some out.engine) }
        ensures job { IfSome result (λ out. slice_get self.old.jobs self.old.done ≡ Some out.job) }
        ensures number { IfSome result (λ out. out.number ≡ self.old.done) }
        ensures some { IfSome result (λ _. self.new ≡ with_out self.old) }
        ensures none { IfNone result (self.new ≡ self.old) }
        ensures counted { KeepsCounted E.meaning self.old self.new }
        ensures sound { KeepsSound E.meaning self.old self.new }
        ensures due { IfSome result (λ out. HandsOutDue E.meaning self.old out.number out.engine out.job) }
    {
        if self.halt.is_some() || self.home.is_none() {
            return None;
        }
        let job = self.waiting.pop_front()?;
        let Some(engine) = self.home.take() else {
            unreachable!()
        };
        Some(Out {
            number: self.done,
            engine,
            job,
        })
    }

    /// Takes the engine and the job back, with what performing the job gave.
    #[inline(always)]
    pub fn end(&mut self, out: Out<E>, got: Result<E::Answer, Stop>, before: u64)
        requires number { out.number ≡ self.old.done }
        requires out { self.old.home ≡ None }
        requires cause { HasCause before (E.meaning.faults out.engine) got }
        ensures ok { IfOk got (λ answer. self.new ≡ with_answer self.old out.engine out.job answer) }
        ensures err { IfErr got (λ stop. self.new ≡ with_halt self.old out.engine
            (record { stop = stop; before = before; after = E.meaning.faults out.engine })) }
        ensures counted { E.meaning.faults self.old.start ≤ before → KeepsCounted E.meaning self.old self.new }
        ensures sound { KeepsSoundAfter E.meaning out.engine out.job got before self.old self.new }
    {
        let Out {
            number: _,
            engine,
            job,
        } = out;
        match got {
            Ok(answer) => {
                self.finished.push_back_reserved((job, answer));
                self.done += 1;
            }
            Err(stop) => {
                let after = engine.faults();
                self.waiting.push_front_reserved(job);
                self.halt = Some(Halt {
                    stop,
                    before,
                    after,
                });
            }
        }
        self.home = Some(engine);
    }

    /// Tells whether the next job can be told.
    #[inline(always)]
    pub fn ready(&self) -> bool
        ensures { result ≡ can_tell self.now }
    {
        if self.halt.is_some() {
            self.told < self.given.len() as u64
        } else {
            self.told < self.done
        }
    }

    /// Tells the next job.
    #[inline(always)]
    pub fn tell(&mut self) -> Told<E>
        requires { can_tell self.old ≡ true }
        ensures told { Tells self.old result }
        ensures after { self.new ≡ with_tell self.old }
        ensures counted { KeepsCounted E.meaning self.old self.new }
        ensures sound { KeepsSound E.meaning self.old self.new }
        ensures outcome { TellsOutcome E.meaning self.old result }
    {
        self.told += 1;
        if let Some((job, answer)) = self.finished.pop_front() {
            return Told::Done { job, answer };
        }
        let Some(job) = self.waiting.pop_front() else {
            unreachable!()
        };
        let Some(halt) = self.halt else {
            unreachable!()
        };
        Told::Stopped {
            job,
            stop: halt.stop,
            before: halt.before,
            after: halt.after,
        }
    }

    /// Gives the engine back. Answers that were not told are dropped.
    pub fn retire(self) -> E
        requires { is_some self.home ≡ true }
        ensures { self.home ≡ Some result }
    {
        let Slot {
            start: _,
            given: _,
            home,
            waiting: _,
            finished: _,
            done: _,
            told: _,
            halt: _,
        } = self;
        home.unwrap()
    }
}
