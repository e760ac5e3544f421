// A world: a script, slots and workers, and the events that may happen to them.
ghost use Rattle.std.specs.Prelude.{◌≡◌, ℕ, ◌+◌, ◌<◌, ◌≤◌, ◌^◌, ◌&&◌, true, false, List, length, replicate, Some, None, slice_get, All, IsTrue, ◌↔◌, IfOk, IfErr};
ghost use Rattle.fj_slot.specs.Ledger.{Ledger};
ghost use Rattle.fj_world.specs.declared.ask.Ask.TheVariants.{Finished};
ghost use Rattle.fj_world.specs.declared.event.Event.TheVariants.{Script, Begin, End};
ghost use Rattle.fj_world.specs.Conduct.{Idle, Asks};
ghost use Rattle.fj_world.specs.Rack.{At};
ghost use Rattle.fj_world.specs.Plain.{Plain, PlainSlot, asked_next};
ghost use Rattle.fj_world.specs.Fits.{Fits, Advances, StepFits, SlotsFit, IsDrained};
ghost use Rattle.fj_world.specs.Happening.{Happens};
ghost use Rattle.fj_world.specs.Keeping.{Keeps};
ghost use Rattle.fj_world.specs.Runs.{RunsThrough};
ghost use Rattle.fj_world.specs.Sketch.{Moves};
ghost use Rattle.fj_world.specs.Scene.{Scene};
ghost use Rattle.fj_world.specs.Steps.{is_script, is_enabled, can_serve, is_free, is_busy, is_waiting};

use crate::ask::Ask;
use crate::busy::Busy;
use crate::event::Event;
use crate::script::Script;
use crate::slots::Slots;
use fj_slot::Engine;
use std::alloc::{AllocError, Global};
use std::marker::Model;
use std::mem;
use std::snapshot::Snapshot;

/// A script, slots and workers.
#[derive(Drop)]
pub struct World<S: Script> {
    start: Snapshot<S>,
    script: S,
    hand: Ask<<S::Gear as Engine>::Job>,
    slots: Slots<S::Gear>,
    workers: Vec<Option<Busy<S::Gear>>>,
}

impl<S: Script> Model for World<S> {
    ghost use Rattle.fj_world.specs.Giving.{GivesOf};
    ghost use Rattle.fj_world.specs.Scene.{Scene, IsOrderly};

    ghost Value = { Scene S S.Gear S.Gear.Job S.Gear.Answer S.Gear.State S.Gear.Task S.Gear.Reply };

    ghost view = { λ s. record { start = s.start.value; script = s.script; hand = s.hand; rack = s.slots; workers = s.workers.items } };

    ghost invariant = { λ s. IsOrderly S.Gear.meaning S.conduct (record { start = s.start.value; script = s.script; hand = s.hand; rack = s.slots; workers = s.workers.items })
        × GivesOf S.gives s.script s.hand };
}

/// What was not made a world, for want of memory.
#[derive(Drop)]
pub struct Unmade<S: Script> {
    pub script: S,
    pub slots: Slots<S::Gear>,
    pub error: AllocError,
}

impl<S: Script> World<S> {
    /// A world with the first ask at hand.
    pub fn new(
        alloc: Global,
        script: S,
        slots: Slots<S::Gear>,
        workers: u32,
    ) -> Result<World<S>, Unmade<S>>
        requires idle { S.conduct.due script ≡ Idle }
        requires uses { S.conduct.uses script ≤ length slots.slots }
        requires few { (at : ℕ) → At slots at (λ l. length l.jobs + S.conduct.left script < 2 ^ 62) }
        ensures start { IfOk result (λ w. w.start ≡ script) }
        ensures asks { IfOk result (λ w. Asks S.Gear.meaning S.conduct script w.hand w.script) }
        ensures rack { IfOk result (λ w. w.rack ≡ slots) }
        ensures workers { IfOk result (λ w. w.workers ≡ replicate workers None) }
        ensures fits { IfOk result (λ w. (s : S.conduct.State) (qs : List (PlainSlot S.Gear.State S.Gear.Task)) → S.conduct.state script ≡ Some s
            → S.conduct.stopped script ≡ false → SlotsFit S.Gear.meaning qs slots → Fits S.Gear.meaning S.conduct (asked_next S.Gear.meaning S.conduct s qs) w) }
        ensures handed_back { IfErr result (λ unmade. (unmade.script ≡ script) × (unmade.slots ≡ slots)) }
    {
        let start = Snapshot::of(&script);
        let workers = match idle_workers(alloc, workers) {
            Ok(workers) => workers,
            Err(error) => return Err(Unmade {
                script,
                slots,
                error,
            }),
        };
        let mut script = script;
        let hand = script.ask();
        Ok(World {
            start,
            script,
            hand,
            slots,
            workers,
        })
    }

    /// Each event that is enabled, in order. Answers how many were.
    pub fn run_events(&mut self, events: &[Event]) -> u64
        ensures { RunsThrough S.Gear.meaning S.conduct events.now result self.old self.new }
    {
        let mut count = 0u64;
        for event in events {
            if self.step(*event) {
                count += 1;
            }
        }
        count
    }

    /// Tells whether the script has finished and no worker holds a job.
    pub fn is_done(&self) -> bool
        ensures { IsTrue result ↔ ((self.now.hand ≡ Finished) × All (λ held. held ≡ None) self.now.workers) }
    {
        match self.hand {
            Ask::Finished => are_idle(&self.workers),
            _ => false,
        }
    }

    /// The script and the slots of a world that is done.
    pub fn into_parts(self) -> (S, Slots<S::Gear>)
        requires finished { self.hand ≡ Finished }
        requires idle { All (λ held. held ≡ None) self.workers }
        ensures script { result.0 ≡ self.script }
        ensures rack { result.1 ≡ self.rack }
        ensures drained { (p : Plain S.Gear.State S.conduct) → Fits S.Gear.meaning S.conduct p self → IsDrained S.Gear.meaning S.conduct p result.0 result.1 }
    {
        let World {
            start: _,
            script,
            hand: _,
            slots,
            workers: _,
        } = self;
        (script, slots)
    }

    /// One event, if it is enabled.
    pub fn step(&mut self, event: Event) -> bool
        ensures variant { result ≡ is_enabled self.old event }
        ensures none { result ≡ false → self.new ≡ self.old }
        ensures start { self.new.start ≡ self.old.start }
        ensures happens { result ≡ true → Happens S.Gear.meaning S.conduct event self.old self.new }
        ensures keeps { result ≡ true → Keeps S.Gear.meaning S.conduct self.old self.new }
        ensures going { result ≡ true → is_script event ≡ true → S.conduct.over self.old.script ≡ false }
        ensures fits { (p : Plain S.Gear.State S.conduct) → Fits S.Gear.meaning S.conduct p self.old → StepFits S.Gear.meaning S.conduct event result p self.new }
        ensures moves { result ≡ true → Moves S.Gear.meaning S.conduct event self.old self.new }
    {
        match event {
            Event::Script => self.serve(),
            Event::Begin { worker, slot } => self.begin(worker, slot),
            Event::End { worker } => self.end(worker),
        }
    }

    fn serve(&mut self) -> bool
        ensures variant { result ≡ can_serve self.old.hand self.old.rack }
        ensures none { result ≡ false → self.new ≡ self.old }
        ensures start { self.new.start ≡ self.old.start }
        ensures happens { result ≡ true → Happens S.Gear.meaning S.conduct Script self.old self.new }
        ensures keeps { result ≡ true → Keeps S.Gear.meaning S.conduct self.old self.new }
        ensures going { result ≡ true → S.conduct.over self.old.script ≡ false }
        ensures fits { result ≡ true → (p : Plain S.Gear.State S.conduct) → Fits S.Gear.meaning S.conduct p self.old → Advances S.Gear.meaning S.conduct p self.new }
        ensures moves { result ≡ true → Moves S.Gear.meaning S.conduct Script self.old self.new }
    {
        match mem::replace(&mut self.hand, Ask::Finished) {
            Ask::Submit { slot, job } => {
                let number = self.slots.submit(slot as usize, job);
                self.script.took(number);
                self.hand = self.script.ask();
                true
            }
            Ask::Settle { slot } => {
                if !self.slots.ready(slot as usize) {
                    self.hand = Ask::Settle { slot };
                    return false;
                }
                let told = self.slots.tell(slot as usize);
                self.script.told(told);
                self.hand = self.script.ask();
                true
            }
            Ask::Finished => false,
        }
    }

    fn begin(&mut self, worker: u32, slot: u32) -> bool
        ensures variant { result ≡ (is_free (slice_get self.old.workers worker) && is_waiting (slice_get self.old.rack.slots slot)) }
        ensures none { result ≡ false → self.new ≡ self.old }
        ensures start { self.new.start ≡ self.old.start }
        ensures happens { result ≡ true → Happens S.Gear.meaning S.conduct (Begin worker slot) self.old self.new }
        ensures keeps { result ≡ true → Keeps S.Gear.meaning S.conduct self.old self.new }
        ensures fits { (p : Plain S.Gear.State S.conduct) → Fits S.Gear.meaning S.conduct p self.old → Fits S.Gear.meaning S.conduct p self.new }
        ensures moves { result ≡ true → Moves S.Gear.meaning S.conduct (Begin worker slot) self.old self.new }
    {
        let (at, to) = (worker as usize, slot as usize);
        if at >= self.workers.len() || to >= self.slots.len() || self.workers[at].is_some() {
            return false;
        }
        let Some(out) = self.slots.begin(to) else {
            return false;
        };
        self.workers[at] = Some(Busy { slot, out });
        true
    }

    fn end(&mut self, worker: u32) -> bool
        ensures variant { result ≡ is_busy (slice_get self.old.workers worker) }
        ensures none { result ≡ false → self.new ≡ self.old }
        ensures start { self.new.start ≡ self.old.start }
        ensures happens { result ≡ true → Happens S.Gear.meaning S.conduct (End worker) self.old self.new }
        ensures keeps { result ≡ true → Keeps S.Gear.meaning S.conduct self.old self.new }
        ensures fits { (p : Plain S.Gear.State S.conduct) → Fits S.Gear.meaning S.conduct p self.old → Fits S.Gear.meaning S.conduct p self.new }
        ensures moves { result ≡ true → Moves S.Gear.meaning S.conduct (End worker) self.old self.new }
    {
        let at = worker as usize;
        if at >= self.workers.len() {
            return false;
        }
        let Some(busy) = self.workers[at].take() else {
            return false;
        };
        let Busy { slot, mut out } = busy;
        let before = out.engine.faults();
        let got = out.engine.perform(&mut out.job);
        self.slots.end(slot as usize, out, got, before);
        true
    }
}

fn idle_workers<E: Engine>(alloc: Global, count: u32) -> Result<Vec<Option<Busy<E>>>, AllocError>
    ensures { IfOk result (λ v. v.items ≡ replicate count None) }
{
    let mut workers = Vec::new(alloc);
    for _i in 0..count {
        workers.push(None)?;
    }
    Ok(workers)
}

fn are_idle<E: Engine>(workers: &[Option<Busy<E>>]) -> bool
    ensures { IsTrue result ↔ All (λ held. held ≡ None) workers.now }
{
    for held in workers {
        if held.is_some() {
            return false;
        }
    }
    true
}
