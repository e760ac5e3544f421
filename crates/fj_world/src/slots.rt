// A list of slots.
ghost use Rattle.std.specs.Prelude.{◌≡◌, ◌+◌, ◌-◌, ◌<◌, ◌^◌, [], ◌∷◌, ◌++◌, length, slice_get, slice_set, true, Some, None, is_some, IfOk, IfErr, IfSome, IfNone, OnErr, OnOk, IsOk, option_to_list};
ghost use Rattle.fj_slot.specs.Causes.{HasCause};
ghost use Rattle.fj_slot.specs.Ledger.{Ledger, with_job, with_out, with_answer, with_halt, with_tell, can_begin, can_tell};
ghost use Rattle.fj_slot.specs.Telling.{Tells};
ghost use Rattle.fj_world.specs.Rack.{Rack, At};

use fj_outside::Stop;
use fj_slot::{Engine, Out, Refused, Slot, Told};
use std::alloc::{AllocError, Global};
use std::marker::Model;

/// A list of slots.
#[derive(Drop)]
pub struct Slots<E: Engine> {
    items: Vec<Slot<E>>,
}

impl<E: Engine> Model for Slots<E> {
    ghost use Rattle.std.specs.Prelude.{◌-◌, vec_len, vec_capacity};
    ghost use Rattle.fj_world.specs.Rack.{Rack};

    ghost Value = { Rack E E.Job E.Answer };

    ghost view = { λ s. record { slots = s.items.items; spare = vec_capacity s.items - vec_len s.items } };
}

impl<E: Engine> Slots<E> {
    pub fn new(alloc: Global) -> Slots<E>
        ensures { result.slots ≡ [] }
    {
        Slots {
            items: Vec::new(alloc),
        }
    }

    pub fn len(&self) -> usize
        ensures { result ≡ length self.now.slots }
    {
        self.items.len()
    }

    pub fn get(&self, at: usize) -> Option<&Slot<E>>
        ensures some { IfSome result (λ slot. slice_get self.now.slots at ≡ Some slot.now) }
        ensures none { IfNone result (slice_get self.now.slots at ≡ None) }
    {
        self.items.get(at)
    }

    pub fn push(&mut self, slot: Slot<E>) -> Result<(), Refused<Slot<E>>>
        ensures ok { OnOk result (self.new.slots ≡ self.old.slots ++ slot ∷ []) }
        ensures room { 0 < self.old.spare → IsOk result }
        ensures spare { 0 < self.old.spare → self.new.spare ≡ self.old.spare - 1 }
        ensures handed_back { IfErr result (λ refused. refused.job ≡ slot) }
        ensures err { OnErr result (self.new.slots ≡ self.old.slots) }
    {
        if self.items.len() < self.items.capacity() {
            self.items.push_reserved(slot);
            return Ok(());
        }
        match self.items.push(slot) {
            Ok(()) => Ok(()),
            Err(refused) => Err(Refused {
                job: refused.value,
                error: AllocError,
            }),
        }
    }

    pub fn pop(&mut self) -> Option<Slot<E>>
        ensures slots { self.old.slots ≡ self.new.slots ++ option_to_list result }
        ensures spare { IfSome result (λ _. self.new.spare ≡ self.old.spare + 1) }
        ensures none { IfNone result ((self.old.slots ≡ []) × (self.new ≡ self.old)) }
    {
        self.items.pop()
    }

    pub(crate) fn submit(&mut self, at: usize, job: E::Job) -> Result<u64, Refused<E::Job>>
        requires within { at < length self.old.slots }
        requires few { At self.old at (λ l. length l.jobs < 2 ^ 62) }
        ensures ok { At self.old at (λ l. IfOk result (λ n. n ≡ length l.jobs)) }
        ensures after { At self.old at (λ l. IfOk result (λ _. self.new.slots ≡ slice_set self.old.slots at (with_job l job))) }
        ensures handed_back { IfErr result (λ refused. refused.job ≡ job) }
        ensures err { OnErr result (self.new ≡ self.old) }
        ensures spare { self.new.spare ≡ self.old.spare }
    {
        let slot = &mut self.items[at];
        slot.submit(job)
    }

    pub(crate) fn begin(&mut self, at: usize) -> Option<Out<E>>
        requires { at < length self.old.slots }
        ensures variant { At self.old at (λ l. is_some result ≡ can_begin l) }
        ensures engine { At self.old at (λ l. IfSome result (λ out. l.home ≡ Some out.engine)) }
        ensures job { At self.old at (λ l. IfSome result (λ out. slice_get l.jobs l.done ≡ Some out.job)) }
        ensures number { At self.old at (λ l. IfSome result (λ out. out.number ≡ l.done)) }
        ensures some { At self.old at (λ l. IfSome result (λ _. self.new.slots ≡ slice_set self.old.slots at (with_out l))) }
        ensures none { IfNone result (self.new ≡ self.old) }
        ensures spare { self.new.spare ≡ self.old.spare }
    {
        let slot = &mut self.items[at];
        slot.begin()
    }

    pub(crate) fn end(&mut self, at: usize, out: Out<E>, got: Result<E::Answer, Stop>, before: u64)
        requires within { at < length self.old.slots }
        requires number { At self.old at (λ l. out.number ≡ l.done) }
        requires out { At self.old at (λ l. l.home ≡ None) }
        requires cause { HasCause before (E.meaning.faults out.engine) got }
        ensures ok { At self.old at (λ l. IfOk got (λ answer. self.new.slots ≡ slice_set self.old.slots at (with_answer l out.engine out.job answer))) }
        ensures err { At self.old at (λ l. IfErr got (λ stop. self.new.slots ≡ slice_set self.old.slots at (with_halt l out.engine
            (record { stop = stop; before = before; after = E.meaning.faults out.engine })))) }
        ensures spare { self.new.spare ≡ self.old.spare }
    {
        let slot = &mut self.items[at];
        slot.end(out, got, before);
    }

    pub(crate) fn ready(&self, at: usize) -> bool
        requires { at < length self.now.slots }
        ensures { At self.now at (λ l. result ≡ can_tell l) }
    {
        self.items[at].ready()
    }

    pub(crate) fn tell(&mut self, at: usize) -> Told<E>
        requires within { at < length self.old.slots }
        requires ready { At self.old at (λ l. can_tell l ≡ true) }
        ensures told { At self.old at (λ l. Tells l result) }
        ensures after { At self.old at (λ l. self.new.slots ≡ slice_set self.old.slots at (with_tell l)) }
        ensures spare { self.new.spare ≡ self.old.spare }
    {
        let slot = &mut self.items[at];
        slot.tell()
    }
}
