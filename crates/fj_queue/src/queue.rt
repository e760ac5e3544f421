//! How a queue begins, how hands are taken and folded in, and how it ends.
ghost use Rattle.std.specs.Prelude.{◌≡◌, ◌+◌, ◌-◌, true, Some, Option, is_some, IfOk, IfErr};
ghost use Rattle.fj_slot.specs.Ledger.{fresh};
ghost use Rattle.fj_queue.specs.declared.view.Agenda.{Agenda};
ghost use Rattle.fj_queue.specs.Cell.{IsFor};
ghost use Rattle.fj_queue.specs.Knows.{knows, learned, IsOf, Serves};
ghost use Rattle.fj_queue.specs.Tokens.{Keeps, Begins, IsLast};

use crate::law::Law;
use crate::named::Named;
use crate::plays::Hire;
use crate::seats::{Hand, HandOf, Queue, QueueOf, Submitter, SubmitterOf};
use crate::stops::{all_answered, stop_count, stop_word};
use crate::view::{Agenda, Start};
use atomic_table::{Refused as NoTable, Table};
use fj_slot::{Engine, Slot};
use std::alloc::{AllocError, AllocFailed, Global};
use std::sync::atomic::AtomicBool;

/// There was no memory for a queue over a new engine, which comes back.
#[derive(Drop)]
pub struct Lost<E> {
    pub engine: E,
    pub error: AllocError,
}

/// There was no memory for a queue over a slot, which comes back.
#[derive(Drop)]
pub struct LostSlot<E: Engine> {
    pub slot: Slot<E>,
    pub error: AllocError,
}

impl<E: Engine> QueueOf<Slot<E>, E, E::Task, Law<E>> {
    /// A queue that begins with an engine and no job, for a plan that contracts alone see, or for none.
    pub fn new(alloc: Global, engine: E) -> Result<(Queue<E>, Submitter<E>), Lost<E>>
        ghost plan: { Option (Agenda E E.Task) }
        requires start { (p : _) → plan ≡ Some p → p.start ≡ engine }
        ensures ok { IfOk result (λ q. IsOf q.0 q.1 × Begins plan (fresh {J = E.Job} {A = E.Answer} engine) (knows q.1)) }
        ensures err { IfErr result (λ l. l.engine ≡ engine) }
    {
        match QueueOf::resume(alloc, Slot::new(alloc, engine)) {
            Ok(queue) => Ok(queue),
            Err(LostSlot { slot, error }) => Err(Lost {
                engine: slot.retire(),
                error,
            }),
        }
    }

    /// A queue that begins with a slot of which no job is out, for a plan for which the slot is sound, or for none.
    pub fn resume(alloc: Global, slot: Slot<E>) -> Result<(Queue<E>, Submitter<E>), LostSlot<E>>
        ghost plan: { Option (Agenda E E.Task) }
        requires sound { IsFor E.meaning plan slot }
        requires home { is_some slot.home ≡ true }
        ensures ok { IfOk result (λ q. IsOf q.0 q.1 × Begins plan slot (knows q.1)) }
        ensures err { IfErr result (λ l. l.slot ≡ slot) }
    {
        let plan: Named<Option<Agenda<E, E::Task>>> = Named::any();
        let sent = slot.submitted();
        let heard = slot.told();
        let stop = stop_word(slot.halted());
        let ended = slot.done() + stop_count(slot.halted());
        let words = [0, sent, 2 * ended, heard, stop];
        let answered = all_answered(&slot);
        let about = Start {
            plan,
            sent,
            heard,
            answered,
        };
        let mut slots = Vec::new(alloc);
        if let Err(AllocFailed { value }) = slots.push(Some(slot)) {
            slots.destroy_empty();
            return Err(LostSlot {
                slot: value.unwrap(),
                error: AllocError,
            });
        }
        match Table::new(alloc, &words, slots, &about) {
            Ok((table, seat)) => {
                let queue = QueueOf {
                    table,
                    taken: AtomicBool::new(false),
                };
                Ok((queue, SubmitterOf { seat }))
            }
            Err(NoTable { mut slots }) => {
                let slot = slots.pop().unwrap().unwrap();
                slots.destroy_empty();
                Err(LostSlot {
                    slot,
                    error: AllocError,
                })
            }
        }
    }

    /// A hand for a thread.
    pub fn hand(&self, s: &mut Submitter<E>) -> Hand<E>
        requires own { IsOf self.now s.old }
        ensures hand { Serves self.entry.now result × ((learned result).plan ≡ (knows s.old).plan) × ((learned result).ended ≡ 0) }
        ensures own { IsOf self.entry.now s.new }
        ensures hands { Keeps (knows s.old) (knows s.new) (knows s.old).sent (knows s.old).heard ((knows s.old).hands + 1) }
    {
        let seat = self.table.shared.split_seat::<Hire>(&mut s.seat);
        HandOf { seat }
    }

    /// Takes a hand of the queue back.
    pub fn fold_in(&self, s: &mut Submitter<E>, hand: Hand<E>)
        requires own { IsOf self.now s.old }
        requires hand { Serves self.now hand }
        ensures own { IsOf self.entry.now s.new }
        ensures hands { Keeps (knows s.old) (knows s.new) (knows s.old).sent (knows s.old).heard ((knows s.old).hands - 1) }
    {
        self.table
            .shared
            .join_seat::<Hire>(&mut s.seat, hand.into_seat());
    }

    /// The slot, once all hands were folded in.
    pub fn close(self, s: Submitter<E>) -> Slot<E>
        requires own { IsOf self s }
        requires hands { (knows s).hands ≡ 0 }
        ensures { IsLast E.meaning (knows s) result }
    {
        let QueueOf { table, taken: _ } = self;
        let mut closed = table.close_with(s.into_seat());
        let slot = closed.take(0);
        closed.free();
        slot.unwrap()
    }
}
