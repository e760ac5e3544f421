//! A turn: the seat that has it looks at the words and has the cell in hand.
ghost use Rattle.std.specs.Prelude.{◌≡◌, ℕ, ◌+◌, ◌*◌, true, [], ◌∷◌, Some, None};
ghost use Rattle.fj_slot.specs.Ledger.{IsSized};
ghost use Rattle.fj_queue.specs.Cell.{IsFor, progress, submitted, told, stop_code};
ghost use Rattle.fj_queue.specs.Seats.{IsResting};
ghost use Rattle.fj_queue.specs.Inside.{IsInside, entered, left};
ghost use Rattle.fj_queue.specs.Steps.{turning, carrying};

use crate::cell::Cell;
use crate::law::Law;
use crate::plays::{
    GiveTurn, PutCell, SeeProgress, SeeStop, SeeSubmissions, SeeTells, TakeCell, TakeTurn,
};
use crate::seats::{Place, QueueOf};
use crossbeam_utils::Backoff;
use fj_slot::{Engine, Slot};
use std::snapshot::Snapshot;
use std::sync::Wait;
use std::sync::atomic::Ordering::SeqCst;

impl<E: Engine> QueueOf<Slot<E>, E, E::Task, Law<E>> {
    // Waits for the turn. A seat that did not get it tries again only once it looks free.
    fn take_turn<R: Wait>(&self, rt: &R, seat: &mut Place<E>)
        requires own { seat.old.table_id ≡ self.now.table.shared.table_id }
        requires rests { IsResting seat.old.me }
        ensures own { (seat.new.table_id ≡ seat.old.table_id) × (seat.new.id ≡ seat.old.id) }
        ensures turn { seat.new.me ≡ (turning seat.old.me.0, []) }
    {
        let shared = &self.table.shared;
        let backoff = Backoff::new();
        let mut looks_free = true;
        for _ in rt.forever() {
            if looks_free && shared.compare_exchange::<TakeTurn>(seat, 0, 0, 1) == 0 {
                return;
            }
            backoff.snooze();
            looks_free = shared.peek(0) == 0;
        }
        unreachable!()
    }

    /// Takes the turn, looks at the words and takes the cell in hand.
    pub(crate) fn enter<R: Wait>(&self, rt: &R, seat: &mut Place<E>) -> Cell<E>
        requires own { seat.old.table_id ≡ self.now.table.shared.table_id }
        requires rests { IsResting seat.old.me }
        ensures own { (seat.new.table_id ≡ seat.old.table_id) × (seat.new.id ≡ seat.old.id) }
        ensures seat { seat.new.me ≡ carrying (entered seat.old.me.0 result.value) result.value }
        ensures sized { IsSized result.value }
        ensures sound { IsFor E.meaning seat.old.me.0.plan result.value }
        ensures sends { seat.old.me.0.sends ≡ true → (submitted result.value ≡ seat.old.me.0.sent) × (told result.value ≡ seat.old.me.0.heard) }
        ensures runs { (k : ℕ) → seat.old.me.0.runs ≡ Some k → (progress result.value ≡ 2 * k + 1) × (stop_code result.value.halt ≡ 0) }
    {
        self.take_turn(rt, seat);
        let shared = &self.table.shared;
        let _submissions = shared.load::<SeeSubmissions>(seat, 1);
        let _progress = shared.load::<SeeProgress>(seat, 2);
        let _tells = shared.load::<SeeTells>(seat, 3);
        let _stop = shared.load::<SeeStop>(seat, 4);
        let _cell = shared.load::<TakeCell>(seat, 1);
        let Some(slot) = seat.slot_mut(shared, 0) else {
            unreachable!()
        };
        Snapshot::of(&*slot)
    }

    /// Puts the cell back and gives the turn away.
    pub(crate) fn leave(&self, seat: &mut Place<E>, cell: Cell<E>)
        requires own { seat.old.table_id ≡ self.now.table.shared.table_id }
        requires inside { IsInside E.meaning seat.old.me cell.value }
        ensures own { (seat.new.table_id ≡ seat.old.table_id) × (seat.new.id ≡ seat.old.id) }
        ensures seat { seat.new.me ≡ (left seat.old.me.0, []) }
    {
        let shared = &self.table.shared;
        let _ = cell;
        let _submissions = shared.load::<PutCell>(seat, 1);
        let _turn = shared.swap::<GiveTurn>(seat, 0, 0);
    }

    /// Whether a job waits, none is out and no hand is at it, as it looks without the turn. No clause rests on it.
    pub fn seems_due(&self) -> bool {
        let shared = &self.table.shared;
        let progress = shared.peek(2);
        progress % 2 == 0
            && progress / 2 < shared.peek(1)
            && shared.peek(4) == 0
            && !self.taken.load(SeqCst)
    }

    /// Whether there is an answer to tell, or none comes any more, as it looks without the turn. No clause rests on it.
    pub fn seems_ready(&self) -> bool {
        let shared = &self.table.shared;
        shared.peek(3) < shared.peek(2) / 2 || shared.peek(4) != 0
    }

    /// Whether the job that is told next is out, as it looks without the turn. No clause rests on it.
    pub fn seems_out(&self) -> bool {
        let shared = &self.table.shared;
        let progress = shared.peek(2);
        progress % 2 == 1 && progress / 2 == shared.peek(3)
    }
}
