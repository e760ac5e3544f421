//! A job of a queue: begun in one turn, performed between two, and ended in another.
ghost use Rattle.std.specs.Prelude.{◌≡◌, ◌+◌, ◌≤◌, ◌<◌, true, false, [], Some, None, Err};
ghost use Rattle.fj_slot.specs.Causes.{HasCause};
ghost use Rattle.fj_slot.specs.Ledger.{with_answer, with_halt};
ghost use Rattle.fj_queue.specs.Cell.{IsFor, IsDueFor, told, code_of};
ghost use Rattle.fj_queue.specs.Inside.{IsInside, IsSame, IsRunning, Began, running, ending, left};
ghost use Rattle.fj_queue.specs.Answers.{NothingToBegin};
ghost use Rattle.fj_queue.specs.Knows.{learned, Serves};

use crate::cell::Cell;
use crate::law::Law;
use crate::plays::{Begin, End, SetStop};
use crate::seats::{Hand, Place, QueueOf};
use crate::stops::code;
use fj_outside::Stop;
use fj_slot::{Engine, Out, Slot};
use std::sync::Wait;
use std::sync::atomic::Ordering::SeqCst;

impl<E: Engine> QueueOf<Slot<E>, E, E::Task, Law<E>> {
    // Counts the job as begun, and lets go of the cell.
    fn start(&self, seat: &mut Place<E>, cell: Cell<E>)
        requires own { seat.old.table_id ≡ self.now.table.shared.table_id }
        requires begun { Began E.meaning seat.old.me cell.value }
        ensures own { (seat.new.table_id ≡ seat.old.table_id) × (seat.new.id ≡ seat.old.id) }
        ensures seat { seat.new.me ≡ (left (running seat.old.me.0 cell.value.done), []) }
    {
        let _progress = self.table.shared.fetch_add::<Begin>(seat, 2, 1);
        self.leave(seat, cell);
    }

    // Takes the engine home with the answer, and counts the job as ended.
    fn finish(
        &self,
        seat: &mut Place<E>,
        cell: &mut Cell<E>,
        out: Out<E>,
        answer: E::Answer,
        before: u64,
    )
        requires own { seat.old.table_id ≡ self.now.table.shared.table_id }
        requires runs { IsRunning E.meaning seat.old.me cell.old.value }
        requires number { out.number ≡ cell.old.value.done }
        requires count { before ≤ E.meaning.faults out.engine }
        requires sound { IsFor E.meaning seat.old.me.0.plan (with_answer cell.old.value out.engine out.job answer) }
        ensures own { (seat.new.table_id ≡ seat.old.table_id) × (seat.new.id ≡ seat.old.id) }
        ensures view { seat.new.me.0 ≡ ending seat.old.me.0 cell.old.value.done }
        ensures inside { IsInside E.meaning seat.new.me cell.new.value × (told cell.new.value ≡ told cell.old.value) }
    {
        let _progress = self.table.shared.fetch_add::<End>(seat, 2, 1);
        self.end(seat, cell, out, Ok(answer), before);
    }

    // Takes the engine home after a job that could not be performed, counts the job as ended and sets the stop.
    fn stop(&self, seat: &mut Place<E>, cell: &mut Cell<E>, out: Out<E>, stop: Stop, before: u64)
        requires own { seat.old.table_id ≡ self.now.table.shared.table_id }
        requires runs { IsRunning E.meaning seat.old.me cell.old.value }
        requires number { out.number ≡ cell.old.value.done }
        requires cause { HasCause {T = E.Answer} before (E.meaning.faults out.engine) (Err stop) }
        requires sound { IsFor E.meaning seat.old.me.0.plan (with_halt cell.old.value out.engine (record { stop = stop; before = before; after = E.meaning.faults out.engine })) }
        ensures own { (seat.new.table_id ≡ seat.old.table_id) × (seat.new.id ≡ seat.old.id) }
        ensures view { seat.new.me.0 ≡ record (ending seat.old.me.0 cell.old.value.done) { stop = Some (code_of stop) } }
        ensures inside { IsInside E.meaning seat.new.me cell.new.value × (told cell.new.value ≡ told cell.old.value) }
    {
        let _progress = self.table.shared.fetch_add::<End>(seat, 2, 1);
        let _stop = self.table.shared.swap::<SetStop>(seat, 4, code(stop));
        self.end(seat, cell, out, Err(stop), before);
    }

    // Performs the job that was begun in this turn, and ends it in another, in which the cell stays in hand.
    pub(crate) fn perform<R: Wait>(
        &self,
        rt: &R,
        seat: &mut Place<E>,
        cell: Cell<E>,
        out: Out<E>,
    ) -> Cell<E>
        requires own { seat.old.table_id ≡ self.now.table.shared.table_id }
        requires begun { Began E.meaning seat.old.me cell.value }
        requires due { IsDueFor E.meaning seat.old.me.0.plan cell.value.done out.engine out.job }
        requires number { out.number ≡ cell.value.done }
        ensures own { (seat.new.table_id ≡ seat.old.table_id) × (seat.new.id ≡ seat.old.id) }
        ensures inside { IsInside E.meaning seat.new.me result.value }
        ensures same { IsSame seat.old.me.0 seat.new.me.0 }
        ensures idle { seat.new.me.0.runs ≡ None }
        ensures ended { seat.new.me.0.ended ≡ seat.old.me.0.ended + 1 }
        ensures sends { seat.old.me.0.sends ≡ true → told result.value ≡ seat.old.me.0.heard }
    {
        self.start(seat, cell);
        let Out {
            number,
            mut engine,
            mut job,
        } = out;
        let before = engine.faults();
        let got = engine.perform(&mut job);
        let mut cell = self.enter(rt, seat);
        let out = Out {
            number,
            engine,
            job,
        };
        match got {
            Ok(answer) => {
                self.finish(seat, &mut cell, out, answer, before);
                cell
            }
            Err(stop) => {
                self.stop(seat, &mut cell, out, stop, before);
                cell
            }
        }
    }

    /// Begins, performs and ends a job, or answers false: at its turn there was nothing to begin.
    pub fn work_once<R: Wait>(&self, rt: &R, hand: &mut Hand<E>) -> bool
        requires own { Serves self.now hand.old }
        ensures own { Serves self.entry.now hand.new × ((learned hand.new).plan ≡ (learned hand.old).plan) }
        ensures worked { result ≡ true → (learned hand.new).ended ≡ (learned hand.old).ended + 1 }
        ensures idle { result ≡ false → ((learned hand.new).ended ≡ (learned hand.old).ended) × ((learned hand.old).turns < (learned hand.new).turns) × NothingToBegin (learned hand.new) }
    {
        let mut cell = self.enter(rt, &mut hand.seat);
        match self.begin(&mut hand.seat, &mut cell) {
            Some(out) => {
                let cell = self.perform(rt, &mut hand.seat, cell, out);
                self.leave(&mut hand.seat, cell);
                true
            }
            None => {
                self.leave(&mut hand.seat, cell);
                false
            }
        }
    }

    /// Works once where a job seems to be due and no other hand seems to be at work. It takes no turn where nothing seems to be due.
    pub fn work_where_due<R: Wait>(&self, rt: &R, hand: &mut Hand<E>) -> bool
        requires own { Serves self.now hand.old }
        ensures own { Serves self.entry.now hand.new × ((learned hand.new).plan ≡ (learned hand.old).plan) }
        ensures worked { result ≡ true → (learned hand.new).ended ≡ (learned hand.old).ended + 1 }
        ensures idle { result ≡ false → (learned hand.new).ended ≡ (learned hand.old).ended }
    {
        if !self.seems_due() || self.taken.swap(true, SeqCst) {
            return false;
        }
        let worked = self.work_once(rt, hand);
        self.taken.store(false, SeqCst);
        worked
    }
}
