//! What a submitter asks: that a job is appended, and what became of the first that was not told.
ghost use Rattle.std.specs.Prelude.{◌≡◌, ◌+◌, ◌<◌, ◌≤◌, ◌^◌, true, None, IfOk, IfErr, OnOk};
ghost use Rattle.fj_slot.specs.Ledger.{can_tell};
ghost use Rattle.fj_queue.specs.Cell.{IsNext, told};
ghost use Rattle.fj_queue.specs.Seats.{IsSubmitter};
ghost use Rattle.fj_queue.specs.Inside.{IsInside, IsSame, Tells};
ghost use Rattle.fj_queue.specs.Answers.{Settles};
ghost use Rattle.fj_queue.specs.Knows.{knows, IsOf};
ghost use Rattle.fj_queue.specs.Tokens.{Numbers, Keeps};

use crate::cell::Cell;
use crate::law::Law;
use crate::plays::{CountStop, CountSubmission, CountTell};
use crate::seats::{Place, QueueOf, Submitter};
use crossbeam_utils::Backoff;
use fj_slot::{Engine, Refused, Slot, Told};
use std::sync::Wait;

impl<E: Engine> QueueOf<Slot<E>, E, E::Task, Law<E>> {
    /// Submits a job, and answers its number. Where a plan was named, it is the plan's next. It performs nothing.
    pub fn submit<R: Wait>(
        &self,
        rt: &R,
        s: &mut Submitter<E>,
        job: E::Job,
    ) -> Result<u64, Refused<E::Job>>
        requires own { IsOf self.now s.old }
        requires room { (knows s.old).sent < 2 ^ 62 }
        requires next { IsNext E.meaning (knows s.old).plan (knows s.old).sent job }
        ensures own { IsOf self.entry.now s.new }
        ensures number { IfOk result (λ n. n ≡ (knows s.old).sent) }
        ensures ok { OnOk result (Keeps (knows s.old) (knows s.new) ((knows s.old).sent + 1) (knows s.old).heard (knows s.old).hands) }
        ensures err { IfErr result (λ r. (r.job ≡ job) × Keeps (knows s.old) (knows s.new) (knows s.old).sent (knows s.old).heard (knows s.old).hands) }
        ensures performs_nothing { (knows s.new).ended ≡ (knows s.old).ended }
    {
        let mut cell = self.enter(rt, &mut s.seat);
        match self.append(&mut s.seat, &mut cell, job) {
            Ok(_) => {
                let number = self
                    .table
                    .shared
                    .fetch_add::<CountSubmission>(&mut s.seat, 1, 1);
                self.leave(&mut s.seat, cell);
                Ok(number)
            }
            Err(refused) => {
                self.leave(&mut s.seat, cell);
                Err(refused)
            }
        }
    }

    // Tells the first answer, and lets go of the cell.
    fn tell(&self, seat: &mut Place<E>, mut cell: Cell<E>) -> Told<E>
        requires own { seat.old.table_id ≡ self.now.table.shared.table_id }
        requires inside { IsInside E.meaning seat.old.me cell.value }
        requires sends { (seat.old.me.0.sends ≡ true) × (told cell.value ≡ seat.old.me.0.heard) × (seat.old.me.0.heard < 2 ^ 63) }
        requires ready { can_tell cell.value ≡ true }
        ensures own { (seat.new.table_id ≡ seat.old.table_id) × (seat.new.id ≡ seat.old.id) }
        ensures told { Tells E.meaning seat.old.me seat.new.me result }
    {
        match self.tell_next(seat, &mut cell) {
            Told::Done { job, answer } => {
                let _tells = self.table.shared.fetch_add::<CountTell>(seat, 3, 1);
                self.leave(seat, cell);
                Told::Done { job, answer }
            }
            Told::Stopped {
                job,
                stop,
                before,
                after,
            } => {
                let _tells = self.table.shared.fetch_add::<CountStop>(seat, 3, 1);
                self.leave(seat, cell);
                Told::Stopped {
                    job,
                    stop,
                    before,
                    after,
                }
            }
        }
    }

    // Takes the turn, and performs the job in front where it is not done and no one has begun it; the cell is in hand at the end.
    fn reach<R: Wait>(&self, rt: &R, seat: &mut Place<E>) -> Cell<E>
        requires own { seat.old.table_id ≡ self.now.table.shared.table_id }
        requires submitter { IsSubmitter seat.old.me }
        ensures own { (seat.new.table_id ≡ seat.old.table_id) × (seat.new.id ≡ seat.old.id) }
        ensures inside { IsInside E.meaning seat.new.me result.value }
        ensures same { IsSame seat.old.me.0 seat.new.me.0 }
        ensures idle { seat.new.me.0.runs ≡ None }
        ensures told { told result.value ≡ seat.old.me.0.heard }
    {
        let mut cell = self.enter(rt, seat);
        if self.is_ready(seat, &cell) {
            return cell;
        }
        match self.begin(seat, &mut cell) {
            Some(out) => self.perform(rt, seat, cell, out),
            None => cell,
        }
    }

    /// Tells the first answer that was not told. It performs the job in front where no one has begun it.
    pub fn settle<R: Wait>(&self, rt: &R, s: &mut Submitter<E>) -> Told<E>
        requires own { IsOf self.now s.old }
        requires waits { (knows s.old).heard < (knows s.old).sent }
        requires room { (knows s.old).sent ≤ 2 ^ 62 }
        ensures own { IsOf self.entry.now s.new }
        ensures numbers { Numbers (knows s.old) (knows s.new) (knows s.old).sent ((knows s.old).heard + 1) (knows s.old).hands }
        ensures told { Settles E.meaning (knows s.old) (knows s.new) result }
    {
        let backoff = Backoff::new();
        for _ in rt.forever() {
            if self.seems_out() {
                backoff.snooze();
                continue;
            }
            let cell = self.reach(rt, &mut s.seat);
            if self.is_ready(&mut s.seat, &cell) {
                return self.tell(&mut s.seat, cell);
            }
            self.leave(&mut s.seat, cell);
            backoff.snooze();
        }
        unreachable!()
    }
}
