//! What a seat does with the slot that it has in hand. The slot stays where it is in the table; a snapshot of it, which has no bytes, goes along.
ghost use Rattle.std.specs.Prelude.{◌≡◌, ◌<◌, ◌^◌, true, Some, None, is_some, IfOk, IfErr, IfSome, IfNone, OnOk, length, slice_get};
ghost use Rattle.fj_slot.specs.Causes.{HasCause};
ghost use Rattle.fj_slot.specs.Sound.{TellsOutcome};
ghost use Rattle.fj_slot.specs.Telling as telling;
ghost use Rattle.fj_slot.specs.Ledger.{with_job, with_out, with_answer, with_halt, with_tell, can_begin, can_tell};
ghost use Rattle.fj_queue.specs.Steps.{Carries, carrying};

use crate::law::Law;
use crate::seats::{Place, QueueOf};
use fj_outside::Stop;
use fj_slot::{Engine, Out, Refused, Slot, Told};
use std::snapshot::Snapshot;

/// What the slot in hand is, as clauses see it.
pub(crate) type Cell<E> = Snapshot<Slot<E>>;

impl<E: Engine> QueueOf<Slot<E>, E, E::Task, Law<E>> {
    /// Whether the next job can be told.
    pub(crate) fn is_ready(&self, seat: &mut Place<E>, cell: &Cell<E>) -> bool
        requires own { seat.old.table_id ≡ self.now.table.shared.table_id }
        requires held { Carries seat.old.me cell.now.value }
        ensures own { (seat.new.table_id ≡ seat.old.table_id) × (seat.new.id ≡ seat.old.id) }
        ensures seat { seat.new.me ≡ seat.old.me }
        ensures ready { result ≡ can_tell cell.now.value }
    {
        let _ = cell;
        let Some(slot) = seat.slot_mut(&self.table.shared, 0) else {
            unreachable!()
        };
        slot.ready()
    }

    /// Appends a job.
    pub(crate) fn append(
        &self,
        seat: &mut Place<E>,
        cell: &mut Cell<E>,
        job: E::Job,
    ) -> Result<u64, Refused<E::Job>>
        requires own { seat.old.table_id ≡ self.now.table.shared.table_id }
        requires held { Carries seat.old.me cell.old.value }
        requires few { length cell.old.value.jobs < 2 ^ 62 }
        ensures own { (seat.new.table_id ≡ seat.old.table_id) × (seat.new.id ≡ seat.old.id) }
        ensures seat { seat.new.me ≡ carrying seat.old.me.0 cell.new.value }
        ensures ok { IfOk result (λ _. cell.new.value ≡ with_job cell.old.value job) }
        ensures handed_back { IfErr result (λ refused. refused.job ≡ job) }
        ensures err { IfErr result (λ _. cell.new.value ≡ cell.old.value) }
    {
        let Some(slot) = seat.slot_mut(&self.table.shared, 0) else {
            unreachable!()
        };
        let number = slot.submit(job);
        *cell = Snapshot::of(&*slot);
        number
    }

    /// Hands out the engine and the first job that was not begun.
    pub(crate) fn begin(&self, seat: &mut Place<E>, cell: &mut Cell<E>) -> Option<Out<E>>
        requires own { seat.old.table_id ≡ self.now.table.shared.table_id }
        requires held { Carries seat.old.me cell.old.value }
        ensures own { (seat.new.table_id ≡ seat.old.table_id) × (seat.new.id ≡ seat.old.id) }
        ensures seat { seat.new.me ≡ carrying seat.old.me.0 cell.new.value }
        ensures variant { is_some result ≡ can_begin cell.old.value }
        ensures engine { IfSome result (λ out. cell.old.value.home ≡ Some out.engine) }
        ensures job { IfSome result (λ out. slice_get cell.old.value.jobs cell.old.value.done ≡ Some out.job) }
        ensures number { IfSome result (λ out. out.number ≡ cell.old.value.done) }
        ensures some { IfSome result (λ _. cell.new.value ≡ with_out cell.old.value) }
        ensures none { IfNone result (cell.new.value ≡ cell.old.value) }
    {
        let Some(slot) = seat.slot_mut(&self.table.shared, 0) else {
            unreachable!()
        };
        let out = slot.begin();
        *cell = Snapshot::of(&*slot);
        out
    }

    /// Takes the engine and the job home, with what performing the job gave.
    pub(crate) fn end(
        &self,
        seat: &mut Place<E>,
        cell: &mut Cell<E>,
        out: Out<E>,
        got: Result<E::Answer, Stop>,
        before: u64,
    )
        requires own { seat.old.table_id ≡ self.now.table.shared.table_id }
        requires held { Carries seat.old.me cell.old.value }
        requires number { out.number ≡ cell.old.value.done }
        requires out { cell.old.value.home ≡ None }
        requires cause { HasCause before (E.meaning.faults out.engine) got }
        ensures own { (seat.new.table_id ≡ seat.old.table_id) × (seat.new.id ≡ seat.old.id) }
        ensures seat { seat.new.me ≡ carrying seat.old.me.0 cell.new.value }
        ensures ok { IfOk got (λ answer. cell.new.value ≡ with_answer cell.old.value out.engine out.job answer) }
        ensures err { IfErr got (λ stop. cell.new.value ≡ with_halt cell.old.value out.engine
            (record { stop = stop; before = before; after = E.meaning.faults out.engine })) }
    {
        let Some(slot) = seat.slot_mut(&self.table.shared, 0) else {
            unreachable!()
        };
        slot.end(out, got, before);
        *cell = Snapshot::of(&*slot);
    }

    /// Tells the next job.
    pub(crate) fn tell_next(&self, seat: &mut Place<E>, cell: &mut Cell<E>) -> Told<E>
        requires own { seat.old.table_id ≡ self.now.table.shared.table_id }
        requires held { Carries seat.old.me cell.old.value }
        requires ready { can_tell cell.old.value ≡ true }
        ensures own { (seat.new.table_id ≡ seat.old.table_id) × (seat.new.id ≡ seat.old.id) }
        ensures seat { seat.new.me ≡ carrying seat.old.me.0 cell.new.value }
        ensures told { telling.Tells cell.old.value result }
        ensures after { cell.new.value ≡ with_tell cell.old.value }
        ensures outcome { TellsOutcome E.meaning cell.old.value result }
    {
        let Some(slot) = seat.slot_mut(&self.table.shared, 0) else {
            unreachable!()
        };
        let told = slot.tell();
        *cell = Snapshot::of(&*slot);
        told
    }
}
