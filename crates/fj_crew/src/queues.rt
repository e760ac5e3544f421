//! Queues are made of slots, and slots of queues.
ghost use Rattle.std.specs.Prelude.{true, ◌≡◌, ◌+◌, ◌≤◌, ℕ, [], ◌∷◌, length, Some, Option, is_some, IfOk, IfErr, OnOk, slice_get};
ghost use Rattle.std.specs.VecDeque.{deque_capacity};
ghost use Rattle.fj_slot.specs.Ledger.{Ledger};
ghost use Rattle.fj_queue.specs.declared.view.Agenda.{Agenda};
ghost use Rattle.fj_queue.specs.Cell.{IsFor};
ghost use Rattle.fj_queue.specs.Tokens.{Begins};
ghost use Rattle.fj_queue.specs.Knows.{knows, IsOf};
ghost use Rattle.fj_world.specs.Alone.{AllHome};
ghost use Rattle.fj_crew.specs.Seats.{Paired};
ghost use Rattle.fj_crew.specs.Plan.{Opened, Shut, NoHands};

use fj_queue::{LostSlot, Queue, Submitter};
use fj_slot::{Engine, Slot};
use fj_world::{Script, Slots};
use std::alloc::{AllocError, Global};
use std::collections::VecDeque;

// The place is for the contract alone: the plan is that of the slot there.
fn resume_at<E: Engine>(
    alloc: Global,
    slot: Slot<E>,
    at: usize,
) -> Result<(Queue<E>, Submitter<E>), LostSlot<E>>
    ghost plan: { Option (Agenda E E.Task) }
    requires sound { IsFor E.meaning plan slot }
    requires home { is_some slot.home ≡ true }
    ensures ok { IfOk result (λ q. IsOf q.0 q.1 × Begins plan slot (knows q.1)) }
    ensures err { IfErr result (λ l. l.slot ≡ slot) }
{
    let _ = at;
    Queue::resume(alloc, slot)
}

/// Makes a queue of each slot, the last one first, until there is no memory. The script is for the contract alone, which speaks of its gear.
pub(crate) fn open<S: Script>(
    alloc: Global,
    script: &S,
    slots: &mut Slots<S::Gear>,
    queues: &mut VecDeque<Queue<S::Gear>>,
    seats: &mut VecDeque<Submitter<S::Gear>>,
) -> Result<(), AllocError>
    ghost plans: { ℕ → Option (Agenda S.Gear S.Gear.Task) }
    requires fresh { (queues.old.items ≡ []) × (seats.old.items ≡ []) }
    requires room { (length slots.old.slots ≤ deque_capacity queues.old) × (length slots.old.slots ≤ deque_capacity seats.old) }
    requires home { AllHome slots.old }
    requires sound { (k : ℕ) (l : Ledger S.Gear S.Gear.Job S.Gear.Answer) → slice_get slots.old.slots k ≡ Some l → IsFor S.Gear.meaning (plans k) l }
    ensures opened { Opened plans slots.old.slots slots.new.slots seats.new.items }
    ensures paired { Paired queues.new.items seats.new.items }
    ensures hands { NoHands seats.new.items }
    ensures all { OnOk result (slots.new.slots ≡ []) }
    ensures spare { slots.new.spare ≡ slots.old.spare + length seats.new.items }
{
    let _ = script;
    let mut at = slots.len();
    while let Some(slot) = slots.pop() {
        at -= 1;
        match resume_at(alloc, slot, at) {
            Ok((queue, seat)) => {
                queues.push_front_reserved(queue);
                seats.push_front_reserved(seat);
            }
            Err(lost) => {
                let put = slots.push(lost.slot);
                let Ok(()) = put else { unreachable!() };
                return Err(AllocError);
            }
        }
    }
    Ok(())
}

/// Makes a slot of each queue, and puts them back in their order.
pub(crate) fn shut<E: Engine>(
    slots: &mut Slots<E>,
    mut queues: VecDeque<Queue<E>>,
    mut seats: VecDeque<Submitter<E>>,
)
    requires paired { Paired queues.items seats.items }
    requires hands { NoHands seats.items }
    requires room { length seats.items ≤ slots.old.spare }
    ensures shut { Shut E.meaning slots.old.slots seats.items slots.new.slots }
    ensures spare { slots.new.spare + length seats.items ≡ slots.old.spare }
{
    while let Some(queue) = queues.pop_front() {
        let Some(seat) = seats.pop_front() else {
            unreachable!()
        };
        let slot = queue.close(seat);
        let put = slots.push(slot);
        let Ok(()) = put else { unreachable!() };
    }
    queues.destroy_empty();
}
