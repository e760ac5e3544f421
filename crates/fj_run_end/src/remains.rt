// What remains of slots whose jobs were performed.
ghost use Rattle.std.specs.Prelude.{◌≡◌, ◌+◌, ◌≤◌, [], true, List, length, is_some, option_map, vec_len, vec_capacity, IfOk};
ghost use Rattle.fj_world.specs.Alone.{AllHome};
ghost use Rattle.fj_bay.specs.Meaning.{bay_meaning};
ghost use Rattle.fj_meaning_jobs.specs.Both.{Both};
ghost use Rattle.fj_meaning_jobs.specs.Desks.{Desk};
ghost use Rattle.fj_meaning_turns.specs.Executing.{HoldsDesks};
ghost use Rattle.fj_run_end.specs.Remains.{IsWhatRemains, AreOfDesks};

use crate::jobs::served;
use fj_bay::Bay;
use fj_connect::Connection;
use fj_outside::{FileStore, Stop};
use fj_slot::{Halt, Slot};
use fj_world::Slots;
use std::alloc::{AllocError, Global};

/// What remains of a slot: the connection of its bay, and what stopped it.
#[derive(Drop)]
pub struct Remains<F: FileStore> {
    pub connection: Option<Connection<F>>,
    pub stop: Option<Stop>,
}

/// What stopped a slot.
fn stop_of(halt: Option<Halt>) -> Option<Stop>
    ensures { result ≡ option_map (λ h. h.stop) halt }
{
    match halt {
        Some(halt) => Some(halt.stop),
        None => None,
    }
}

/// Performs the jobs that are left of a slot, and takes it apart.
fn remains_of<F: FileStore>(slot: Slot<Bay<F>>) -> Remains<F>
    requires home { is_some slot.home ≡ true }
    ensures { IsWhatRemains (bay_meaning F.told F.bytes F.count) slot result }
{
    let slot = served(slot);
    let stop = stop_of(slot.halted());
    let bay = slot.retire();
    Remains {
        connection: bay.into_connection(),
        stop,
    }
}

/// What remains of each slot, in their order. There is room for it.
fn take_all<F: FileStore>(slots: &mut Slots<Bay<F>>, all: &mut Vec<Remains<F>>)
    requires home { AllHome slots.old }
    requires empty { all.old.items ≡ [] }
    requires room { length slots.old.slots ≤ vec_capacity all.old }
    ensures each { Both (IsWhatRemains (bay_meaning F.told F.bytes F.count)) slots.old.slots all.new.items }
    ensures number { vec_len all.new ≡ length slots.old.slots }
    ensures room { vec_capacity all.new ≡ vec_capacity all.old }
{
    let Some(slot) = slots.pop() else {
        return;
    };
    take_all(slots, all);
    all.push_reserved(remains_of(slot));
}

/// Room for what remains of so many slots.
pub fn room_for<F: FileStore>(alloc: Global, slots: usize) -> Result<Vec<Remains<F>>, AllocError>
    ensures empty { IfOk result (λ room. room.items ≡ []) }
    ensures room { IfOk result (λ room. slots ≤ vec_capacity room) }
{
    Vec::with_capacity(alloc, slots)
}

/// Performs the jobs that are left of slots, in ascending order of the slots, and takes the connections out. There is room for
/// what remains, so that no slot is left for want of memory.
pub(crate) fn what_remains<F: FileStore>(
    slots: Slots<Bay<F>>,
    room: Vec<Remains<F>>,
) -> Vec<Remains<F>>
    requires home { AllHome slots }
    requires empty { room.items ≡ [] }
    requires room { length slots.slots ≤ vec_capacity room }
    ensures each { Both (IsWhatRemains (bay_meaning F.told F.bytes F.count)) slots.slots result.items }
    ensures desks { (desks : List Desk) → HoldsDesks (bay_meaning F.told F.bytes F.count) slots desks → AreOfDesks F.told F.bytes result.items desks }
{
    let mut slots = slots;
    let mut all = room;
    take_all(&mut slots, &mut all);
    all
}
