// What a deck is carried out with, before its first statement.
ghost use Rattle.std.specs.Prelude.{◌≡◌, ◌≤◌, [], IfOk, length, vec_capacity};
ghost use Rattle.fj_statement.specs.Sound.{IsSound};
ghost use Rattle.fj_bay.specs.Meaning.{bay_meaning};
ghost use Rattle.fj_job.specs.Carrying.{AreFresh, IsFresh, HasNotBegun};

use fj_bay::Bay;
use fj_outside::FileStore;
use fj_run_end::{Remains, room_for};
use fj_run_script::Machine;
use fj_slot::Slot;
use fj_statement::Deck;
use fj_world::Slots;
use std::alloc::{AllocError, Global};

/// How many slots there are.
const MOST_SLOTS: usize = 16;

/// A machine that has not begun, slots over bays with nothing, and room for what will remain of them.
#[derive(Drop)]
pub struct Ready<F: FileStore> {
    pub machine: Machine<F>,
    pub slots: Slots<Bay<F>>,
    pub room: Vec<Remains<F>>,
}

fn fresh_slot<F: FileStore>(alloc: Global) -> Result<Slot<Bay<F>>, AllocError>
    ensures { IfOk result (IsFresh (bay_meaning F.told F.bytes F.count)) }
{
    Ok(Slot::new(alloc, Bay::empty(alloc)?))
}

/// Slots over bays with nothing.
fn fresh_slots<F: FileStore>(alloc: Global) -> Result<Slots<Bay<F>>, AllocError>
    ensures { IfOk result (λ slots. AreFresh (bay_meaning F.told F.bytes F.count) slots.slots) }
{
    let mut slots = Slots::new(alloc);
    'filling: while slots.len() < MOST_SLOTS {
        let slot = fresh_slot::<F>(alloc)?;
        match slots.push(slot) {
            Ok(()) => {}
            Err(refused) => return Err(refused.error),
        }
    }
    Ok(slots)
}

/// A machine that has not begun with the deck.
fn machine_for<F: FileStore>(alloc: Global, deck: Deck) -> Result<Machine<F>, AllocError>
    requires { IsSound deck }
    ensures begun { IfOk result (λ m. HasNotBegun F.told F.bytes m) }
    ensures deck { IfOk result (λ m. m.deck ≡ deck) }
    ensures looks { IfOk result (λ m. m.looks.items ≡ []) }
{
    Machine::new(alloc, deck)
}

/// What the deck is carried out with.
pub fn ready_for<F: FileStore>(alloc: Global, deck: Deck) -> Result<Ready<F>, AllocError>
    requires { IsSound deck }
    ensures begun { IfOk result (λ it. HasNotBegun F.told F.bytes it.machine) }
    ensures deck { IfOk result (λ it. it.machine.deck ≡ deck) }
    ensures looks { IfOk result (λ it. it.machine.looks.items ≡ []) }
    ensures fresh { IfOk result (λ it. AreFresh (bay_meaning F.told F.bytes F.count) it.slots.slots) }
    ensures empty { IfOk result (λ it. it.room.items ≡ []) }
    ensures room { IfOk result (λ it. length it.slots.slots ≤ vec_capacity it.room) }
{
    let machine = machine_for::<F>(alloc, deck)?;
    let slots = fresh_slots::<F>(alloc)?;
    let room = room_for::<F>(alloc, slots.len())?;
    Ok(Ready {
        machine,
        slots,
        room,
    })
}
