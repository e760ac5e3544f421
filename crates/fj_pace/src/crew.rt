//! Jobs on two queues, with workers.
ghost use Rattle.std.specs.Prelude.{◌≡◌, ◌<◌, ◌^◌, [], ◌∷◌, ◌++◌, IfSome};
ghost use Rattle.fj_slot.specs.Ledger.{fresh};

use crate::asker::new_asker;
use crate::counter::{Counter, new_counter};
use fj_crew::run_crew;
use fj_slot::Slot;
use fj_world::Slots;
use std::alloc::Global;
use std::sync::Wait;
use std::thread::Threads;

fn one_more(mut slots: Slots<Counter>, slot: Slot<Counter>) -> Option<Slots<Counter>>
    ensures { IfSome result (λ it. it.slots ≡ slots.slots ++ slot ∷ []) }
{
    match slots.push(slot) {
        Ok(()) => Some(slots),
        Err(_) => None,
    }
}

fn two_slots(alloc: Global, first: Counter, second: Counter) -> Option<Slots<Counter>>
    ensures { IfSome result (λ it. it.slots ≡ fresh first ∷ fresh second ∷ []) }
{
    let one = one_more(Slots::new(alloc), Slot::new(alloc, first))?;
    one_more(one, Slot::new(alloc, second))
}

/// So many jobs, of which so many are ahead of their answers, on the first of two queues or by turns on both: the last sum of the first.
pub fn on_crew<R: Threads + Wait + Sync>(
    rt: &R,
    alloc: Global,
    limit: u64,
    ahead: u64,
    both: bool,
    workers: u32,
) -> Option<u64>
    requires { limit < 2 ^ 32 }
{
    let first = new_counter();
    let other = new_counter();
    let slots = two_slots(alloc, first, other)?;
    let mut script = new_asker(limit, ahead, both);
    run_crew(rt, alloc, &mut script, slots, workers).ok()?;
    Some(script.first)
}
