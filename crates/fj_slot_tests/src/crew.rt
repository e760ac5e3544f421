// The script that submits numbers to two adders, with other threads beside it.
ghost use Rattle.std.specs.Prelude.{◌≡◌, ◌^◌, ◌<◌, [], ◌∷◌, ◌++◌, IfSome};
ghost use Rattle.fj_slot.specs.Ledger.{fresh};

use crate::asking::{Adder, MET, new_adder, new_asker};
use fj_crew::run_crew;
use fj_slot::Slot;
use fj_world::Slots;
use std::alloc::Global;
use std::sync::atomic::AtomicU64;
use std::sync::atomic::Ordering::SeqCst;
use std::sync::{Arc, Wait};
use std::test::Fail;
use std::thread::Threads;

fn one_more(mut slots: Slots<Adder>, slot: Slot<Adder>) -> Option<Slots<Adder>>
    ensures { IfSome result (λ it. it.slots ≡ slots.slots ++ slot ∷ []) }
{
    match slots.push(slot) {
        Ok(()) => Some(slots),
        Err(_) => None,
    }
}

fn two_slots(alloc: Global, first: Adder, second: Adder) -> Option<Slots<Adder>>
    ensures { IfSome result (λ it. it.slots ≡ fresh first ∷ fresh second ∷ []) }
{
    let one = one_more(Slots::new(alloc), Slot::new(alloc, first))?;
    one_more(one, Slot::new(alloc, second))
}

// What was told last of each slot, whether a stop was, whether two jobs were performed at a time, and how many jobs of each slot are done.
type Outcome = ((u64, u64), bool, bool, (u64, u64));

fn run_with<R: Threads + Wait + Sync>(
    rt: &R,
    alloc: Global,
    limit: u64,
    left: u64,
    looks: u32,
    workers: u32,
) -> Option<Outcome>
    requires { limit < 2 ^ 32 }
{
    let at_work = Arc::new(alloc, AtomicU64::new(0)).ok()?;
    let first = new_adder(left, looks, at_work.clone().ok()?);
    let second = new_adder(left, looks, at_work.clone().ok()?);
    let slots = two_slots(alloc, first, second)?;
    let mut script = new_asker(limit);
    let slots = run_crew(rt, alloc, &mut script, slots, workers).ok()?;
    let met = at_work.load(SeqCst) >= MET;
    let done = (slots.get(0)?.done(), slots.get(1)?.done());
    Some(((script.first, script.second), script.stopped, met, done))
}

#[test]
fn any_number_of_workers_tells_what_one_thread_does(rt: HostRuntime) -> Result<(), Fail> {
    // One worker may be at a job that the script's own thread waits for, so that only two are sure to meet.
    for (workers, looks) in [
        (0, 0),
        (1, 0),
        (2, 20_000_000),
        (4, 20_000_000),
        (64, 20_000_000),
    ] {
        let outcome = run_with(&rt, rt.alloc(), 100, u64::MAX, looks, workers);
        // 1 + 3 + .. + 99, 2 + 4 + .. + 100
        assert_eq!(rt; outcome, Some(((2500, 2550), false, workers > 1, (50, 50))));
    }
    Ok(())
}

#[test]
fn a_stop_is_told_once(rt: HostRuntime) -> Result<(), Fail> {
    for workers in [0, 1, 4] {
        // Each slot stops at its third number: 1 + 3, and before that 2 + 4
        let outcome = run_with(&rt, rt.alloc(), 10, 2, 0, workers);
        assert_eq!(rt; outcome, Some(((4, 6), true, false, (2, 2))));
    }
    Ok(())
}
