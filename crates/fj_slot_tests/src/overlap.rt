// Short jobs of several slots are performed at a time, where each waits for the others.
ghost use Rattle.std.specs.Prelude.{◌≡◌, ℕ, ◌+◌, length, IfSome};
ghost use Rattle.fj_slot.specs.Ledger.{fresh};
ghost use Rattle.fj_world.specs.Rack.{At};

use crate::asking::MET;
use crate::meeting::{Meeter, new_meeter, new_on_each};
use fj_crew::run_crew;
use fj_slot::Slot;
use fj_world::Slots;
use std::alloc::Global;
use std::sync::atomic::AtomicU64;
use std::sync::atomic::Ordering::SeqCst;
use std::sync::{Arc, Wait};
use std::test::Fail;
use std::thread::Threads;

fn one_more(mut slots: Slots<Meeter>, slot: Slot<Meeter>) -> Option<Slots<Meeter>>
    requires new { (at : ℕ) → At slots at (λ l. l ≡ fresh l.start) }
    requires fresh { slot ≡ fresh slot.start }
    ensures long { IfSome result (λ it. length it.slots ≡ length slots.slots + 1) }
    ensures new { IfSome result (λ it. (at : ℕ) → At it at (λ l. l ≡ fresh l.start)) }
{
    match slots.push(slot) {
        Ok(()) => Some(slots),
        Err(_) => None,
    }
}

// So many new slots, where each job waits until so many are performed at a time.
pub(crate) fn meeters(
    alloc: Global,
    count: u32,
    many: u64,
    looks: u32,
    at_work: &Arc<AtomicU64>,
) -> Option<Slots<Meeter>>
    ensures count { IfSome result (λ it. length it.slots ≡ count) }
    ensures new { IfSome result (λ it. (at : ℕ) → At it at (λ l. l ≡ fresh l.start)) }
{
    let mut slots = Slots::new(alloc);
    for _ in 0..count {
        let meeter = new_meeter(many, looks, at_work.clone().ok()?);
        slots = one_more(slots, Slot::new(alloc, meeter))?;
    }
    Some(slots)
}

// How many jobs were told, and whether all met.
fn run_on_each<R: Threads + Wait + Sync>(
    rt: &R,
    alloc: Global,
    count: u32,
    looks: u32,
    workers: u32,
) -> Option<(u32, bool)> {
    let at_work = Arc::new(alloc, AtomicU64::new(0)).ok()?;
    let slots = meeters(alloc, count, count as u64, looks, &at_work)?;
    let mut script = new_on_each(count);
    let _slots = run_crew(rt, alloc, &mut script, slots, workers).ok()?;
    let met = at_work.load(SeqCst) / MET >= count as u64;
    Some((script.heard, met))
}

#[test]
fn short_jobs_of_four_slots_overlap(rt: HostRuntime) -> Result<(), Fail> {
    // With three workers the script's own thread has the fourth job.
    for workers in [3, 4, 64] {
        let outcome = run_on_each(&rt, rt.alloc(), 4, 20_000_000, workers);
        assert_eq!(rt; outcome, Some((4, true)));
    }
    // One job more than there are threads looks in vain, and the run ends.
    let outcome = run_on_each(&rt, rt.alloc(), 4, 1000, 2);
    assert_eq!(rt; outcome, Some((4, false)));
    Ok(())
}
