// The script that submits numbers to two adders, served alone and in random orders of events.
ghost use Rattle.std.specs.Prelude.{◌≡◌, ℕ, ◌^◌, ◌<◌, [], length, true, is_some, IfSome};
ghost use Rattle.fj_world.specs.Rack.{At};

use crate::asking::{Adder, new_adder, new_asker};
use fj_slot::Slot;
use fj_world::{Event, Slots, World, run_alone};
use std::alloc::Global;
use std::sync::Arc;
use std::sync::atomic::AtomicU64;
use std::test::Fail;

/// The last sums that were told, and whether a stop was.
type Told3 = (u64, u64, bool);

fn two_slots(alloc: Global, left: u64) -> Option<Slots<Adder>>
    ensures two { IfSome result (λ slots. length slots.slots ≡ 2) }
    ensures new { IfSome result (λ slots. (at : ℕ) → At slots at (λ l. (l.jobs ≡ []) × (l.told ≡ 0) × (is_some l.home ≡ true))) }
{
    let at_work = Arc::new(alloc, AtomicU64::new(0)).ok()?;
    let mut slots = Slots::new(alloc);
    let first = new_adder(left, 0, at_work.clone().ok()?);
    slots.push(Slot::new(alloc, first)).ok()?;
    slots
        .push(Slot::new(alloc, new_adder(left, 0, at_work)))
        .ok()?;
    Some(slots)
}

fn alone(alloc: Global, limit: u64, left: u64) -> Option<Told3>
    requires { limit < 2 ^ 32 }
{
    let mut slots = two_slots(alloc, left)?;
    let mut script = new_asker(limit);
    run_alone(&mut script, &mut slots);
    Some((script.first, script.second, script.stopped))
}

fn drawn(seed: &mut u64) -> u64 {
    *seed = seed.wrapping_mul(1_103_515_245).wrapping_add(12_345) % (1 << 31);
    *seed / 65_536
}

fn next_event(seed: &mut u64) -> Event {
    let kind = drawn(seed) % 3;
    let worker = (drawn(seed) % 2) as u32;
    let slot = (drawn(seed) % 2) as u32;
    match kind {
        0 => Event::Script,
        1 => Event::Begin { worker, slot },
        _ => Event::End { worker },
    }
}

/// Random events, and then those that are still enabled, until none is.
fn in_some_order(alloc: Global, limit: u64, left: u64, events: u32) -> Option<Told3>
    requires { limit < 2 ^ 32 }
{
    let slots = two_slots(alloc, left)?;
    let mut world = World::new(alloc, new_asker(limit), slots, 2).ok()?;
    let mut seed = 1;
    for _ in 0..events {
        let _ = world.step(next_event(&mut seed));
    }
    let rest = [
        Event::Script,
        Event::End { worker: 0 },
        Event::End { worker: 1 },
        Event::Begin { worker: 0, slot: 0 },
        Event::Begin { worker: 1, slot: 1 },
    ];
    for _ in 0..events {
        let _ = world.run_events(&rest);
    }
    if !world.is_done() {
        return None;
    }
    let (script, slots) = world.into_parts();
    slots.get(0)?;
    Some((script.first, script.second, script.stopped))
}

#[test]
fn any_order_tells_what_one_thread_does(rt: HostRuntime) -> Result<(), Fail> {
    // 1 + 3 + .. + 99, 2 + 4 + .. + 100
    let sums = Some((2500, 2550, false));
    assert_eq!(rt; alone(rt.alloc(), 100, u64::MAX), sums);
    assert_eq!(rt; in_some_order(rt.alloc(), 100, u64::MAX, 500), sums);
    Ok(())
}

#[test]
fn a_stop_is_told_once(rt: HostRuntime) -> Result<(), Fail> {
    // Each slot stops at its third number: 1 + 3, and before that 2 + 4
    let sums = Some((4, 6, true));
    assert_eq!(rt; alone(rt.alloc(), 10, 2), sums);
    assert_eq!(rt; in_some_order(rt.alloc(), 10, 2, 50), sums);
    Ok(())
}
