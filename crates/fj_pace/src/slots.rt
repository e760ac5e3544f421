//! Jobs on slots, with no queue.
use crate::counter::{Counter, new_counter};
use fj_slot::{Engine, Slot, Told};
use std::alloc::Global;

fn submit_next(slot: &mut Slot<Counter>) {
    if slot.submitted() < 1 << 62 {
        let _number = slot.submit(1);
    }
}

// Performs the next job and tells it: its sum.
fn tell_next(slot: &mut Slot<Counter>) -> Option<u64> {
    if let Some(mut out) = slot.begin() {
        let before = out.engine.faults();
        let got = out.engine.perform(&mut out.job);
        slot.end(out, got, before);
    }
    if !slot.ready() {
        return None;
    }
    match slot.tell() {
        Told::Done { job: _, answer } => Some(answer),
        Told::Stopped {
            job: _,
            stop: _,
            before: _,
            after: _,
        } => None,
    }
}

fn row(slot: &mut Slot<Counter>, ahead: u64) -> Option<u64> {
    for _ in 0..ahead {
        submit_next(slot);
    }
    let mut last = None;
    for _ in 0..ahead {
        last = tell_next(slot);
    }
    last
}

/// So often so many jobs are submitted to a slot, and then performed and told: the last sum.
pub fn on_slot(alloc: Global, times: u64, ahead: u64) -> Option<u64> {
    let mut slot = Slot::new(alloc, new_counter());
    let mut last = None;
    for _ in 0..times {
        last = row(&mut slot, ahead);
    }
    last
}

/// The same on four slots by turns, job by job.
pub fn on_four_slots(alloc: Global, times: u64, ahead: u64) -> Option<u64> {
    let mut one = Slot::new(alloc, new_counter());
    let mut two = Slot::new(alloc, new_counter());
    let mut three = Slot::new(alloc, new_counter());
    let mut four = Slot::new(alloc, new_counter());
    let mut last = None;
    for _ in 0..times {
        for _ in 0..ahead {
            submit_next(&mut one);
            submit_next(&mut two);
            submit_next(&mut three);
            submit_next(&mut four);
        }
        for _ in 0..ahead {
            tell_next(&mut one);
            tell_next(&mut two);
            tell_next(&mut three);
            last = tell_next(&mut four);
        }
    }
    last
}
