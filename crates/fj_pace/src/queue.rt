//! Jobs on one queue, with no worker.
ghost use Rattle.std.specs.Prelude.{◌≡◌, ◌<◌, ◌+◌, ◌^◌, IfSome, None, true};
ghost use Rattle.fj_queue.specs.Knows.{knows, IsOf};

use crate::counter::{Counter, new_counter};
use fj_queue::{Queue, Submitter};
use fj_slot::Told;
use std::alloc::Global;
use std::sync::Wait;

// Submits one job more.
fn send<R: Wait>(rt: &R, queue: &Queue<Counter>, submitter: &mut Submitter<Counter>) -> bool
    requires own { IsOf queue.now submitter.old }
    requires plan { (knows submitter.old).plan ≡ None }
    requires room { (knows submitter.old).sent < 2 ^ 40 }
    ensures own { IsOf queue.now submitter.new }
    ensures hands { (knows submitter.new).hands ≡ (knows submitter.old).hands }
    ensures sent { result ≡ true → (knows submitter.new).sent ≡ (knows submitter.old).sent + 1 }
    ensures same { ((knows submitter.new).heard ≡ (knows submitter.old).heard) × ((knows submitter.new).plan ≡ None) }
{
    queue.submit(rt, submitter, 1).is_ok()
}

// Submits so many jobs.
fn submit_row<R: Wait>(
    rt: &R,
    queue: &Queue<Counter>,
    submitter: &mut Submitter<Counter>,
    ahead: u64,
    sent: u64,
) -> bool
    requires own { IsOf queue.now submitter.old }
    requires plan { (knows submitter.old).plan ≡ None }
    requires room { (sent < 2 ^ 39) × (ahead < 2 ^ 32) }
    requires all { ((knows submitter.old).sent ≡ sent) × ((knows submitter.old).heard ≡ sent) }
    ensures own { IsOf queue.now submitter.new }
    ensures hands { (knows submitter.new).hands ≡ (knows submitter.old).hands }
    ensures plan { (knows submitter.new).plan ≡ None }
    ensures all { result ≡ true → ((knows submitter.new).sent ≡ sent + ahead) × ((knows submitter.new).heard ≡ sent) }
{
    for number in 0..ahead {
        if !send(rt, queue, submitter) {
            return false;
        }
    }
    true
}

// Settles so many jobs.
fn settle_row<R: Wait>(
    rt: &R,
    queue: &Queue<Counter>,
    submitter: &mut Submitter<Counter>,
    ahead: u64,
    sent: u64,
) -> u64
    requires own { IsOf queue.now submitter.old }
    requires plan { (knows submitter.old).plan ≡ None }
    requires room { (sent < 2 ^ 39) × (ahead < 2 ^ 32) }
    requires all { ((knows submitter.old).sent ≡ sent + ahead) × ((knows submitter.old).heard ≡ sent) }
    ensures own { IsOf queue.now submitter.new }
    ensures hands { (knows submitter.new).hands ≡ (knows submitter.old).hands }
    ensures plan { (knows submitter.new).plan ≡ None }
    ensures all { ((knows submitter.new).sent ≡ sent + ahead) × ((knows submitter.new).heard ≡ sent + ahead) }
{
    let mut last = 0;
    for number in 0..ahead {
        if let Told::Done { job: _, answer } = queue.settle(rt, submitter) {
            last = answer;
        }
    }
    last
}

// Some jobs are submitted, and then settled; so often.
fn rows<R: Wait>(
    rt: &R,
    queue: &Queue<Counter>,
    submitter: &mut Submitter<Counter>,
    ahead: u64,
    times: u64,
) -> Option<u64>
    requires own { IsOf queue.now submitter.old }
    requires plan { (knows submitter.old).plan ≡ None }
    requires room { (ahead < 2 ^ 18) × (times < 2 ^ 20) }
    requires all { ((knows submitter.old).sent ≡ 0) × ((knows submitter.old).heard ≡ 0) }
    ensures own { IsOf queue.now submitter.new }
    ensures hands { (knows submitter.new).hands ≡ (knows submitter.old).hands }
{
    let mut last = 0;
    let mut sent = 0u64;
    for _ in 0..times {
        if sent >= 1 << 38 {
            return None;
        }
        if !submit_row(rt, queue, submitter, ahead, sent) {
            return None;
        }
        last = settle_row(rt, queue, submitter, ahead, sent);
        sent += ahead;
    }
    Some(last)
}

/// So often so many jobs are submitted, and then settled: the last sum.
pub fn on_queue<R: Wait>(rt: &R, alloc: Global, times: u64, ahead: u64) -> Option<u64>
    requires room { (ahead < 2 ^ 18) × (times < 2 ^ 20) }
{
    let (queue, mut submitter) = Queue::new(alloc, new_counter()).ok()?;
    let last = rows(rt, &queue, &mut submitter, ahead, times);
    let _slot = queue.close(submitter);
    last
}
