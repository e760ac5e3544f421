//! The queues of a script's slots, and their submitters.
ghost use Rattle.std.specs.Prelude.{◌≡◌, ◌<◌, ◌≤◌, ◌^◌, length, IfOk, IfErr, IfSome};
ghost use Rattle.fj_queue.specs.Cell.{IsNext};
ghost use Rattle.fj_crew.specs.Seats.{SeatAt, Paired, Submits, Settles};
ghost use Rattle.fj_crew.specs.Team.{AllServe};

use crate::signals::Signals;
use crossbeam_utils::Backoff;
use fj_queue::{Hand, Queue, Submitter};
use fj_slot::{Engine, Refused, Told};
use std::collections::VecDeque;
use std::sync::Wait;

// Rings where a job of that slot is due.
fn tell_of<E: Engine>(queues: &VecDeque<Queue<E>>, signals: &Signals, slot: u64) {
    if let Some(queue) = queues.get(slot as usize) {
        signals.ring_if(queue.seems_due());
    }
}

// Rings for a long job that was submitted, or else for the short one before it.
fn tell_or_hold_back<E: Engine>(
    queues: &VecDeque<Queue<E>>,
    signals: &Signals,
    slot: u64,
    is_long: bool,
) {
    if is_long {
        signals.marks_long(slot);
        tell_of(queues, signals, slot);
    } else {
        tell_of(queues, signals, signals.holds_back(slot));
    }
}

/// Submits a job to the slot at that place, and tells the workers. Of a short one they hear by the next ask that is not its settling.
pub(crate) fn submit_at<E: Engine, R: Wait>(
    rt: &R,
    queues: &VecDeque<Queue<E>>,
    seats: &mut VecDeque<Submitter<E>>,
    signals: &Signals,
    at: usize,
    job: E::Job,
) -> Result<u64, Refused<E::Job>>
    requires within { at < length seats.old.items }
    requires paired { Paired queues.now.items seats.old.items }
    requires room { SeatAt seats.old.items at (λ v. v.sent < 2 ^ 62) }
    requires next { SeatAt seats.old.items at (λ v. IsNext E.meaning v.plan v.sent job) }
    ensures paired { Paired queues.now.items seats.new.items }
    ensures submits { Submits seats.old.items at result seats.new.items }
    ensures handed_back { IfErr result (λ refused. refused.job ≡ job) }
{
    let queue = &queues[at];
    let seat = &mut seats[at];
    let is_long = E::is_long(&job);
    let number = queue.submit(rt, seat, job);
    tell_or_hold_back(queues, signals, at as u64, is_long);
    number
}

// Works once on the queue at that place, where a job is due and no one has taken it.
fn help_at<E: Engine, R: Wait>(
    rt: &R,
    queues: &VecDeque<Queue<E>>,
    own: &mut VecDeque<Hand<E>>,
    at: usize,
) -> bool
    requires within { at < length queues.now.items }
    requires serves { AllServe queues.now.items own.old.items }
    ensures serves { AllServe queues.now.items own.new.items }
{
    let queue = &queues[at];
    let hand = &mut own[at];
    queue.work_where_due(rt, hand)
}

// The first of the queues of which a job seems due, and none is long.
fn first_short<E: Engine>(queues: &VecDeque<Queue<E>>, signals: &Signals) -> Option<usize>
    ensures { IfSome result (λ at. at < length queues.now.items) }
{
    for at in 0..queues.len() {
        if queues[at].seems_due() && !signals.may_be_long(at as u64) {
            return Some(at);
        }
    }
    None
}

// Performs a short job wherever one is due, where each worker is at a job.
fn help_out<E: Engine, R: Wait>(
    rt: &R,
    queues: &VecDeque<Queue<E>>,
    own: &mut VecDeque<Hand<E>>,
    signals: &Signals,
) -> bool
    requires serves { AllServe queues.now.items own.old.items }
    ensures serves { AllServe queues.now.items own.new.items }
{
    if signals.is_one_free() {
        return false;
    }
    let Some(at) = first_short(queues, signals) else {
        return false;
    };
    let helped = help_at(rt, queues, own, at);
    signals.ring_if(queues[at].seems_due());
    helped
}

// Until there is an answer to tell at that place: performs a job there where no one has taken it, and while one is out helps out,
// or else gives its processor to the workers.
fn wait_for<E: Engine, R: Wait>(
    rt: &R,
    queues: &VecDeque<Queue<E>>,
    own: &mut VecDeque<Hand<E>>,
    signals: &Signals,
    at: usize,
)
    requires within { at < length queues.now.items }
    requires serves { AllServe queues.now.items own.old.items }
    ensures serves { AllServe queues.now.items own.new.items }
{
    let backoff = Backoff::new();
    for _ in rt.forever() {
        if queues[at].seems_ready() {
            return;
        }
        if help_at(rt, queues, own, at) {
            continue;
        }
        if backoff.is_completed() {
            if help_out(rt, queues, own, signals) {
                continue;
            }
            let wait = signals.awaits(at as u64);
            if queues[at].seems_out() {
                wait.wait(rt);
            }
        }
        backoff.snooze();
    }
    unreachable!()
}

// Tells the workers of a job behind the one that was told, or that none is left.
fn look_behind<E: Engine>(queue: &Queue<E>, signals: &Signals, at: u64) {
    if queue.seems_due() {
        signals.ring_if(true);
    } else if !queue.seems_out() && !queue.seems_ready() {
        signals.marks_empty(at);
    }
}

/// Settles the next job of the slot at that place.
pub(crate) fn settle_at<E: Engine, R: Wait>(
    rt: &R,
    queues: &VecDeque<Queue<E>>,
    seats: &mut VecDeque<Submitter<E>>,
    own: &mut VecDeque<Hand<E>>,
    signals: &Signals,
    at: usize,
) -> Told<E>
    requires within { at < length seats.old.items }
    requires paired { Paired queues.now.items seats.old.items }
    requires waits { SeatAt seats.old.items at (λ v. v.heard < v.sent) }
    requires room { SeatAt seats.old.items at (λ v. v.sent ≤ 2 ^ 62) }
    requires serves { AllServe queues.now.items own.old.items }
    ensures serves { AllServe queues.now.items own.new.items }
    ensures paired { Paired queues.now.items seats.new.items }
    ensures settles { Settles E.meaning seats.old.items at result seats.new.items }
{
    let short = signals.holds_none();
    if short != at as u64 {
        tell_of(queues, signals, short);
    }
    wait_for(rt, queues, own, signals, at);
    let queue = &queues[at];
    let seat = &mut seats[at];
    let told = queue.settle(rt, seat);
    look_behind(queue, signals, at as u64);
    told
}
