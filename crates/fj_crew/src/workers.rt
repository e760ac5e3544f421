//! Workers, who go over all queues.
ghost use Rattle.std.specs.Prelude.{◌≡◌, ◌+◌, ◌<◌, ◌≤◌, ℕ, [], length, vec_capacity, IfSome, OnOk, slice_index_or};
ghost use Rattle.std.specs.VecDeque.{deque_capacity};
ghost use Rattle.fj_crew.specs.Seats.{Paired};
ghost use Rattle.fj_crew.specs.Team.{AllServe, HandsAre, SeatsLike};

use crate::signals::Signals;
use crossbeam_utils::Backoff;
use fj_queue::{Hand, Queue, Submitter};
use fj_slot::Engine;
use std::alloc::{AllocError, Global};
use std::collections::VecDeque;
use std::sync::Wait;

// Takes a hand of each queue.
fn hire<E: Engine>(
    queues: &VecDeque<Queue<E>>,
    seats: &mut VecDeque<Submitter<E>>,
    team: &mut VecDeque<Hand<E>>,
)
    requires paired { Paired queues.now.items seats.old.items }
    requires empty { team.old.items ≡ [] }
    requires room { length queues.now.items ≤ deque_capacity team.old }
    ensures serves { AllServe queues.now.items team.new.items }
    ensures paired { Paired queues.now.items seats.new.items }
    ensures like { SeatsLike seats.old.items seats.new.items }
    ensures hands { (n : ℕ) → HandsAre n seats.old.items → HandsAre (n + 1) seats.new.items }
{
    for at in 0..queues.len() {
        let queue = &queues[at];
        let seat = &mut seats[at];
        let hand = queue.hand(seat);
        team.push_back_reserved(hand);
    }
}

/// Folds the hands in, each at its queue.
pub(crate) fn fold<E: Engine>(
    queues: &VecDeque<Queue<E>>,
    seats: &mut VecDeque<Submitter<E>>,
    mut team: VecDeque<Hand<E>>,
)
    requires paired { Paired queues.now.items seats.old.items }
    requires serves { AllServe queues.now.items team.items }
    ensures paired { Paired queues.now.items seats.new.items }
    ensures like { SeatsLike seats.old.items seats.new.items }
    ensures hands { (n : ℕ) → HandsAre (n + 1) seats.old.items → HandsAre n seats.new.items }
{
    for at in 0..queues.len() {
        let Some(hand) = team.pop_front() else {
            unreachable!()
        };
        let queue = &queues[at];
        let seat = &mut seats[at];
        queue.fold_in(seat, hand);
    }
    team.destroy_empty();
}

// The first of these queues of which a job seems due.
fn first_due<E: Engine>(queues: &VecDeque<Queue<E>>, from: usize, to: usize) -> Option<usize>
    requires { to ≤ length queues.now.items }
    ensures { IfSome result (λ at. at < length queues.now.items) }
{
    for at in from..to {
        if queues[at].seems_due() {
            return Some(at);
        }
    }
    None
}

// The first queue from a place on of which a job seems due, or else one of the first so many.
fn next_due<E: Engine>(queues: &VecDeque<Queue<E>>, from: usize, rest: usize) -> Option<usize>
    requires { rest ≤ length queues.now.items }
    ensures { IfSome result (λ at. at < length queues.now.items) }
{
    match first_due(queues, from, queues.len()) {
        Some(at) => Some(at),
        None => first_due(queues, 0, rest),
    }
}

// Works once on the queue at that place. Another worker is to look on where this was the last one that did.
fn work_at<E: Engine, R: Wait>(
    rt: &R,
    queues: &VecDeque<Queue<E>>,
    team: &mut VecDeque<Hand<E>>,
    signals: &Signals,
    at: usize,
) -> bool
    requires within { at < length queues.now.items }
    requires serves { AllServe queues.now.items team.old.items }
    ensures serves { AllServe queues.now.items team.new.items }
{
    if signals.looks_no_more() {
        signals.ring_if(next_due(queues, at + 1, at).is_some());
    }
    let hand = &mut team[at];
    let worked = queues[at].work_where_due(rt, hand);
    if worked {
        signals.ended(at as u64);
    }
    signals.looks();
    worked
}

// Sleeps, unless there is work at the last look.
fn pause<E: Engine, R: Wait>(rt: &R, queues: &VecDeque<Queue<E>>, signals: &Signals) {
    let wait = signals.lies_down();
    if first_due(queues, 0, queues.len()).is_none() && !signals.is_over() {
        wait.wait(rt);
    }
    signals.gets_up();
}

/// Works until the script has finished.
pub(crate) fn work<E: Engine, R: Wait>(
    rt: &R,
    queues: &VecDeque<Queue<E>>,
    team: &mut VecDeque<Hand<E>>,
    signals: &Signals,
)
    requires serves { AllServe queues.now.items team.old.items }
    ensures serves { AllServe queues.now.items team.new.items }
{
    signals.looks();
    let backoff = Backoff::new();
    let mut from = 0usize;
    for _ in rt.forever() {
        let due = next_due(queues, from, from.min(queues.len()));
        if signals.is_over() {
            let _last = signals.looks_no_more();
            return;
        }
        match due {
            Some(at) => {
                from = at + 1;
                if work_at(rt, queues, team, signals, at) {
                    backoff.reset();
                } else {
                    backoff.snooze();
                }
            }
            None => {
                if backoff.is_completed() {
                    pause(rt, queues, signals);
                    backoff.reset();
                } else {
                    backoff.snooze();
                }
            }
        }
    }
    unreachable!()
}

/// Hires the workers, each with a hand of every queue.
pub(crate) fn staff<E: Engine>(
    alloc: Global,
    queues: &VecDeque<Queue<E>>,
    seats: &mut VecDeque<Submitter<E>>,
    crew: &mut Vec<VecDeque<Hand<E>>>,
    workers: usize,
) -> Result<(), AllocError>
    requires paired { Paired queues.now.items seats.old.items }
    requires hands { HandsAre 0 seats.old.items }
    requires empty { crew.old.items ≡ [] }
    requires room { workers ≤ vec_capacity crew.old }
    ensures serves { (i : ℕ) (d : _) → i < length crew.new.items → AllServe queues.now.items (slice_index_or crew.new.items i d).items }
    ensures paired { Paired queues.now.items seats.new.items }
    ensures like { SeatsLike seats.old.items seats.new.items }
    ensures hands { HandsAre (length crew.new.items) seats.new.items }
    ensures all { OnOk result (length crew.new.items ≡ workers) }
{
    for _ in 0..workers {
        let mut team = VecDeque::new(alloc);
        if let Err(error) = team.reserve(queues.len()) {
            team.destroy_empty();
            return Err(error);
        }
        hire(queues, seats, &mut team);
        crew.push_reserved(team);
    }
    Ok(())
}

/// Folds all hands in.
pub(crate) fn dismiss<E: Engine>(
    queues: &VecDeque<Queue<E>>,
    seats: &mut VecDeque<Submitter<E>>,
    mut crew: Vec<VecDeque<Hand<E>>>,
)
    requires paired { Paired queues.now.items seats.old.items }
    requires hands { HandsAre (length crew.items) seats.old.items }
    requires serves { (i : ℕ) (d : _) → i < length crew.items → AllServe queues.now.items (slice_index_or crew.items i d).items }
    ensures paired { Paired queues.now.items seats.new.items }
    ensures like { SeatsLike seats.old.items seats.new.items }
    ensures hands { HandsAre 0 seats.new.items }
{
    while let Some(team) = crew.pop() {
        fold(queues, seats, team);
    }
    crew.destroy_empty();
}
