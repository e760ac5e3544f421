//! A script is served by one thread while others go over its queues.
ghost use Rattle.std.specs.Prelude.{◌≡◌, ◌<◌, ℕ, length, OnOk, OnErr, slice_index_or};
ghost use denote.Param.Send.{IsSync, IsSend};
ghost use Rattle.fj_crew.specs.Seats.{Paired};
ghost use Rattle.fj_crew.specs.Team.{AllServe, HandsAre, SeatsLike, CanServe, HasServed};

use crate::serve::serve;
use crate::signals::Signals;
use crate::workers::{dismiss, fold, staff, work};
use fj_queue::{Hand, Queue, Submitter};
use fj_slot::Engine;
use fj_world::Script;
use std::alloc::{AllocError, Global};
use std::collections::VecDeque;
use std::sync::Wait;
use std::thread::{Threads, join_mut};

// What threads do over what they share: one leads, the others help. Its parts are type parameters, since a closure that holds a
// reference to a type of several parameters cannot be joined.
pub(crate) trait Shared<X, Y, Z> {
    ghost serves: { Self → X → Type 0 };

    ghost can_lead: { Self → Y → Z → Type 0 };

    ghost has_led: { Self → Y → Z → Y → Z → Type 0 };

    // Waits until one more is to help; answers no where all is done.
    fn is_called<R: Wait>(&self, rt: &R) -> bool;

    fn help<R: Wait>(&self, rt: &R, x: &mut X)
        requires { serves self.now x.old }
        ensures { serves self.now x.new };

    // It helps while it waits for others.
    fn lead<R: Wait>(&self, rt: &R, x: &mut X, y: &mut Y, z: &mut Z)
        requires lead { can_lead self.now y.old z.old }
        requires serves { serves self.now x.old }
        ensures lead { has_led self.now y.old z.old y.new z.new }
        ensures serves { serves self.now x.new };
}

// Once the first is called it helps, and the next one is there to be called, in a thread of its own.
#[cycle(chain)]
fn help_all<X: Send, Y, Z, Q: Shared<X, Y, Z> + Sync, R: Threads + Wait + Sync>(
    rt: &R,
    shared: &Q,
    xs: &mut [X],
)
    requires some { 0 < length xs.old }
    requires help { (i : ℕ) (d : X) → i < length xs.old → Q.serves shared.now (slice_index_or xs.old i d) }
    ensures help { (i : ℕ) (d : X) → i < length xs.old → Q.serves shared.now (slice_index_or xs.new i d) }
    ensures long { length xs.new ≡ length xs.old }
{
    if !shared.is_called(rt) {
        return;
    }
    if xs.len() == 1 {
        shared.help(rt, &mut xs[0]);
        return;
    }
    let (first, rest) = xs.split_at_mut(1);
    help_both(rt, shared, first, rest);
}

// A function of its own, so that what the closures require is what it is given.
#[cycle(chain)]
fn help_both<X: Send, Y, Z, Q: Shared<X, Y, Z> + Sync, R: Threads + Wait + Sync>(
    rt: &R,
    shared: &Q,
    first: &mut [X],
    rest: &mut [X],
)
    requires some { (length first.old ≡ 1) × (0 < length rest.old) }
    requires first { (i : ℕ) (d : X) → i < length first.old → Q.serves shared.now (slice_index_or first.old i d) }
    requires rest { (i : ℕ) (d : X) → i < length rest.old → Q.serves shared.now (slice_index_or rest.old i d) }
    ensures first { (i : ℕ) (d : X) → i < length first.old → Q.serves shared.now (slice_index_or first.new i d) }
    ensures rest { (i : ℕ) (d : X) → i < length rest.old → Q.serves shared.now (slice_index_or rest.new i d) }
    ensures long { (length first.new ≡ length first.old) × (length rest.new ≡ length rest.old) }
{
    join_mut(
        rt,
        &mut ||
            requires { IsSync R.row × IsSync Q.row × IsSend X.row × (0 < length rest.now) × ((i : ℕ) (d : X) → i < length rest.now → Q.serves shared.now (slice_index_or rest.now i d)) }
            ensures { ((i : ℕ) (d : X) → i < length rest.entry.now → Q.serves shared.entry.now (slice_index_or rest.exit.now i d)) × (length rest.exit.now ≡ length rest.entry.now) }
        { help_all(rt, shared, rest) },
        &mut ||
            requires { (length first.now ≡ 1) × ((i : ℕ) (d : X) → i < length first.now → Q.serves shared.now (slice_index_or first.now i d)) }
            ensures { ((i : ℕ) (d : X) → i < length first.entry.now → Q.serves shared.entry.now (slice_index_or first.exit.now i d)) × (length first.exit.now ≡ length first.entry.now) }
        { shared.help(rt, &mut first[0]) },
    );
}

// Where no thread can be made, the one leads before the others help.
fn all<X: Send, Y, Z, Q: Shared<X, Y, Z> + Sync, R: Threads + Wait + Sync>(
    rt: &R,
    shared: &Q,
    xs: &mut [X],
    x: &mut X,
    y: &mut Y,
    z: &mut Z,
)
    requires some { 0 < length xs.old }
    requires help { (i : ℕ) (d : X) → i < length xs.old → Q.serves shared.now (slice_index_or xs.old i d) }
    requires serves { Q.serves shared.now x.old }
    requires lead { Q.can_lead shared.now y.old z.old }
    ensures help { (i : ℕ) (d : X) → i < length xs.old → Q.serves shared.now (slice_index_or xs.new i d) }
    ensures long { length xs.new ≡ length xs.old }
    ensures serves { Q.serves shared.now x.new }
    ensures lead { Q.has_led shared.now y.old z.old y.new z.new }
{
    join_mut(
        rt,
        &mut ||
            requires { IsSync R.row × IsSync Q.row × IsSend X.row × (0 < length xs.now) × ((i : ℕ) (d : X) → i < length xs.now → Q.serves shared.now (slice_index_or xs.now i d)) }
            ensures { ((i : ℕ) (d : X) → i < length xs.entry.now → Q.serves shared.entry.now (slice_index_or xs.exit.now i d)) × (length xs.exit.now ≡ length xs.entry.now) }
        { help_all(rt, shared, xs) },
        &mut || shared.lead(rt, x, y, z),
    );
}

/// The queues, and what their threads tell each other.
#[derive(Drop)]
pub(crate) struct Floor<Q> {
    pub queues: VecDeque<Q>,
    pub signals: Signals,
}

impl<S: Script> Shared<VecDeque<Hand<S::Gear>>, S, VecDeque<Submitter<S::Gear>>>
    for Floor<Queue<S::Gear>> {
    ghost serves = { λ floor team. AllServe floor.queues.items team.items };

    ghost can_lead = { λ floor script seats. CanServe S.Gear.meaning S.conduct floor.queues.items script seats.items };

    ghost has_led = { λ floor script seats script' seats'. HasServed S.Gear.meaning S.conduct floor.queues.items script seats.items script' seats'.items };

    fn is_called<R: Wait>(&self, rt: &R) -> bool {
        self.signals.is_called(rt)
    }

    fn help<R: Wait>(&self, rt: &R, team: &mut VecDeque<Hand<S::Gear>>) {
        work(rt, &self.queues, team, &self.signals);
    }

    fn lead<R: Wait>(
        &self,
        rt: &R,
        own: &mut VecDeque<Hand<S::Gear>>,
        script: &mut S,
        seats: &mut VecDeque<Submitter<S::Gear>>,
    ) {
        serve(rt, script, &self.queues, seats, own, &self.signals);
        self.signals.finish();
    }
}

// Serves the script, with those workers beside it.
fn serve_beside<S: Script + Send, R: Threads + Wait + Sync>(
    rt: &R,
    script: &mut S,
    floor: &Floor<Queue<S::Gear>>,
    seats: &mut VecDeque<Submitter<S::Gear>>,
    own: &mut VecDeque<Hand<S::Gear>>,
    crew: &mut [VecDeque<Hand<S::Gear>>],
)
where
    S::Gear: Send,
    <S::Gear as Engine>::Job: Send,
    <S::Gear as Engine>::Answer: Send,
    requires can { CanServe S.Gear.meaning S.conduct floor.now.queues.items script.old seats.old.items }
    requires serves { (i : ℕ) (d : _) → i < length crew.old → AllServe floor.now.queues.items (slice_index_or crew.old i d).items }
    requires own { AllServe floor.now.queues.items own.old.items }
    ensures own { AllServe floor.now.queues.items own.new.items }
    ensures served { HasServed S.Gear.meaning S.conduct floor.now.queues.items script.old seats.old.items script.new seats.new.items }
    ensures long { length crew.new ≡ length crew.old }
    ensures serves { (i : ℕ) (d : _) → i < length crew.old → AllServe floor.now.queues.items (slice_index_or crew.new i d).items }
{
    if crew.is_empty() {
        floor.lead(rt, own, script, seats);
        return;
    }
    all(rt, floor, crew, own, script, seats);
}

// Serves the script, with that crew beside it.
fn serve_with_crew<S: Script + Send, R: Threads + Wait + Sync>(
    rt: &R,
    script: &mut S,
    floor: &Floor<Queue<S::Gear>>,
    seats: &mut VecDeque<Submitter<S::Gear>>,
    own: &mut VecDeque<Hand<S::Gear>>,
    crew: &mut Vec<VecDeque<Hand<S::Gear>>>,
)
where
    S::Gear: Send,
    <S::Gear as Engine>::Job: Send,
    <S::Gear as Engine>::Answer: Send,
    requires can { CanServe S.Gear.meaning S.conduct floor.now.queues.items script.old seats.old.items }
    requires serves { (i : ℕ) (d : _) → i < length crew.old.items → AllServe floor.now.queues.items (slice_index_or crew.old.items i d).items }
    requires own { AllServe floor.now.queues.items own.old.items }
    ensures own { AllServe floor.now.queues.items own.new.items }
    ensures served { HasServed S.Gear.meaning S.conduct floor.now.queues.items script.old seats.old.items script.new seats.new.items }
    ensures long { length crew.new.items ≡ length crew.old.items }
    ensures serves { (i : ℕ) (d : _) → i < length crew.old.items → AllServe floor.now.queues.items (slice_index_or crew.new.items i d).items }
{
    serve_beside(rt, script, floor, seats, own, crew.as_mut_slice());
}

/// Hires the workers, and the script's thread besides, serves the script, and folds all hands in. Without memory for the workers nothing is asked.
pub(crate) fn employ<S: Script + Send, R: Threads + Wait + Sync>(
    rt: &R,
    alloc: Global,
    script: &mut S,
    queues: VecDeque<Queue<S::Gear>>,
    seats: &mut VecDeque<Submitter<S::Gear>>,
    workers: u32,
) -> (VecDeque<Queue<S::Gear>>, Result<(), AllocError>)
where
    S::Gear: Send,
    <S::Gear as Engine>::Job: Send,
    <S::Gear as Engine>::Answer: Send,
    requires can { CanServe S.Gear.meaning S.conduct queues.items script.old seats.old.items }
    requires hands { HandsAre 0 seats.old.items }
    ensures paired { Paired result.0.items seats.new.items }
    ensures hands { HandsAre 0 seats.new.items }
    ensures served { OnOk result.1 (HasServed S.Gear.meaning S.conduct queues.items script.old seats.old.items script.new seats.new.items) }
    ensures not_served { OnErr result.1 ((script.new ≡ script.old) × SeatsLike seats.old.items seats.new.items) }
{
    let mut crew = Vec::new(alloc);
    let teams = workers as usize + 1;
    if let Err(error) = crew.reserve(teams) {
        crew.destroy_empty();
        return (queues, Err(error));
    }
    if let Err(error) = staff(alloc, &queues, seats, &mut crew, teams) {
        dismiss(&queues, seats, crew);
        return (queues, Err(error));
    }
    let floor = Floor {
        queues,
        signals: Signals::new(workers),
    };
    let Some(mut own) = crew.pop() else {
        unreachable!();
    };
    serve_with_crew(rt, script, &floor, seats, &mut own, &mut crew);
    fold(&floor.queues, seats, own);
    dismiss(&floor.queues, seats, crew);
    let Floor { queues, signals: _ } = floor;
    (queues, Ok(()))
}
