//! Jobs that add their amounts, submitted and settled in one thread while two hands perform them in others; and a job that fails.
ghost use Rattle.std.specs.Prelude.{◌≡◌, ◌+◌, ◌<◌, ◌≤◌, ◌^◌, true, None, IfSome, is_some};
ghost use denote.Param.Send.{IsSync};
ghost use Rattle.fj_queue.specs.Knows.{knows, IsOf, Serves};

use fj_outside::Stop;
use fj_queue::{Hand, Queue, Submitter};
use fj_slot::{Engine, Slot, Told};
use std::alloc::Global;
use std::sync::Wait;
use std::sync::atomic::AtomicBool;
use std::sync::atomic::Ordering::SeqCst;
use std::test::Fail;
use std::thread::{Threads, join_mut};

// It adds until so many jobs are left, and then fails.
#[derive(Drop)]
struct Counter {
    sum: u64,
    left: u64,
    faults: u64,
}

impl Engine for Counter {
    type Job = u64;

    type Answer = u64;

    type State = u64;

    type Task = u64;

    type Reply = u64;

    ghost meaning = { record {
      state = λ _. None;
      task = λ _. None;
      reply = λ answer. answer;
      serve = λ s t. record { engine = s; job = t; answer = t };
      spoilt = λ _ _ _ _. ⊥;
      faults = λ c. c.faults;
    } };

    fn perform(&mut self, job: &mut u64) -> Result<u64, Stop> {
        if self.left == 0 {
            self.faults = self.faults.saturating_add(1);
            return Err(Stop::Failed);
        }
        self.left -= 1;
        self.sum = self.sum.wrapping_add(*job);
        Ok(self.sum)
    }

    fn faults(&self) -> u64 {
        self.faults
    }
}

// Submits an amount, once more where memory was refused.
fn give<R: Wait>(
    rt: &R,
    queue: &Queue<Counter>,
    submitter: &mut Submitter<Counter>,
    amount: u64,
) -> bool
    requires own { IsOf queue.now submitter.old }
    requires plan { (knows submitter.old).plan ≡ None }
    requires room { (knows submitter.old).sent < 2 ^ 32 }
    ensures own { IsOf queue.now submitter.new }
    ensures sent { result ≡ true → (knows submitter.new).sent ≡ (knows submitter.old).sent + 1 }
    ensures same { ((knows submitter.new).heard ≡ (knows submitter.old).heard) × ((knows submitter.new).plan ≡ None) × ((knows submitter.new).hands ≡ (knows submitter.old).hands) }
{
    match queue.submit(rt, submitter, amount) {
        Ok(_) => true,
        Err(refused) => queue.submit(rt, submitter, refused.job).is_ok(),
    }
}

// Submits the amounts from 1 on.
fn submit_all<R: Wait>(
    rt: &R,
    queue: &Queue<Counter>,
    submitter: &mut Submitter<Counter>,
    jobs: u64,
) -> bool
    requires own { IsOf queue.now submitter.old }
    requires new { ((knows submitter.old).sent ≡ 0) × ((knows submitter.old).heard ≡ 0) × ((knows submitter.old).plan ≡ None) }
    requires few { jobs < 2 ^ 32 }
    ensures own { IsOf queue.now submitter.new }
    ensures hands { (knows submitter.new).hands ≡ (knows submitter.old).hands }
    ensures sent { result ≡ true → ((knows submitter.new).sent ≡ jobs) × ((knows submitter.new).heard ≡ 0) }
{
    for number in 0..jobs {
        if !give(rt, queue, submitter, number + 1) {
            return false;
        }
    }
    true
}

// Settles all: the first and the last answer, and how many jobs were stopped.
fn settle_all<R: Wait>(
    rt: &R,
    queue: &Queue<Counter>,
    submitter: &mut Submitter<Counter>,
    jobs: u64,
) -> (u64, u64, u64)
    requires own { IsOf queue.now submitter.old }
    requires sent { ((knows submitter.old).sent ≡ jobs) × ((knows submitter.old).heard ≡ 0) }
    requires few { jobs < 2 ^ 32 }
    ensures own { IsOf queue.now submitter.new }
    ensures hands { (knows submitter.new).hands ≡ (knows submitter.old).hands }
{
    let mut first = 0u64;
    let mut last = 0u64;
    let mut stops = 0u64;
    for number in 0..jobs {
        match queue.settle(rt, submitter) {
            Told::Done { job: _, answer } => {
                first = if number == 0 { answer } else { first };
                last = answer;
            }
            Told::Stopped {
                job: _,
                stop: _,
                before: _,
                after: _,
            } => stops = stops.wrapping_add(1),
        }
    }
    (first, last, stops)
}

// Submits all and settles all.
fn lead<R: Wait>(
    rt: &R,
    queue: &Queue<Counter>,
    submitter: &mut Submitter<Counter>,
    jobs: u64,
    over: &AtomicBool,
) -> (u64, u64, u64)
    requires own { IsOf queue.now submitter.old }
    requires new { ((knows submitter.old).sent ≡ 0) × ((knows submitter.old).heard ≡ 0) × ((knows submitter.old).plan ≡ None) }
    requires few { jobs < 2 ^ 32 }
    ensures own { IsOf queue.now submitter.new }
    ensures hands { (knows submitter.new).hands ≡ (knows submitter.old).hands }
{
    let told = if submit_all(rt, queue, submitter, jobs) {
        settle_all(rt, queue, submitter, jobs)
    } else {
        (0, 0, 0)
    };
    over.store(true, SeqCst);
    told
}

// Works until the jobs are told.
fn help<R: Wait>(rt: &R, queue: &Queue<Counter>, hand: &mut Hand<Counter>, over: &AtomicBool)
    requires { Serves queue.now hand.old }
    ensures { Serves queue.now hand.new }
{
    for _ in rt.forever() {
        if !queue.work_once(rt, hand) && over.load(SeqCst) {
            return;
        }
    }
    unreachable!()
}

// The same, while another hand works.
fn beside_one<R: Threads + Wait + Sync>(
    rt: &R,
    queue: &Queue<Counter>,
    submitter: &mut Submitter<Counter>,
    hand: &mut Hand<Counter>,
    jobs: u64,
    over: &AtomicBool,
) -> (u64, u64, u64)
    requires own { IsOf queue.now submitter.old × Serves queue.now hand.old }
    requires new { ((knows submitter.old).sent ≡ 0) × ((knows submitter.old).heard ≡ 0) × ((knows submitter.old).plan ≡ None) }
    requires few { jobs < 2 ^ 32 }
    ensures own { IsOf queue.now submitter.new × Serves queue.now hand.new }
    ensures hands { (knows submitter.new).hands ≡ (knows submitter.old).hands }
{
    let mut told = (0, 0, 0);
    join_mut(
        rt,
        &mut || help(rt, queue, hand, over),
        &mut || told = lead(rt, queue, submitter, jobs, over),
    );
    told
}

// The same, while two hands work.
fn beside_two<R: Threads + Wait + Sync>(
    rt: &R,
    queue: &Queue<Counter>,
    submitter: &mut Submitter<Counter>,
    one: &mut Hand<Counter>,
    two: &mut Hand<Counter>,
    jobs: u64,
) -> (u64, u64, u64)
    requires own { IsOf queue.now submitter.old × Serves queue.now one.old × Serves queue.now two.old }
    requires new { ((knows submitter.old).sent ≡ 0) × ((knows submitter.old).heard ≡ 0) × ((knows submitter.old).plan ≡ None) }
    requires few { jobs < 2 ^ 32 }
    ensures own { IsOf queue.now submitter.new × Serves queue.now one.new × Serves queue.now two.new }
    ensures hands { (knows submitter.new).hands ≡ (knows submitter.old).hands }
{
    let over = AtomicBool::new(false);
    let mut told = (0, 0, 0);
    join_mut(
        rt,
        &mut || help(rt, queue, one, &over),
        &mut ||
            requires { IsSync R.row × IsOf queue.now submitter.now × Serves queue.now two.now × ((knows submitter.now).sent ≡ 0) × ((knows submitter.now).heard ≡ 0) × ((knows submitter.now).plan ≡ None) × (jobs < 2 ^ 32) }
            ensures { IsOf queue.entry.now submitter.exit.now × Serves queue.entry.now two.exit.now × ((knows submitter.exit.now).hands ≡ (knows submitter.entry.now).hands) }
        { told = beside_one(rt, queue, submitter, two, jobs, &over) },
    );
    told
}

// What so many jobs gave, and the slot.
fn tally<R: Threads + Wait + Sync>(
    rt: &R,
    alloc: Global,
    left: u64,
    jobs: u64,
) -> Option<((u64, u64, u64), Slot<Counter>)>
    requires { jobs < 2 ^ 32 }
    ensures { IfSome result (λ it. is_some it.1.home ≡ true) }
{
    let counter = Counter {
        sum: 0,
        left,
        faults: 0,
    };
    let (queue, mut submitter) = Queue::new(alloc, counter).ok()?;
    let mut one = queue.hand(&mut submitter);
    let mut two = queue.hand(&mut submitter);
    let told = beside_two(rt, &queue, &mut submitter, &mut one, &mut two, jobs);
    queue.fold_in(&mut submitter, one);
    queue.fold_in(&mut submitter, two);
    Some((told, queue.close(submitter)))
}

// The number and the answer of one job more, once the slot was resumed; no hand works.
fn next_job<R: Wait>(rt: &R, alloc: Global, slot: Slot<Counter>) -> Option<(u64, u64)>
    requires { is_some slot.home ≡ true }
{
    if slot.submitted() >= 1 << 62 || slot.submitted() < slot.told() {
        return None;
    }
    let (queue, mut submitter) = Queue::resume(alloc, slot).ok()?;
    let answer = match queue.submit(rt, &mut submitter, 1) {
        Ok(number) => match queue.settle(rt, &mut submitter) {
            Told::Done { job: _, answer } => Some((number, answer)),
            Told::Stopped {
                job: _,
                stop: _,
                before: _,
                after: _,
            } => None,
        },
        Err(_) => None,
    };
    let _slot = queue.close(submitter);
    answer
}

#[test]
fn jobs_add_in_order(rt: HostRuntime) -> Result<(), Fail> {
    let (told, slot) = tally(&rt, rt.alloc(), 1001, 1000).ok_or("no memory")?;
    assert_eq!(rt; told, (1, 500500, 0));
    assert_eq!(rt; slot.done(), 1000);
    assert_eq!(rt; next_job(&rt, rt.alloc(), slot), Some((1000, 500501)));
    Ok(())
}

#[test]
fn a_stop_is_told_from_its_job_on(rt: HostRuntime) -> Result<(), Fail> {
    for left in 0..5u64 {
        let (told, slot) = tally(&rt, rt.alloc(), left, 5).ok_or("no memory")?;
        let first = if left == 0 { 0 } else { 1 };
        assert_eq!(rt; told, (first, left * (left + 1) / 2, 5 - left));
        assert_eq!(rt; (slot.done(), slot.halted().is_some()), (left, true));
    }
    Ok(())
}
