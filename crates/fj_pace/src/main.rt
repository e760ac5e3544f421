//! What a job costs that is submitted and settled.
//! With the word `times` it prints the least time of some runs for each job, and else the last sum of one run of each kind.
#![tactic(auto)]

ghost use Rattle.std.specs.Prelude.{◌<◌, ◌≤◌, ◌^◌};

mod asker;
mod counter;
mod crew;
mod queue;
mod slots;

use crate::crew::on_crew;
use crate::queue::on_queue;
use crate::slots::{on_four_slots, on_slot};
use std::alloc::Global;
use std::sync::Wait;
use std::thread::Threads;
use std::time::{Clock, Instant};
use std::{env, fmt};

/// How many runs of each kind are timed.
const RUNS: u32 = 9;

/// On what the jobs are performed.
#[derive(Clone, Copy)]
enum On {
    Slot,
    FourSlots,
    Queue,
    /// The first of two queues or both, and so many workers.
    Crew(bool, u32),
}

// The last sum of so many jobs, of which so many are ahead of their answers.
fn last_sum<R: Threads + Wait + Sync>(
    rt: &R,
    alloc: Global,
    on: On,
    jobs: u32,
    ahead: u32,
) -> Option<u64>
    requires { (0 < ahead) × (ahead ≤ 100000) × (jobs ≤ 1000000) }
{
    let times = (jobs / ahead) as u64;
    match on {
        On::Slot => on_slot(alloc, times, ahead as u64),
        On::FourSlots => on_four_slots(alloc, times / 4, ahead as u64),
        On::Queue => on_queue(rt, alloc, times, ahead as u64),
        On::Crew(both, workers) => on_crew(rt, alloc, jobs as u64, ahead as u64, both, workers),
    }
}

impl fmt::Display for On {
    fn fmt<W: fmt::Write>(&self, f: &mut fmt::Formatter<W>) -> fmt::Result {
        match self {
            On::Slot => f.write_str("a slot"),
            On::FourSlots => f.write_str("four slots"),
            On::Queue => f.write_str("a queue"),
            On::Crew(false, workers) => write!(f, "one of two queues, {workers} workers"),
            On::Crew(true, workers) => write!(f, "two queues, {workers} workers"),
        }
    }
}

const KINDS: [On; 11] = [
    On::Slot,
    On::FourSlots,
    On::Queue,
    On::Crew(false, 0),
    On::Crew(true, 0),
    On::Crew(false, 1),
    On::Crew(true, 1),
    On::Crew(false, 4),
    On::Crew(true, 4),
    On::Crew(false, 64),
    On::Crew(true, 64),
];

// The least time for a job, in tenths of nanoseconds.
fn least_time<R: Threads + Wait + Sync + Clock>(
    rt: &R,
    alloc: Global,
    on: On,
    ahead: u32,
) -> Result<u128, anyhow::Error>
    requires { (0 < ahead) × (ahead ≤ 100000) }
{
    let mut least = u128::MAX;
    for _ in 0..RUNS {
        let start = Instant::now(rt)?;
        let _sum = last_sum(rt, alloc, on, 400_000, ahead);
        least = least.min(start.elapsed(rt)?.as_nanos() / 40_000);
    }
    Ok(least)
}

fn main(rt: HostRuntime) -> Result<(), anyhow::Error> {
    let timed = env::args(&rt)?.skip(1).any(|word| word.as_str() == "times");
    for on in KINDS {
        if !timed {
            let sum = last_sum(&rt, rt.alloc(), on, 1000, 10);
            println!(rt; "{on}: {}", sum.unwrap_or(0))?;
            continue;
        }
        for ahead in [1u32, 16, 100_000] {
            let least = least_time(&rt, rt.alloc(), on, ahead)?;
            println!(rt; "{on}, {ahead} ahead: {}.{} ns", least / 10, least % 10)?;
        }
    }
    Ok(())
}
