// The top call: from the words and the text of a deck to its report and its files.
ghost use Rattle.std.specs.Prelude.{◌≡◌, Some, map, string_bytes};
ghost use Rattle.std.specs.FinSet as set;
ghost use Rattle.fj_report.specs.Words.{polled_by};
ghost use Rattle.fj_poll.specs.Answers.{HasPolled};

use crate::execution::execute_polled;
use crate::usage::refuse_words;
use fj_job::{Asked, Status, Task, answer};
use fj_outside::{Disk, Sink, Source};
use fj_report::read_poll;
use std::alloc::Global;
use std::sync::Wait;
use std::thread::Threads;

/// Runs a deck with so many workers, with looks.
fn poll_with<Rt: Threads + Wait + Sync, R: Source, W: Sink + Send, D: Disk + Send>(
    rt: &Rt,
    alloc: Global,
    workers: u32,
    deck: &mut R,
    out: &mut W,
    disk: &mut D,
) -> Status
where
    D::File: Send,
    requires { D.tells disk.old → (D.held disk.old).in_use ≡ set.empty }
    ensures { HasPolled R.tells R.left R.count W.tells W.taken W.count D.tells D.held D.count D.refusals (Some workers)
        deck.old out.old disk.old result deck.new out.new disk.new }
{
    let task = Task::Execute {
        workers,
        trace: false,
    };
    match answer(alloc, task, deck, out) {
        Asked::Answered(status) => status,
        Asked::Deck {
            deck,
            workers,
            trace: _,
        } => execute_polled(rt, alloc, workers, deck, out, disk),
    }
}

/// Runs a deck with so many threads beside the calling one as the words ask for, as `run_job` does and with its answers, but that
/// INQUIRE with PENDING= (ISO/IEC 1539-1:2004, 9.9.1) is answered by what they have done by then: false, after it waited for them,
/// where all transfers that it asks about are done, and else true. The report has a line for each such look. Which looks come is
/// not promised.
pub fn poll_job<Rt: Threads + Wait + Sync, R: Source, W: Sink + Send, D: Disk + Send>(
    rt: &Rt,
    alloc: Global,
    words: &[String],
    deck: &mut R,
    out: &mut W,
    disk: &mut D,
) -> Status
where
    D::File: Send,
    requires { D.tells disk.old → (D.held disk.old).in_use ≡ set.empty }
    ensures { HasPolled R.tells R.left R.count W.tells W.taken W.count D.tells D.held D.count D.refusals (polled_by (map string_bytes words.now))
        deck.old out.old disk.old result deck.new out.new disk.new }
{
    match read_poll(alloc, words) {
        Err(_) => Status::Memory,
        Ok(None) => refuse_words(out),
        Ok(Some(workers)) => poll_with(rt, alloc, workers, deck, out, disk),
    }
}
