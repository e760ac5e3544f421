// The top calls: from the words and the text of a deck to its report and its files.
ghost use Rattle.std.specs.Prelude.{◌≡◌};
ghost use Rattle.std.specs.FinSet as set;
ghost use Rattle.fj_job.specs.Answers.{HasRun};
ghost use Rattle.fj_job.specs.Seen.{seen, on_disk};
ghost use Rattle.fj_job.specs.Task.{asked, asked_alone};

use crate::asked::{Asked, answer};
use crate::ending::{execute, execute_with};
use crate::task::{alone_task, task_of};
use fj_outside::{Disk, Sink, Source};
use fj_report::{Status, read_words};
use std::alloc::Global;
use std::sync::Wait;
use std::thread::Threads;

/// Runs, checks or makes a deck on one thread; `run` is no form here. Words that are no form are `Usage`, and a text that is no
/// deck `DeckRefused`; a deck that is carried out comes to `Ended`, `ErrorStop` or `Prohibited`. `ReadFault` is of the source,
/// `WriteFault` of the sink, `DiskFault` of the disk and its files, each only where one of these failed; `Memory` is want of
/// memory. `stmt` of a fault is the line of the statement at hand.
pub fn alone_job<R: Source, W: Sink, D: Disk>(
    alloc: Global,
    words: &[String],
    deck: &mut R,
    out: &mut W,
    disk: &mut D,
) -> Status
    requires { D.tells disk.old → (D.held disk.old).in_use ≡ set.empty }
    ensures { HasRun (asked_alone words.now) result (seen R.tells R.left R.count deck.old deck.new) (seen W.tells W.taken W.count out.old out.new)
        (seen D.tells (on_disk D.held D.refusals) D.count disk.old disk.new) }
{
    let Ok(form) = read_words(alloc, words) else {
        return Status::Memory;
    };
    match answer(alloc, alone_task(form), deck, out) {
        Asked::Answered(status) => status,
        Asked::Deck {
            deck,
            workers: _,
            trace,
        } => execute(alloc, deck, trace, out, disk),
    }
}

/// Runs a deck with so many threads beside the calling one as the words ask for, or does what `alone_job` does with the other
/// words; the answers are the same. For every number of them and every order of their steps it answers, prints and leaves the same.
pub fn run_job<Rt: Threads + Wait + Sync, R: Source, W: Sink + Send, D: Disk + Send>(
    rt: &Rt,
    alloc: Global,
    words: &[String],
    deck: &mut R,
    out: &mut W,
    disk: &mut D,
) -> Status
where
    D::File: Send,
    requires { D.tells disk.old → (D.held disk.old).in_use ≡ set.empty }
    ensures { HasRun (asked words.now) result (seen R.tells R.left R.count deck.old deck.new) (seen W.tells W.taken W.count out.old out.new)
        (seen D.tells (on_disk D.held D.refusals) D.count disk.old disk.new) }
{
    let Ok(form) = read_words(alloc, words) else {
        return Status::Memory;
    };
    match answer(alloc, task_of(form), deck, out) {
        Asked::Answered(status) => status,
        Asked::Deck {
            deck,
            workers,
            trace,
        } => execute_with(rt, alloc, workers, deck, trace, out, disk),
    }
}
