// What words ask for is carried out.
ghost use Rattle.std.specs.Prelude.{◌≡◌};
ghost use Rattle.std.specs.FinSet as set;

use fj_outside::{Disk, Sink, Source};
use fj_poll::{Status, poll_job, run_job};
use std::alloc::Global;
use std::sync::Wait;
use std::thread::Threads;

/// Whether the words ask for a run with looks, rightly or not.
fn is_poll(words: &[String]) -> bool {
    match words.first() {
        Some(word) => word.as_str() == "poll",
        None => false,
    }
}

/// Does with a deck what the words ask for.
pub fn carry_out<Rt: Threads + Wait + Sync, R: Source, W: Sink + Send, D: Disk + Send>(
    rt: &Rt,
    alloc: Global,
    words: &[String],
    deck: &mut R,
    out: &mut W,
    disk: &mut D,
) -> Status
where
    D::File: Send,
    requires { D.tells disk.old → (D.held disk.old).in_use ≡ set.empty }
{
    if is_poll(words) {
        poll_job(rt, alloc, words, deck, out, disk)
    } else {
        run_job(rt, alloc, words, deck, out, disk)
    }
}
