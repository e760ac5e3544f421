// Batches of decks.
ghost use Rattle.std.specs.Prelude.{◌≡◌, ◌≢◌, ◌≤◌, ◌⊎◌, ◌↔◌, All, string_bytes};
ghost use Rattle.std.specs.Prelude.{map as list_map};
ghost use Rattle.fj_outside.specs.Faults.{Rose};
ghost use Rattle.fj_job.specs.Seen.{seen, on_disk};
ghost use Rattle.fj_batch.specs.Words.{workers_for};
ghost use Rattle.fj_batch.specs.Bytes.{usage_text, batch_text};
ghost use Rattle.fj_batch.specs.Members.{EachBecomes, IsNew, HasCome, names_of, greatest_exit};
ghost use Rattle.fj_batch.specs.Answers.{IsServed, IsAnswered, Took, due};

use crate::hearer::Hears;
use crate::member::{Member, MemberList};
use crate::report::{batch_text, greatest_exit, usage};
use crate::runs::{Serving, serve_members};
use crate::words::workers_for;
use fj_outside::{Disk, Sink, Source};
use fj_run_items::{Lost, put_all};
use std::alloc::Global;
use std::sync::Wait;
use std::thread::Threads;

/// How a batch ends.
#[derive(Clone, Copy, PartialEq, Eq)]
pub enum BatchStatus {
    /// Its members were run. `exit` is the greatest of their exit statuses.
    Ran { exit: u8 },
    /// The words are no form, or do not name the members.
    Usage,
    /// The sink failed.
    WriteFault,
    /// A growth was refused.
    Memory,
}

/// The answer where a sink did not take all of a text.
fn not_taken(lost: Lost) -> BatchStatus
    ensures sink { result ≡ BatchStatus.WriteFault → lost ≡ Lost.Sink }
    ensures which { (result ≡ BatchStatus.WriteFault) ⊎ (result ≡ BatchStatus.Memory) }
{
    match lost {
        Lost::Sink => BatchStatus::WriteFault,
        _ => BatchStatus::Memory,
    }
}

/// Writes a text; the answer is the one given where the sink took all of it.
fn write_for<W: Sink>(out: &mut W, text: &[u8], answer: BatchStatus) -> BatchStatus
    requires { (answer ≢ BatchStatus.WriteFault) × (answer ≢ BatchStatus.Memory) }
    ensures answer { (result ≡ answer) ⊎ ((result ≡ BatchStatus.WriteFault) ⊎ (result ≡ BatchStatus.Memory)) }
    ensures output { W.tells out.old → Took result (W.taken out.old) (W.taken out.new) text.now }
    ensures cause { result ≡ BatchStatus.WriteFault → Rose (W.count out.old) (W.count out.new) }
    ensures goes_on { (W.tells out.old ↔ W.tells out.new) × (W.count out.old ≤ W.count out.new) }
{
    match put_all(out, text) {
        Ok(()) => answer,
        Err(lost) => not_taken(lost),
    }
}

/// Prints what the members printed, and answers for them.
fn conclude<R, D, W: Sink>(alloc: Global, members: &[Member<R, D>], out: &mut W) -> BatchStatus
    ensures answer { (result ≡ BatchStatus.Ran (greatest_exit members.now)) ⊎ ((result ≡ BatchStatus.WriteFault) ⊎ (result ≡ BatchStatus.Memory)) }
    ensures output { W.tells out.old → Took result (W.taken out.old) (W.taken out.new) (batch_text members.now) }
    ensures cause { result ≡ BatchStatus.WriteFault → Rose (W.count out.old) (W.count out.new) }
    ensures goes_on { (W.tells out.old ↔ W.tells out.new) × (W.count out.old ≤ W.count out.new) }
{
    let exit = greatest_exit(members);
    match batch_text(alloc, members) {
        Ok(text) => write_for(out, text.bytes(), BatchStatus::Ran { exit }),
        Err(_) => BatchStatus::Memory,
    }
}

/// Runs the members of a batch, each by itself on a thread of its own, as the words ask for. Then it prints what each of them
/// printed after its name, in order, and how many ended. `heard` is told of each member as it ends, on that member's thread.
/// `Usage` comes for words that do not fit, and no member is run then; `WriteFault` comes where the sink failed; after `Memory` all
/// members were run or none.
pub fn run_batch<
    Rt: Threads + Wait + Sync,
    R: Source + Send,
    W: Sink,
    D: Disk + Send,
    H: Hears + Sync,
>(
    rt: &Rt,
    alloc: Global,
    words: &[String],
    members: &mut MemberList<R, D>,
    out: &mut W,
    heard: &H,
) -> BatchStatus
where
    D::File: Send,
    requires { All (IsNew D.tells D.held) members.old }
    ensures members { IsServed (workers_for (list_map string_bytes words.now) (names_of members.old)) result
        (λ workers. EachBecomes (λ old new. HasCome workers old new (seen R.tells R.left R.count old.deck new.deck)
        (seen D.tells (on_disk D.held D.refusals) D.count old.disk new.disk)) members.old members.new) (members.new ≡ members.old) }
    ensures answer { IsAnswered (workers_for (list_map string_bytes words.now) (names_of members.old)) result (greatest_exit members.new) }
    ensures output { W.tells out.old → Took result (W.taken out.old) (W.taken out.new) (due (workers_for (list_map string_bytes words.now) (names_of members.old)) members.new) }
    ensures cause { result ≡ BatchStatus.WriteFault → Rose (W.count out.old) (W.count out.new) }
    ensures goes_on { (W.tells out.old ↔ W.tells out.new) × (W.count out.old ≤ W.count out.new) }
{
    let Some(workers) = workers_for(words, members.as_slice()) else {
        return write_for(out, usage(), BatchStatus::Usage);
    };
    let Ok(serving) = Serving::new(alloc, workers) else {
        return BatchStatus::Memory;
    };
    serve_members(rt, &serving, heard, members);
    conclude(alloc, members.as_slice(), out)
}
