// Batches of decks: each is a file of the current folder, and has those of its files whose names begin with its own.
ghost use Rattle.std.specs.Prelude.{All, IfOk};
ghost use Rattle.std.specs.FinMap as map;
ghost use Rattle.std.specs.FinSet as set;
ghost use Rattle.fj_batch.specs.Members.{IsNew};

use crate::help::PAGE;
use fj_batch::{BatchStatus, Hears, Member, MemberList, member_names, run_batch};
use fj_exit::exit_status;
use fj_poll::Status;
use fj_real::{FileSource, PartDisk, RealOutput, RealSink};
use fj_value::Text;
use std::alloc::{AllocError, Global};
use std::io::{Result as Outcome, Write};
use std::process::ExitCode;
use std::sync::Wait;
use std::thread::Threads;

/// Whether the words ask for a batch, rightly or not.
pub fn is_batch(words: &[String]) -> bool {
    match words.first() {
        Some(word) => word.as_str() == "batch",
        None => false,
    }
}

/// A deck of the current folder and its part of the files.
fn member_of(
    rt: &HostRuntime,
    name: &str,
) -> Result<Member<FileSource<HostRuntime>, PartDisk<HostRuntime>>, AllocError>
    ensures { IfOk result (IsNew (λ _. ⊥) (λ _. record { files = map.empty; in_use = set.empty; hurt = set.empty })) }
{
    let alloc: Global = rt.alloc();
    let file = format!(in alloc; "{name}.deck")?;
    let prefix = format!(in alloc; "{name}-")?;
    let deck = FileSource::new(rt.clone()?, file);
    let disk = PartDisk::new(rt.clone()?, alloc, &prefix)?;
    let name = Text::from_bytes(alloc, name.as_bytes())?;
    Ok(Member::new(alloc, name, deck, disk))
}

/// The members that words name, in order; none where the words are no form.
fn members_of(
    rt: &HostRuntime,
    words: &[String],
) -> Result<MemberList<FileSource<HostRuntime>, PartDisk<HostRuntime>>, AllocError>
    ensures { IfOk result (All (IsNew (λ _. ⊥) (λ _. record { files = map.empty; in_use = set.empty; hurt = set.empty }))) }
{
    let mut members = MemberList::new(rt.alloc());
    if let Some(names) = member_names(words) {
        'naming: for name in names {
            members.push(member_of(rt, name.as_str())?)?;
        }
    }
    Ok(members)
}

/// How a member ended, in words.
fn status_words(status: Option<Status>) -> &'static str {
    match status {
        None => "was not begun",
        Some(Status::Ended) => "ended",
        Some(Status::ErrorStop { .. }) => "stopped by an error",
        Some(Status::Prohibited { .. }) => "did what a program may not",
        Some(Status::DeckRefused { .. }) => "is no deck",
        Some(Status::Usage) => "was asked for by words that are no form",
        Some(Status::ReadFault) => "could not be read",
        Some(Status::WriteFault) => "could not be printed",
        Some(Status::DiskFault { .. }) =>
            "met a file that could not be opened, read, written or removed",
        Some(Status::Memory) => "was given up: memory was refused",
    }
}

/// Standard error, on which a line tells of each member as it ends.
#[derive(Drop)]
struct Told<'a> {
    rt: &'a HostRuntime,
}

impl<'a> Hears for Told<'a> {
    fn ended(&self, name: &[u8], status: Status) {
        let _ = tell_member(&mut self.rt.stderr(), name, Some(status));
    }
}

/// A line for a member, with its name and how it ended.
fn tell_member<W: Write>(err: &mut W, name: &[u8], status: Option<Status>) -> Outcome<()> {
    err.write_all(b"fjob: ")?;
    err.write_all(name)?;
    writeln!(err, ": {}", status_words(status))
}

/// A line for each member that was not begun.
fn tell_unbegun<W: Write, R, D>(err: &mut W, members: &[Member<R, D>]) -> Outcome<()> {
    for member in members {
        if member.status.is_none() {
            tell_member(err, member.name.bytes(), None)?;
        }
    }
    Ok(())
}

/// Tells a person how a batch ended.
fn tell_batch<W: Write, R, D>(
    err: &mut W,
    status: BatchStatus,
    members: &[Member<R, D>],
) -> Outcome<()> {
    tell_unbegun(err, members)?;
    match status {
        BatchStatus::Ran { .. } => Ok(()),
        BatchStatus::Usage => write!(
            err,
            "fjob: batch needs 1 to 64 names of 1 to 16 letters or digits, no name twice, behind \"--workers\" and a number from 0 to 4 \
             where that is given\n\n{PAGE}"
        ),
        BatchStatus::WriteFault => writeln!(err, "fjob: standard output could not be written"),
        BatchStatus::Memory => writeln!(err, "fjob: memory was refused; the batch was given up"),
    }
}

/// With which status a batch ends.
fn batch_exit(status: BatchStatus) -> u8 {
    match status {
        BatchStatus::Ran { exit } => exit,
        BatchStatus::Usage => exit_status(Status::Usage),
        BatchStatus::WriteFault => exit_status(Status::WriteFault),
        BatchStatus::Memory => exit_status(Status::Memory),
    }
}

/// Runs a batch, and tells a person on standard error how each member ended. The threads are those of a handle of its own: the runtime has none outside
/// `main`.
pub fn batch<Rt: Threads + Wait + Sync>(
    threads: &Rt,
    rt: &HostRuntime,
    words: &[String],
) -> Result<ExitCode, AllocError> {
    let mut members = members_of(rt, words)?;
    let mut out = RealSink::new(RealOutput::new(rt.clone()?, rt.stdout()));
    let heard = Told { rt };
    let status = run_batch(threads, rt.alloc(), words, &mut members, &mut out, &heard);
    let _ = tell_batch(&mut rt.stderr(), status, members.as_slice());
    Ok(ExitCode::from(batch_exit(status)))
}
