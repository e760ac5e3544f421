// Members are run, each by itself.
ghost use Rattle.std.specs.Prelude.{◌≡◌, ◌≤◌, All, IfOk, string_bytes};
ghost use Rattle.std.specs.Prelude.{map as list_map};
ghost use Rattle.fj_batch.specs.Members.{EachBecomes, IsNew, HasCome};
ghost use Rattle.fj_batch.specs.Words.{run_words};
ghost use Rattle.fj_job.specs.Seen.{seen, on_disk};
ghost use denote.Param.Send.{IsSync, IsSend};

use crate::hearer::Hears;
use crate::member::{Member, MemberList};
use crate::words::MOST_MEMBERS;
use fj_job::run_job;
use fj_outside::{Disk, Source};
use itoa::Buffer;
use std::alloc::{AllocError, Global};
use std::mem;
use std::sync::Wait;
use std::thread::{self, Threads};

/// How each member is run: with so many workers beside.
#[derive(Drop)]
pub(crate) struct Serving {
    alloc: Global,
    workers: u32,
    words: Vec<String>,
    ghost few: { workers ≤ 4 },
    ghost asking: { list_map string_bytes words.items ≡ run_words workers },
}

/// The words by which a deck is run.
fn run_words(alloc: Global, workers: u32) -> Result<Vec<String>, AllocError>
    requires { workers ≤ 4 }
    ensures { IfOk result (λ words. list_map string_bytes words.items ≡ run_words workers) }
{
    let mut buffer = Buffer::new();
    let mut words = Vec::new(alloc);
    words.push(String::from_str(alloc, "run")?)?;
    words.push(String::from_str(alloc, "--workers")?)?;
    words.push(String::from_str(alloc, buffer.format(workers))?)?;
    Ok(words)
}

impl Serving {
    pub(crate) fn new(alloc: Global, workers: u32) -> Result<Serving, AllocError>
        requires { workers ≤ 4 }
        ensures { IfOk result (λ serving. serving.workers ≡ workers) }
    {
        let words = run_words(alloc, workers)?;
        Ok(Serving {
            alloc,
            workers,
            words,
        })
    }
}

/// Runs a member, which gets its status.
fn serve<Rt: Threads + Wait + Sync, R: Source + Send, D: Disk + Send, H: Hears>(
    rt: &Rt,
    serving: &Serving,
    heard: &H,
    member: &mut Member<R, D>,
)
where
    D::File: Send,
    requires { IsNew D.tells D.held member.old }
    ensures { HasCome serving.now.workers member.old member.new (seen R.tells R.left R.count member.old.deck member.new.deck)
        (seen D.tells (on_disk D.held D.refusals) D.count member.old.disk member.new.disk) }
{
    let status = run_job(
        rt,
        serving.alloc,
        &serving.words,
        &mut member.deck,
        &mut member.out,
        &mut member.disk,
    );
    member.status = Some(status);
    heard.ended(member.name.bytes(), status);
}

/// Runs members, each on a thread of its own.
fn serve_each<Rt: Threads + Wait + Sync, R: Source + Send, D: Disk + Send, H: Hears + Sync>(
    rt: &Rt,
    serving: &Serving,
    heard: &H,
    members: &mut [Member<R, D>],
)
where
    D::File: Send,
    requires { All (IsNew D.tells D.held) members.old }
    ensures { EachBecomes (λ old new. HasCome serving.now.workers old new (seen R.tells R.left R.count old.deck new.deck)
        (seen D.tells (on_disk D.held D.refusals) D.count old.disk new.disk)) members.old members.new }
{
    thread::for_each_mut(
        rt,
        members,
        MOST_MEMBERS,
        &|_, member|
            requires { IsSync Rt.row × IsSync H.row × IsSend R.row × IsSend D.row × IsSend D.File.row × IsNew D.tells D.held member.now }
            ensures { HasCome serving.entry.now.workers member.entry.now member.exit.now (seen R.tells R.left R.count member.entry.now.deck member.exit.now.deck)
                (seen D.tells (on_disk D.held D.refusals) D.count member.entry.now.disk member.exit.now.disk) }
        { serve(rt, serving, heard, member) },
    );
}

/// The same of those of a `Vec`.
fn serve_vec<Rt: Threads + Wait + Sync, R: Source + Send, D: Disk + Send, H: Hears + Sync>(
    rt: &Rt,
    serving: &Serving,
    heard: &H,
    members: &mut Vec<Member<R, D>>,
)
where
    D::File: Send,
    requires { All (IsNew D.tells D.held) members.old.items }
    ensures { EachBecomes (λ old new. HasCome serving.now.workers old new (seen R.tells R.left R.count old.deck new.deck)
        (seen D.tells (on_disk D.held D.refusals) D.count old.disk new.disk)) members.old.items members.new.items }
{
    serve_each(rt, serving, heard, members.as_mut_slice());
}

/// Runs the members of a batch. Takes no memory of its own.
pub(crate) fn serve_members<
    Rt: Threads + Wait + Sync,
    R: Source + Send,
    D: Disk + Send,
    H: Hears + Sync,
>(rt: &Rt, serving: &Serving, heard: &H, members: &mut MemberList<R, D>)
where
    D::File: Send,
    requires { All (IsNew D.tells D.held) members.old }
    ensures { EachBecomes (λ old new. HasCome serving.now.workers old new (seen R.tells R.left R.count old.deck new.deck)
        (seen D.tells (on_disk D.held D.refusals) D.count old.disk new.disk)) members.old members.new }
{
    let mut list = mem::replace(members, MemberList::new(serving.alloc)).into_vec();
    serve_vec(rt, serving, heard, &mut list);
    let empty = mem::replace(members, MemberList::from_vec(list));
    empty.into_vec().destroy_empty();
}
