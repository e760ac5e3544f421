// The members of a batch.
ghost use Rattle.std.specs.Prelude.{◌≡◌};
ghost use Rattle.std.specs.FinSet as set;
ghost use Rattle.fj_batch.specs.Members.{IsNew};

use fj_job::Status;
use fj_outside::{Disk, MemorySink};
use fj_value::{Items, Text};
use std::alloc::Global;

/// A deck of a batch, with its part of the disk, what it prints, and what it is answered once it was run.
#[derive(Drop)]
pub struct Member<R, D> {
    pub name: Text,
    pub deck: R,
    pub disk: D,
    pub out: MemorySink,
    pub status: Option<Status>,
}

pub type MemberList<R, D> = Items<Member<R, D>>;

impl<R, D: Disk> Member<R, D> {
    /// One that was not begun. No file of its disk is in use.
    pub fn new(alloc: Global, name: Text, deck: R, disk: D) -> Member<R, D>
        requires { D.tells disk → (D.held disk).in_use ≡ set.empty }
        ensures new { IsNew D.tells D.held result }
        ensures parts { (result.name ≡ name) × (result.deck ≡ deck) × (result.disk ≡ disk) }
    {
        Member {
            name,
            deck,
            disk,
            out: MemorySink::new(alloc),
            status: None,
        }
    }
}
