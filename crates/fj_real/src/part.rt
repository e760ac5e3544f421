// The files of one part of the current folder.
ghost use Rattle.std.specs.Prelude.{◌≡◌, ◌++◌, ◌≤◌, IfOk, OnOk, OnErr, IsTrue, false, string_bytes};
ghost use Rattle.std.proofs.Common.{rules};
ghost use Rattle.std.specs.FinMap as map;
ghost use Rattle.std.specs.FinSet as set;
ghost use Rattle.fj_outside.specs.Faults.{Rose};

use crate::disk::RealDisk;
use crate::file::RealFile;
use crate::why::Why;
use fj_outside::{Disk, Failed, Stop};
use std::alloc::{AllocError, Global};
use std::fs::File;
use std::rt::Files;

/// The greatest length of a path on Linux, with the NUL behind it.
const MOST: usize = 4096;

/// The files of the current folder whose names begin with a prefix, under what stands behind it. It tells nothing.
#[derive(Drop)]
pub struct PartDisk<R> {
    disk: RealDisk<R>,
    prefix: String,
    /// Where a name is joined to the prefix. It has room for the longest path, so that joining takes no memory.
    joined: String,
}

/// Joins a name to a prefix, in place; answers whether it is short enough.
fn join(joined: &mut String, prefix: &str, name: &str) -> bool
    ensures { IsTrue result → string_bytes joined.new ≡ prefix.now ++ name.now }
{
    joined.clear();
    name.len() <= MOST && joined.push_str(prefix).is_ok() && joined.push_str(name).is_ok()
}

impl<R: Files<File = File> + Drop> PartDisk<R> {
    ghost use Rattle.fj_real.specs.PartDisk.{part_prefix, part_count};

    /// The files whose names begin with this prefix.
    pub fn new(rt: R, alloc: Global, prefix: &str) -> Result<PartDisk<R>, AllocError>
        ensures prefix { IfOk result (λ disk. part_prefix disk ≡ prefix.now) }
        ensures count { IfOk result (λ disk. part_count disk ≡ 0) }
    {
        let prefix = String::from_str(alloc, prefix)?;
        let mut joined = String::new(alloc);
        joined.reserve(prefix.len().saturating_add(MOST))?;
        Ok(PartDisk {
            disk: RealDisk::new(alloc, rt),
            prefix,
            joined,
        })
    }
}

impl<R: Files<File = File>> PartDisk<R> {
    ghost use Rattle.fj_real.specs.PartDisk.{part_prefix, part_joined, part_count};

    /// Has the whole name of a file at hand. A name that is too long is a fault.
    fn whole_name(&mut self, name: &str) -> Result<(), Failed>
        ensures ok { OnOk result ((part_joined self.new ≡ part_prefix self.old ++ name.now) × (part_count self.new ≡ part_count self.old)) }
        ensures prefix { part_prefix self.new ≡ part_prefix self.old }
        ensures later { part_count self.old ≤ part_count self.new }
        ensures failed { OnErr result (Rose (part_count self.old) (part_count self.new)) }
    {
        if join(&mut self.joined, &self.prefix, name) {
            return Ok(());
        }
        self.disk.fail(name, Why::NameTooLong);
        Err(Failed)
    }
}

impl<R: Files<File = File>> Disk for PartDisk<R> {
    ghost use Rattle.fj_real.specs.PartDisk.{part_count};

    type File = RealFile;

    ghost tells = { λ _. ⊥ };

    ghost told = { λ _. false };

    ghost decided = { Prim.search rules };

    ghost held = { λ _. record { files = map.empty; in_use = set.empty; hurt = set.empty } };

    ghost refusals = { λ _. 0 };

    ghost count = { part_count };

    fn exists(&mut self, name: &str) -> Result<bool, Failed> {
        self.whole_name(name)?;
        self.disk.exists(&self.joined)
    }

    fn take(&mut self, alloc: Global, name: &str) -> Result<Option<RealFile>, Stop> {
        self.whole_name(name)?;
        self.disk.take(alloc, &self.joined)
    }

    fn create(&mut self, alloc: Global, name: &str) -> Result<RealFile, Stop> {
        self.whole_name(name)?;
        self.disk.create(alloc, &self.joined)
    }

    fn give(&mut self, name: &str, file: RealFile) {
        self.disk.give(name, file);
    }

    fn remove(&mut self, name: &str) -> Result<(), Failed> {
        self.whole_name(name)?;
        self.disk.remove(&self.joined)
    }

    fn faults(&self) -> u64 {
        self.disk.faults()
    }
}
