// The files of the current folder.
ghost use Rattle.std.specs.Prelude.{◌≡◌, ◌≢◌, ◌≤◌, IfOk, IfSome, false};
ghost use Rattle.std.proofs.Common.{rules};
ghost use Rattle.std.specs.FinMap as map;
ghost use Rattle.std.specs.FinSet as set;
ghost use Rattle.fj_outside.specs.Faults.{Rose};
ghost use Rattle.fj_real.specs.RealFile.{file_size, file_count};

use crate::blocks::keep_big_blocks;
use crate::file::RealFile;
use crate::limit::file_limit;
use crate::opening::{create_file, open_file};
use crate::why::Why;
use fj_outside::{Disk, Failed, FileStore, Stop};
use std::alloc::{AllocError, Global};
use std::fs::{self, File};
use std::rt::Files;

/// A file on which a call failed, and why.
#[derive(Drop)]
pub struct Failure {
    pub name: String,
    pub why: Why,
}

/// The files of the current folder. It tells nothing.
#[derive(Drop)]
pub struct RealDisk<R> {
    rt: R,
    alloc: Global,
    faults: u64,
    /// Big blocks are used again.
    keeps_blocks: bool,
    /// The first place that no file may have.
    limit: u64,
    /// The files on which calls failed, each once, in the order in which the disk learnt of it.
    failures: Vec<Failure>,
}

/// The most files of which it is kept why a call on them failed: more than a run meets, which ends by the first that it
/// learns of, and then gives sixteen files back.
const MOST_FAILURES: usize = 40;

impl<R: Files<File = File>> RealDisk<R> {
    ghost use Rattle.fj_real.specs.RealDisk.{disk_count};

    pub fn new(alloc: Global, rt: R) -> RealDisk<R>
        ensures { disk_count result ≡ 0 }
    {
        let limit = file_limit(&rt);
        RealDisk {
            rt,
            alloc,
            faults: 0,
            keeps_blocks: false,
            limit,
            failures: Vec::new(alloc),
        }
    }

    /// The files on which calls failed, each once, in the order in which the disk learnt of it. One is missing where
    /// memory for its name was refused.
    pub fn failures(&self) -> &[Failure] {
        &self.failures
    }

    /// Keeps big blocks from the first file on. Before, the lists of a deck grow, which is sooner done where the pages of a
    /// block are moved.
    fn keep_blocks(&mut self, alloc: Global)
        ensures { disk_count self.new ≡ disk_count self.old }
    {
        if self.keeps_blocks {
            return;
        }
        self.keeps_blocks = true;
        keep_big_blocks(alloc);
    }

    /// Keeps the file and the reason, but for a file that is kept.
    fn keep(&mut self, name: &str, why: Why) -> Result<(), AllocError>
        ensures { disk_count self.new ≡ disk_count self.old }
    {
        let known = self
            .failures
            .iter()
            .any(|failure| failure.name.as_str() == name);
        if known || self.failures.len() >= MOST_FAILURES {
            return Ok(());
        }
        let name = String::from_str(self.alloc, name)?;
        self.failures.push(Failure { name, why })?;
        Ok(())
    }

    pub(crate) fn fail(&mut self, name: &str, why: Why)
        ensures later { disk_count self.old ≤ disk_count self.new }
        ensures rose { Rose (disk_count self.old) (disk_count self.new) }
    {
        self.faults = self.faults.saturating_add(1);
        let _ = self.keep(name, why);
    }
}

impl<R: Files<File = File>> Disk for RealDisk<R> {
    type File = RealFile;

    ghost tells = { λ _. ⊥ };

    ghost told = { λ _. false };

    ghost decided = { Prim.search rules };

    ghost held = { λ _. record { files = map.empty; in_use = set.empty; hurt = set.empty } };

    ghost refusals = { λ _. 0 };

    ghost count = { λ disk. disk.faults };

    fn exists(&mut self, name: &str) -> Result<bool, Failed> {
        match fs::exists(&self.rt, name) {
            Ok(there) => Ok(there),
            Err(error) => {
                self.fail(name, Why::from(error));
                Err(Failed)
            }
        }
    }

    /// A file that may only be read is there; a write to it fails. A folder, a pipe, a socket, a device and a file that
    /// may not be read are faults.
    fn take(&mut self, alloc: Global, name: &str) -> Result<Option<RealFile>, Stop> {
        self.keep_blocks(alloc);
        match open_file(&self.rt, name, self.limit) {
            Ok(file) => Ok(Some(file)),
            Err(why) if why.is_missing() => Ok(None),
            Err(why) => {
                self.fail(name, why);
                Err(Stop::Failed)
            }
        }
    }

    /// A link of that name is followed, but where the name is a scratch file's.
    fn create(&mut self, alloc: Global, name: &str) -> Result<RealFile, Stop> {
        self.keep_blocks(alloc);
        match create_file(&self.rt, name, self.limit) {
            Ok(file) => Ok(file),
            Err(why) => {
                self.fail(name, why);
                Err(Stop::Failed)
            }
        }
    }

    fn give(&mut self, name: &str, file: RealFile) {
        if file.faults() != 0 {
            self.fail(name, file.why().unwrap_or(Why::Shorter));
        }
    }

    fn remove(&mut self, name: &str) -> Result<(), Failed> {
        match fs::remove_file(&self.rt, name) {
            Ok(()) => Ok(()),
            Err(error) => {
                self.fail(name, Why::from(error));
                Err(Failed)
            }
        }
    }

    fn faults(&self) -> u64 {
        self.faults
    }
}
