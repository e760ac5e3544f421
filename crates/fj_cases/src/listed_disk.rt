// A disk in memory that knows under which names files may lie.
ghost use Rattle.std.specs.Prelude.{◌≡◌, OnOk, OnErr, true, refl};
ghost use Rattle.std.specs.FinMap as map;
ghost use Rattle.std.specs.FinSet as set;
ghost use Rattle.fj_outside.specs.Holdings.{IsFree};

use fj_outside::{Disk, Failed, MemoryDisk, MemoryFile, Stop};
use std::alloc::{AllocError, Global};

/// A disk in memory, with the names under which a file was made.
#[derive(Drop)]
pub struct ListedDisk {
    disk: MemoryDisk,
    made: Vec<String>,
}

impl ListedDisk {
    ghost use Rattle.fj_cases.specs.ListedDisk.{disk_held};

    pub fn new(alloc: Global) -> ListedDisk
        ensures { (disk_held result).in_use ≡ set.empty }
    {
        ListedDisk {
            disk: MemoryDisk::new(alloc),
            made: Vec::new(alloc),
        }
    }

    /// Puts a file at home.
    pub fn add_file(&mut self, alloc: Global, name: &str, bytes: &[u8]) -> Result<(), AllocError>
        requires { IsFree (disk_held self.old) name.now }
        ensures { (disk_held self.new).in_use ≡ (disk_held self.old).in_use }
    {
        self.made.push(String::from_str(alloc, name)?)?;
        self.disk.add_file(name, bytes)
    }

    /// The names under which a file was put or made. There is none under any other.
    pub fn names(&self) -> &[String] {
        &self.made
    }

    /// The bytes of a file that is at home.
    pub fn bytes_of(&self, name: &str) -> Option<&[u8]> {
        self.disk.bytes_of(name)
    }
}

impl Disk for ListedDisk {
    ghost use Rattle.fj_cases.specs.ListedDisk.{disk_held};

    type File = MemoryFile;

    ghost tells = { λ _. Unit {0} };

    ghost told = { λ _. true };

    ghost decided = { λ _. (λ _. tt, λ _. refl) };

    ghost held = { disk_held };

    ghost refusals = { λ _. 0 };

    ghost count = { λ _. 0 };

    fn exists(&mut self, name: &str) -> Result<bool, Failed> {
        self.disk.exists(name)
    }

    fn take(&mut self, alloc: Global, name: &str) -> Result<Option<MemoryFile>, Stop> {
        self.disk.take(alloc, name)
    }

    fn create(&mut self, alloc: Global, name: &str) -> Result<MemoryFile, Stop> {
        let own = match String::from_str(alloc, name) {
            Ok(own) => own,
            Err(e) => return Err(Stop::Memory(e)),
        };
        if self.made.push(own).is_err() {
            return Err(Stop::Memory(AllocError));
        }
        self.disk.create(alloc, name)
    }

    fn give(&mut self, name: &str, file: MemoryFile) {
        self.disk.give(name, file);
    }

    fn remove(&mut self, name: &str) -> Result<(), Failed> {
        self.disk.remove(name)
    }

    fn faults(&self) -> u64 {
        0
    }
}
