// A disk in memory.
ghost use Rattle.std.specs.Prelude.{◌≡◌, List, ℕ, OnOk, OnErr, true, refl};
ghost use Rattle.std.specs.Option.{option_copied};
ghost use Rattle.std.specs.FinMap as map;
ghost use Rattle.std.specs.FinSet as set;
ghost use Rattle.fj_outside.specs.Holdings.{Holdings, IsFree};

use crate::errors::{Failed, Stop};
use crate::memory_file::MemoryFile;
use crate::outside::Disk;
use crate::table::{
    Table, add_home, give_home, home_file, is_there, make_out, remove_home, take_home,
};
use std::alloc::{AllocError, Global};
use std::collections::BTreeMap;
use std::marker::Model;

/// Files in memory by name, seen as what they hold. It has no faults.
#[derive(Drop)]
pub struct MemoryDisk {
    alloc: Global,
    table: Table,
}

impl Model for MemoryDisk {
    ghost use Rattle.fj_outside.specs.Holdings.{Holdings, holdings_code};

    ghost Value = { Holdings };

    ghost coded = { holdings_code };

    ghost use Rattle.fj_outside.specs.Table.{held_of};

    ghost view = { λ d. held_of d.table.entries };
}

impl MemoryDisk {
    ghost use Rattle.fj_outside.specs.Table.{held_of};

    pub fn new(alloc: Global) -> MemoryDisk
        ensures files { result.files ≡ map.empty }
        ensures in_use { result.in_use ≡ set.empty }
        ensures hurt { result.hurt ≡ set.empty }
    {
        MemoryDisk {
            alloc,
            table: BTreeMap::new(alloc),
        }
    }

    /// Puts or replaces a file at home. Want of memory changes nothing.
    pub fn add_file(&mut self, name: &str, bytes: &[u8]) -> Result<(), AllocError>
        requires { IsFree self.old name.now }
        ensures ok { OnOk result (self.new ≡ record self.old { files = map.insert self.old.files name.now bytes.now }) }
        ensures err { OnErr result (self.new ≡ self.old) }
    {
        let file = MemoryFile::from_bytes(self.alloc, bytes)?;
        add_home(self.alloc, &mut self.table, name, file)
    }

    /// What stands under each name.
    pub(crate) fn into_table(self) -> Table
        ensures { held_of result.entries ≡ self }
    {
        let MemoryDisk { alloc: _, table } = self;
        table
    }

    /// The bytes of a file that is at home.
    pub fn bytes_of(&self, name: &str) -> Option<&[u8]>
        ensures { option_copied result ≡ map.get self.now.files name.now }
    {
        match home_file(&self.table, name) {
            Some(file) => Some(file.bytes()),
            None => None,
        }
    }
}

impl Disk for MemoryDisk {
    type File = MemoryFile;

    ghost tells = { λ _. Unit {0} };

    ghost told = { λ _. true };

    ghost decided = { λ _. (λ _. tt, λ _. refl) };

    ghost held = { λ d. d };

    ghost refusals = { λ _. 0 };

    ghost count = { λ _. 0 };

    fn exists(&mut self, name: &str) -> Result<bool, Failed> {
        Ok(is_there(&self.table, name))
    }

    fn take(&mut self, _alloc: Global, name: &str) -> Result<Option<MemoryFile>, Stop> {
        match take_home(&mut self.table, name) {
            Some(file) => Ok(Some(file)),
            None => Ok(None),
        }
    }

    fn create(&mut self, alloc: Global, name: &str) -> Result<MemoryFile, Stop> {
        match make_out(alloc, &mut self.table, name) {
            Ok(()) => Ok(MemoryFile::new(alloc)),
            Err(e) => Err(Stop::Memory(e)),
        }
    }

    fn give(&mut self, name: &str, file: MemoryFile) {
        give_home(&mut self.table, name, file, true);
    }

    fn remove(&mut self, name: &str) -> Result<(), Failed> {
        remove_home(&mut self.table, name);
        Ok(())
    }

    fn faults(&self) -> u64 {
        0
    }
}
