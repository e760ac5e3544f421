// A disk in memory with a gate between two of its files.
ghost use Rattle.std.specs.Prelude.{◌≡◌, ◌≢◌, ◌≤◌, ◌==◌, [], List, ℕ, IfOk, OnOk, OnErr, IfSome, IfNone, IsTrue, IsOk, Some, None, ◌↔◌, true, refl};
ghost use Rattle.std.specs.Option.{option_copied};
ghost use Rattle.std.specs.Str.{bytes_eq};
ghost use Rattle.std.specs.FinMap as map;
ghost use Rattle.std.specs.FinSet as set;
ghost use Rattle.fj_outside.specs.Faults.{Rose};
ghost use Rattle.fj_outside.specs.Holdings.{Exists, IsInUse, IsFree, out_of, given, without};

use crate::errors::{Failed, Stop};
use crate::gate::Gate;
use crate::gate_file::GateFile;
use crate::memory_file::MemoryFile;
use crate::outside::{Disk, FileStore};
use crate::table::{Table, give_home, home_file, is_there, make_out, remove_home, take_home};
use std::alloc::{AllocError, Global};
use std::collections::BTreeMap;

/// A disk in memory in which a write to one file goes on only after a write to another was called, maybe by another
/// thread. After so many looks in vain it fails.
#[derive(Drop)]
pub struct GateDisk {
    table: Table,
    held: String,
    until: String,
    gate: Gate,
    faults: u64,
}

impl GateDisk {
    ghost use Rattle.fj_outside.specs.Gate.{turns_of, file_waits, file_opens, file_bytes, file_turns, file_count, disk_held, waiting_name, opening_name, disk_turns, disk_count, IsNew};

    /// An empty disk in which the writes to `held` wait for the first write to `until`, each for `turns` looks at most.
    pub fn new(alloc: Global, held: &str, until: &str, turns: u64) -> Result<GateDisk, AllocError>
        ensures { IfOk result (λ disk. IsNew disk held.now until.now turns) }
    {
        GateDisk::at(alloc, held, until, Gate::new(alloc, turns)?)
    }

    /// Two empty disks with one gate: the writes to `held` of the first wait for the first write to `until` of the second, each for `turns` looks at
    /// most. No write to the first opens the gate, and none to the second waits: their other file is of the empty name, which no file of a deck has.
    pub fn pair(
        alloc: Global,
        held: &str,
        until: &str,
        turns: u64,
    ) -> Result<(GateDisk, GateDisk), AllocError>
        ensures first { IfOk result (λ disks. IsNew disks.0 held.now [] turns) }
        ensures second { IfOk result (λ disks. IsNew disks.1 [] until.now turns) }
    {
        let gate = Gate::new(alloc, turns)?;
        let other = gate.try_clone()?;
        let first = GateDisk::at(alloc, held, "", gate)?;
        let second = GateDisk::at(alloc, "", until, other)?;
        Ok((first, second))
    }

    /// An empty disk with these names at a gate.
    fn at(alloc: Global, held: &str, until: &str, gate: Gate) -> Result<GateDisk, AllocError>
        ensures { IfOk result (λ disk. IsNew disk held.now until.now (turns_of gate)) }
    {
        Ok(GateDisk {
            table: BTreeMap::new(alloc),
            held: String::from_str(alloc, held)?,
            until: String::from_str(alloc, until)?,
            gate,
            faults: 0,
        })
    }

    /// The bytes of a file that is at home.
    pub fn bytes_of(&self, name: &str) -> Option<&[u8]>
        ensures { option_copied result ≡ map.get (disk_held self.now).files name.now }
    {
        match home_file(&self.table, name) {
            Some(file) => Some(file.bytes()),
            None => None,
        }
    }

    /// A file of a name, at the gate.
    fn at_gate(&self, name: &str, file: MemoryFile, gate: Gate) -> GateFile
        ensures bytes { file_bytes result ≡ file }
        ensures waits { file_waits result ≡ bytes_eq name.now (waiting_name self.now) }
        ensures opens { file_opens result ≡ bytes_eq name.now (opening_name self.now) }
        ensures turns { file_turns result ≡ turns_of gate }
        ensures count { file_count result ≡ 0 }
    {
        let waits = name == self.held.as_str();
        let opens = name == self.until.as_str();
        GateFile::new(file, gate, waits, opens)
    }
}

impl Disk for GateDisk {
    ghost use Rattle.fj_outside.specs.Gate.{file_waits, file_opens, file_bytes, file_turns, file_count, disk_held, waiting_name, opening_name, disk_turns, disk_count};

    type File = GateFile;

    ghost tells = { λ _. Unit {0} };

    ghost told = { λ _. true };

    ghost decided = { λ _. (λ _. tt, λ _. refl) };

    ghost held = { disk_held };

    ghost refusals = { λ _. 0 };

    ghost count = { disk_count };

    fn exists(&mut self, name: &str) -> Result<bool, Failed>
        ensures whole { IsOk result }
        ensures same { disk_held self.new ≡ disk_held self.old }
        ensures answer { IfOk result (λ there. IsTrue there ↔ Exists (disk_held self.old) name.now) }
        ensures count { disk_count self.new ≡ disk_count self.old }
    {
        Ok(is_there(&self.table, name))
    }

    fn take(&mut self, _alloc: Global, name: &str) -> Result<Option<GateFile>, Stop>
        requires { IsFree (disk_held self.old) name.now }
        ensures whole { result ≢ Err Stop.Failed }
        ensures waits { IfOk result (λ found. IfSome found (λ file. file_waits file ≡ bytes_eq name.now (waiting_name self.old))) }
        ensures opens { IfOk result (λ found. IfSome found (λ file. file_opens file ≡ bytes_eq name.now (opening_name self.old))) }
        ensures turns { IfOk result (λ found. IfSome found (λ file. file_turns file ≡ disk_turns self.old)) }
        ensures none { IfOk result (λ found. IfNone found (
            (map.get (disk_held self.old).files name.now ≡ None) × (disk_held self.new ≡ disk_held self.old))) }
        ensures some { IfOk result (λ found. IfSome found (λ file.
            (map.get (disk_held self.old).files name.now ≡ Some (file_bytes file))
            × (disk_held self.new ≡ out_of (disk_held self.old) name.now))) }
        ensures sound { IfOk result (λ found. IfSome found (λ file. file_count file ≡ 0)) }
        ensures err { OnErr result (disk_held self.new ≡ disk_held self.old) }
        ensures count { disk_count self.new ≡ disk_count self.old }
    {
        let gate = match self.gate.try_clone() {
            Ok(gate) => gate,
            Err(e) => return Err(Stop::Memory(e)),
        };
        match take_home(&mut self.table, name) {
            Some(file) => Ok(Some(self.at_gate(name, file, gate))),
            None => Ok(None),
        }
    }

    fn create(&mut self, alloc: Global, name: &str) -> Result<GateFile, Stop>
        requires { IsFree (disk_held self.old) name.now }
        ensures whole { result ≢ Err Stop.Failed }
        ensures waits { IfOk result (λ file. file_waits file ≡ bytes_eq name.now (waiting_name self.old)) }
        ensures opens { IfOk result (λ file. file_opens file ≡ bytes_eq name.now (opening_name self.old)) }
        ensures turns { IfOk result (λ file. file_turns file ≡ disk_turns self.old) }
        ensures ok { IfOk result (λ file. (file_bytes file ≡ []) × (disk_held self.new ≡ out_of (disk_held self.old) name.now)) }
        ensures empty { IfOk result (λ file. file_count file ≡ 0) }
        ensures err { OnErr result (disk_held self.new ≡ disk_held self.old) }
        ensures count { disk_count self.new ≡ disk_count self.old }
    {
        let gate = match self.gate.try_clone() {
            Ok(gate) => gate,
            Err(e) => return Err(Stop::Memory(e)),
        };
        match make_out(alloc, &mut self.table, name) {
            Ok(()) => Ok(self.at_gate(name, MemoryFile::new(alloc), gate)),
            Err(e) => Err(Stop::Memory(e)),
        }
    }

    fn give(&mut self, name: &str, file: GateFile) {
        let sound = file.faults() == 0;
        give_home(&mut self.table, name, file.into_inner(), sound);
        if !sound {
            self.faults = self.faults.saturating_add(1);
        }
    }

    fn remove(&mut self, name: &str) -> Result<(), Failed>
        requires exists { Exists (disk_held self.old) name.now }
        requires free { IsFree (disk_held self.old) name.now }
        ensures whole { IsOk result }
        ensures ok { disk_held self.new ≡ without (disk_held self.old) name.now }
        ensures count { disk_count self.new ≡ disk_count self.old }
    {
        remove_home(&mut self.table, name);
        Ok(())
    }

    fn faults(&self) -> u64 {
        self.faults
    }
}
