// A disk in memory of which some calls fail, and some calls on its files.
ghost use Rattle.std.specs.Prelude.{◌≡◌, ◌≢◌, ◌⊎◌, ◌<◌, ◌≤◌, ◌==◌, [], List, ℕ, IfOk, OnOk, OnErr, IfSome, IfNone, IsTrue, IsErr, ◌↔◌, Some, None, false, is_err, true, refl};
ghost use Rattle.std.specs.Option.{option_copied};
ghost use Rattle.std.specs.FinMap as map;
ghost use Rattle.std.specs.BTreeMap.{IsEmpty};
ghost use Rattle.fj_outside.specs.Faults.{Rose};
ghost use Rattle.fj_outside.specs.Refusals.{CountsFailure, has_failed};
ghost use Rattle.fj_outside.specs.Holdings.{Exists, IsInUse, IsFree, out_of, given, without};
ghost use Rattle.fj_outside.specs.Plan.{planned, FailsNext, after_call};
ghost use Rattle.fj_outside.specs.Plans.{plan_under, HasPlace, KeepsPlans, ChangesPlan};

use crate::errors::{Failed, Stop};
use crate::failing_file::FailingFile;
use crate::memory_disk::MemoryDisk;
use crate::memory_file::MemoryFile;
use crate::outside::{Disk, FileStore};
use crate::plan::Plan;
use crate::plans::{Plans, copy_plan, set_fails, set_made};
use crate::table::{Table, give_home, home_file, is_there, make_out, remove_home, take_home};
use std::alloc::{AllocError, Global};
use std::collections::BTreeMap;

/// A disk in memory of which some calls of `exists`, `take`, `create` and `remove` fail, counted together from 1. What
/// fails changes nothing that it holds. The calls on each file are counted by its name, over the life of the disk.
#[derive(Drop)]
pub struct FailingDisk {
    alloc: Global,
    table: Table,
    plan: Plan,
    plans: Plans,
    faults: u64,
    refusals: u64,
}

impl FailingDisk {
    ghost use Rattle.fj_outside.specs.FailingDisk.{disk_held, disk_calls, disk_plans, disk_refusals, disk_count};

    /// A disk that holds what `inner` holds, and of which the calls with these numbers fail. No call on a file fails.
    pub fn new(alloc: Global, inner: MemoryDisk, fails: &[u64]) -> Result<FailingDisk, AllocError>
        ensures held { IfOk result (λ disk. disk_held disk ≡ inner) }
        ensures calls { IfOk result (λ disk. disk_calls disk ≡ planned fails.now) }
        ensures plans { IfOk result (λ disk. (q : List ℕ) → plan_under (disk_plans disk) q ≡ planned []) }
        ensures counts { IfOk result (λ disk. (disk_count disk ≡ 0) × (disk_refusals disk ≡ 0)) }
    {
        Ok(FailingDisk {
            alloc,
            plan: Plan::new(alloc, fails)?,
            table: inner.into_table(),
            plans: BTreeMap::new(alloc),
            faults: 0,
            refusals: 0,
        })
    }

    /// Sets which calls on the file of a name fail, there or not yet. Where the file is out, this holds from its return
    /// on. The calls that there were count on. Want of memory changes nothing.
    pub fn fail_file(&mut self, name: &str, fails: &[u64]) -> Result<(), AllocError>
        ensures ok { OnOk result (ChangesPlan (disk_plans self.old) (disk_plans self.new) name.now
            (record (plan_under (disk_plans self.old) name.now) { fails = fails.now })) }
        ensures err { OnErr result (KeepsPlans (disk_plans self.old) (disk_plans self.new)) }
        ensures held { disk_held self.new ≡ disk_held self.old }
        ensures calls { disk_calls self.new ≡ disk_calls self.old }
        ensures counts { (disk_count self.new ≡ disk_count self.old) × (disk_refusals self.new ≡ disk_refusals self.old) }
    {
        set_fails(self.alloc, &mut self.plans, name, fails)
    }

    /// The bytes of a file that is at home.
    pub fn bytes_of(&self, name: &str) -> Option<&[u8]>
        ensures { option_copied result ≡ map.get (disk_held self.now).files name.now }
    {
        match home_file(&self.table, name) {
            Some(file) => Some(file.bytes()),
            None => None,
        }
    }

    /// Counts a call on the disk itself, and answers whether it fails.
    fn fails_now(&mut self) -> bool
        ensures fails { IsTrue result ↔ FailsNext (disk_calls self.old) }
        ensures counted { disk_calls self.new ≡ after_call (disk_calls self.old) }
        ensures held { disk_held self.new ≡ disk_held self.old }
        ensures plans { disk_plans self.new ≡ disk_plans self.old }
        ensures later { disk_count self.old ≤ disk_count self.new }
        ensures failed { IsTrue result → Rose (disk_count self.old) (disk_count self.new) }
        ensures own { CountsFailure result (disk_refusals self.old) (disk_refusals self.new) }
    {
        if self.plan.step() {
            self.faults = self.faults.saturating_add(1);
            self.refusals = self.refusals.saturating_add(1);
            return true;
        }
        false
    }
}

impl Disk for FailingDisk {
    ghost use Rattle.fj_outside.specs.FailingFile.{file_bytes, file_calls, file_count};
    ghost use Rattle.fj_outside.specs.FailingDisk.{disk_held, disk_calls, disk_plans, disk_refusals, disk_count};

    type File = FailingFile;

    ghost tells = { λ _. Unit {0} };

    ghost told = { λ _. true };

    ghost decided = { λ _. (λ _. tt, λ _. refl) };

    ghost held = { disk_held };

    ghost refusals = { disk_refusals };

    ghost count = { disk_count };

    fn exists(&mut self, name: &str) -> Result<bool, Failed>
        // The calls that fail are those of the plan.
        ensures planned { IsErr result ↔ FailsNext (disk_calls self.old) }
        ensures counted { disk_calls self.new ≡ after_call (disk_calls self.old) }
        ensures plans { KeepsPlans (disk_plans self.old) (disk_plans self.new) }

        // The others are those of a disk in memory.
        ensures same { disk_held self.new ≡ disk_held self.old }
        ensures answer { IfOk result (λ there. IsTrue there ↔ Exists (disk_held self.old) name.now) }
        ensures own { CountsFailure (is_err result) (disk_refusals self.old) (disk_refusals self.new) }
        ensures later { disk_count self.old ≤ disk_count self.new }
        ensures failed { OnErr result (Rose (disk_count self.old) (disk_count self.new)) }
    {
        if self.fails_now() {
            return Err(Failed);
        }
        Ok(is_there(&self.table, name))
    }

    fn take(&mut self, alloc: Global, name: &str) -> Result<Option<FailingFile>, Stop>
        requires { IsFree (disk_held self.old) name.now }

        // The calls that fail are those of the plan, and the file goes on with its own.
        ensures planned { (result ≡ Err Stop.Failed) ↔ FailsNext (disk_calls self.old) }
        ensures counted { disk_calls self.new ≡ after_call (disk_calls self.old) }
        ensures plans { KeepsPlans (disk_plans self.old) (disk_plans self.new) }
        ensures place { OnOk result (HasPlace (disk_plans self.new) name.now) }
        ensures file { IfOk result (λ found. IfSome found (λ file.
            file_calls file ≡ plan_under (disk_plans self.old) name.now)) }

        // The others are those of a disk in memory.
        ensures none { IfOk result (λ found. IfNone found (
            (map.get (disk_held self.old).files name.now ≡ None) × (disk_held self.new ≡ disk_held self.old))) }
        ensures some { IfOk result (λ found. IfSome found (λ file.
            (map.get (disk_held self.old).files name.now ≡ Some (file_bytes file))
            × (disk_held self.new ≡ out_of (disk_held self.old) name.now))) }
        ensures sound { IfOk result (λ found. IfSome found (λ file. file_count file ≡ 0)) }
        ensures err { OnErr result (disk_held self.new ≡ disk_held self.old) }
        ensures own { CountsFailure (has_failed result) (disk_refusals self.old) (disk_refusals self.new) }
        ensures later { disk_count self.old ≤ disk_count self.new }
        ensures failed { result ≡ Err Stop.Failed → Rose (disk_count self.old) (disk_count self.new) }
    {
        if self.fails_now() {
            return Err(Stop::Failed);
        }
        let plan = match copy_plan(alloc, &mut self.plans, name) {
            Ok(plan) => plan,
            Err(e) => return Err(Stop::Memory(e)),
        };
        match take_home(&mut self.table, name) {
            Some(file) => Ok(Some(FailingFile::new(file, plan))),
            None => Ok(None),
        }
    }

    fn create(&mut self, alloc: Global, name: &str) -> Result<FailingFile, Stop>
        requires { IsFree (disk_held self.old) name.now }

        // The calls that fail are those of the plan, and the file goes on with its own.
        ensures planned { (result ≡ Err Stop.Failed) ↔ FailsNext (disk_calls self.old) }
        ensures counted { disk_calls self.new ≡ after_call (disk_calls self.old) }
        ensures plans { KeepsPlans (disk_plans self.old) (disk_plans self.new) }
        ensures place { OnOk result (HasPlace (disk_plans self.new) name.now) }
        ensures file { IfOk result (λ file. file_calls file ≡ plan_under (disk_plans self.old) name.now) }

        // The others are those of a disk in memory.
        ensures ok { IfOk result (λ file. (file_bytes file ≡ []) × (disk_held self.new ≡ out_of (disk_held self.old) name.now)) }
        ensures empty { IfOk result (λ file. file_count file ≡ 0) }
        ensures err { OnErr result (disk_held self.new ≡ disk_held self.old) }
        ensures own { CountsFailure (has_failed result) (disk_refusals self.old) (disk_refusals self.new) }
        ensures later { disk_count self.old ≤ disk_count self.new }
        ensures failed { result ≡ Err Stop.Failed → Rose (disk_count self.old) (disk_count self.new) }
    {
        if self.fails_now() {
            return Err(Stop::Failed);
        }
        let plan = match copy_plan(alloc, &mut self.plans, name) {
            Ok(plan) => plan,
            Err(e) => return Err(Stop::Memory(e)),
        };
        match make_out(alloc, &mut self.table, name) {
            Ok(()) => Ok(FailingFile::new(MemoryFile::new(alloc), plan)),
            Err(e) => Err(Stop::Memory(e)),
        }
    }

    fn give(&mut self, name: &str, file: FailingFile)
        requires { IsInUse (disk_held self.old) name.now }

        // The calls on the file count on where it is taken again.
        ensures counted { disk_calls self.new ≡ disk_calls self.old }
        ensures plans { HasPlace (disk_plans self.old) name.now → ChangesPlan (disk_plans self.old) (disk_plans self.new) name.now
            (record (plan_under (disk_plans self.old) name.now) { made = (file_calls file).made }) }
        ensures kept { (HasPlace (disk_plans self.old) name.now → ⊥) → KeepsPlans (disk_plans self.old) (disk_plans self.new) }

        ensures back { disk_held self.new ≡ given (disk_held self.old) name.now (file_bytes file) (file_count file == 0) }
        ensures own { CountsFailure false (disk_refusals self.old) (disk_refusals self.new) }
        ensures later { disk_count self.old ≤ disk_count self.new }
        ensures hurt { file_count file ≢ 0 → Rose (disk_count self.old) (disk_count self.new) }
    {
        let sound = file.faults() == 0;
        set_made(&mut self.plans, name, file.made());
        give_home(&mut self.table, name, file.into_inner(), sound);
        if !sound {
            self.faults = self.faults.saturating_add(1);
        }
    }

    fn remove(&mut self, name: &str) -> Result<(), Failed>
        requires exists { Exists (disk_held self.old) name.now }
        requires free { IsFree (disk_held self.old) name.now }

        // The calls that fail are those of the plan.
        ensures planned { IsErr result ↔ FailsNext (disk_calls self.old) }
        ensures counted { disk_calls self.new ≡ after_call (disk_calls self.old) }
        ensures plans { KeepsPlans (disk_plans self.old) (disk_plans self.new) }

        // The others are those of a disk in memory.
        ensures ok { OnOk result (disk_held self.new ≡ without (disk_held self.old) name.now) }
        ensures err { OnErr result (disk_held self.new ≡ disk_held self.old) }
        ensures own { CountsFailure (is_err result) (disk_refusals self.old) (disk_refusals self.new) }
        ensures later { disk_count self.old ≤ disk_count self.new }
        ensures failed { OnErr result (Rose (disk_count self.old) (disk_count self.new)) }
    {
        if self.fails_now() {
            return Err(Failed);
        }
        remove_home(&mut self.table, name);
        Ok(())
    }

    fn faults(&self) -> u64 {
        self.faults
    }
}
