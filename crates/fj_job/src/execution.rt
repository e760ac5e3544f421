// A deck is carried out, on the calling thread alone or with workers beside it.
ghost use Rattle.std.specs.Prelude.{◌≡◌, IsTrue, true, false, length, Some};
ghost use Rattle.fj_world.specs.Alone.{AllHome};
ghost use Rattle.fj_bay.specs.Meaning.{bay_meaning};
ghost use Rattle.fj_run_units.specs.Names.{AreInUse};
ghost use Rattle.fj_run_units.specs.Files.{files_of};
ghost use Rattle.fj_run_script.specs.Going.{IsGoing};
ghost use Rattle.fj_run_script.specs.Leaving.{Leaves};
ghost use Rattle.fj_run_script.specs.declared.ending.Ending.{Ending};
ghost use Rattle.fj_statement.specs.Sound.{IsSound};
ghost use Rattle.fj_job.specs.Carrying.{AreFresh, HasNotBegun, HasRun};
ghost use Rattle.fj_job.specs.Cutting.{IsCut, EndsHere};

use fj_bay::Bay;
use fj_crew::serve_with;
use fj_outside::{Disk, Sink};
use fj_run_script::{Machine, Runner};
use fj_world::{Slots, run_alone};
use std::alloc::Global;
use std::sync::Wait;
use std::thread::Threads;

/// A disk that tells says so.
fn tells_so<D: Disk>(_disk: &D)
    ensures { D.tells _disk.now → IsTrue (D.told _disk.now) }
{}

/// Serves the runner on the calling thread until it asks nothing more.
pub fn carry<W: Sink, D: Disk>(
    alloc: Global,
    machine: &mut Machine<D::File>,
    slots: &mut Slots<Bay<D::File>>,
    out: &mut W,
    disk: &mut D,
)
    requires begins { HasNotBegun D.File.told D.File.bytes machine.old }
    requires fresh { AreFresh (bay_meaning D.File.told D.File.bytes D.File.count) slots.old.slots }
    requires names { D.tells disk.old → AreInUse machine.old.state.core.names (D.held disk.old).in_use }
    ensures names { D.tells disk.old → AreInUse machine.new.state.core.names (D.held disk.new).in_use }
    ensures on { ∥ (machine.new.tally.over ≡ false → IsGoing machine.new) ∥₁ }
    ensures home { AllHome slots.new }
    ensures same { length slots.new.slots ≡ length slots.old.slots }
    ensures leaves { Leaves W.tells W.taken W.count D.tells D.count D.refusals out.old disk.old machine.old out.new disk.new machine.new }
    ensures ran { D.tells disk.old → machine.new.tally.over ≡ false → HasRun (bay_meaning D.File.told D.File.bytes D.File.count) D.File.told D.File.bytes
        machine.old.deck (files_of (D.held disk.old)) (files_of (D.held disk.new)) machine.new slots.new }
    ensures cut { D.tells disk.old → IsSound machine.old.deck → machine.new.tally.over ≡ true
        → IsCut (bay_meaning D.File.told D.File.bytes D.File.count) slots.new (D.held disk.new) (D.refusals disk.old) (D.refusals disk.new) (W.tells out.old) (W.taken out.old) (W.taken out.new) machine.old.deck (files_of (D.held disk.old)) machine.new }
    ensures ended { D.tells disk.old → machine.new.tally.over ≡ false → (ending : Ending) → machine.new.state.ending ≡ Some ending
        → EndsHere machine.old.deck (files_of (D.held disk.old)) machine.new }
{
    let mut runner = Runner {
        alloc,
        out: &mut *out,
        disk: &mut *disk,
        machine: &mut *machine,
    };
    run_alone(&mut runner, slots);
}

/// The same with so many threads besides, which perform jobs.
pub fn carry_with<Rt: Threads + Wait + Sync, W: Sink + Send, D: Disk + Send>(
    rt: &Rt,
    alloc: Global,
    workers: u32,
    machine: &mut Machine<D::File>,
    slots: &mut Slots<Bay<D::File>>,
    out: &mut W,
    disk: &mut D,
)
where
    D::File: Send,
    requires begins { HasNotBegun D.File.told D.File.bytes machine.old }
    requires fresh { AreFresh (bay_meaning D.File.told D.File.bytes D.File.count) slots.old.slots }
    requires names { D.tells disk.old → AreInUse machine.old.state.core.names (D.held disk.old).in_use }
    ensures names { D.tells disk.old → AreInUse machine.new.state.core.names (D.held disk.new).in_use }
    ensures on { ∥ (machine.new.tally.over ≡ false → IsGoing machine.new) ∥₁ }
    ensures home { AllHome slots.new }
    ensures same { length slots.new.slots ≡ length slots.old.slots }
    ensures leaves { Leaves W.tells W.taken W.count D.tells D.count D.refusals out.old disk.old machine.old out.new disk.new machine.new }
    ensures ran { D.tells disk.old → machine.new.tally.over ≡ false → HasRun (bay_meaning D.File.told D.File.bytes D.File.count) D.File.told D.File.bytes
        machine.old.deck (files_of (D.held disk.old)) (files_of (D.held disk.new)) machine.new slots.new }
    ensures cut { D.tells disk.old → IsSound machine.old.deck → machine.new.tally.over ≡ true
        → IsCut (bay_meaning D.File.told D.File.bytes D.File.count) slots.new (D.held disk.new) (D.refusals disk.old) (D.refusals disk.new) (W.tells out.old) (W.taken out.old) (W.taken out.new) machine.old.deck (files_of (D.held disk.old)) machine.new }
    ensures ended { D.tells disk.old → machine.new.tally.over ≡ false → (ending : Ending) → machine.new.state.ending ≡ Some ending
        → EndsHere machine.old.deck (files_of (D.held disk.old)) machine.new }
{
    tells_so(&*disk);
    let mut runner = Runner {
        alloc,
        out: &mut *out,
        disk: &mut *disk,
        machine: &mut *machine,
    };
    serve_with(rt, alloc, &mut runner, slots, workers);
}
