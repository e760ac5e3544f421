// A deck is carried out in stretches, each up to a statement that looks.
ghost use Rattle.std.specs.Prelude.{◌≡◌, ◌↔◌, false, [], None, IsTrue, slice_get};
ghost use Rattle.fj_world.specs.Rack.{At};
ghost use Rattle.fj_crew.specs.Plan.{AllSound};
ghost use Rattle.fj_bay.specs.Meaning.{bay_meaning};
ghost use Rattle.fj_run_units.specs.Names.{AreInUse};
ghost use Rattle.fj_run_script.specs.Going.{IsGoing};
ghost use Rattle.fj_run_script.specs.Leaving.{Leaves};
ghost use Rattle.fj_job.specs.Carrying.{AreFresh, HasNotBegun};
ghost use Rattle.fj_poll.specs.Stretches.{CanBeServed, Comes, HasCarried};

use fj_bay::Bay;
use fj_crew::serve_with;
use fj_outside::{Disk, FileStore, Sink};
use fj_run_script::{Inquired, Machine, Stretch};
use fj_world::Slots;
use std::alloc::Global;
use std::sync::Wait;
use std::thread::Threads;

/// A disk tells exactly where it says so.
fn tells_so<D: Disk>(_disk: &D)
    ensures { IsTrue (D.told _disk.now) ↔ D.tells _disk.now }
{}

/// How many jobs of the slot of a question are done.
fn done_at<F: FileStore>(slots: &Slots<Bay<F>>, asked: Inquired) -> u64
    ensures some { At slots.now asked.slot (λ l. result ≡ l.done) }
    ensures none { slice_get slots.now.slots asked.slot ≡ None → result ≡ 0 }
{
    match slots.get(asked.slot as usize) {
        Some(slot) => slot.done(),
        None => 0,
    }
}

/// Serves the runner, with so many threads besides, until it asks nothing more or stands at a statement that looks.
fn carry_stretch<Rt: Threads + Wait + Sync, W: Sink + Send, D: Disk + Send>(
    rt: &Rt,
    alloc: Global,
    workers: u32,
    machine: &mut Machine<D::File>,
    slots: &mut Slots<Bay<D::File>>,
    out: &mut W,
    disk: &mut D,
)
where
    D::File: Send,
    requires ready { CanBeServed (bay_meaning D.File.told D.File.bytes D.File.count) machine.old slots.old }
    requires sound { D.tells disk.old → AllSound (bay_meaning D.File.told D.File.bytes D.File.count) slots.old.slots }
    requires names { D.tells disk.old → AreInUse machine.old.state.core.names (D.held disk.old).in_use }
    requires on { ∥ (machine.old.tally.over ≡ false → IsGoing machine.old) ∥₁ }
    ensures ready { CanBeServed (bay_meaning D.File.told D.File.bytes D.File.count) machine.new slots.new }
    ensures names { D.tells disk.old → AreInUse machine.new.state.core.names (D.held disk.new).in_use }
    ensures on { ∥ (machine.new.tally.over ≡ false → IsGoing machine.new) ∥₁ }
    ensures leaves { Leaves W.tells W.taken W.count D.tells D.count D.refusals out.old disk.old machine.old out.new disk.new machine.new }
    ensures comes { Comes W.tells W.taken W.count D.tells D.held D.count D.refusals D.File.told D.File.bytes (bay_meaning D.File.told D.File.bytes D.File.count)
        out.old disk.old machine.old slots.old out.new disk.new machine.new slots.new }
{
    tells_so(&*disk);
    let mut runner = Stretch {
        alloc,
        out: &mut *out,
        disk: &mut *disk,
        machine: &mut *machine,
    };
    serve_with(rt, alloc, &mut runner, slots, workers);
}

/// Serves the runner, with so many threads besides, until it asks nothing more: in stretches. Where it stands at a statement that looks, that gets to
/// know how many jobs are done.
pub(crate) fn carry_polled<Rt: Threads + Wait + Sync, W: Sink + Send, D: Disk + Send>(
    rt: &Rt,
    alloc: Global,
    workers: u32,
    machine: &mut Machine<D::File>,
    slots: &mut Slots<Bay<D::File>>,
    out: &mut W,
    disk: &mut D,
)
where
    D::File: Send,
    requires begins { HasNotBegun D.File.told D.File.bytes machine.old }
    requires looks { machine.old.looks.items ≡ [] }
    requires fresh { AreFresh (bay_meaning D.File.told D.File.bytes D.File.count) slots.old.slots }
    requires names { D.tells disk.old → AreInUse machine.old.state.core.names (D.held disk.old).in_use }
    ensures names { D.tells disk.old → AreInUse machine.new.state.core.names (D.held disk.new).in_use }
    ensures on { ∥ (machine.new.tally.over ≡ false → IsGoing machine.new) ∥₁ }
    ensures carried { HasCarried W.tells W.taken W.count D.tells D.held D.count D.refusals D.File.told D.File.bytes (bay_meaning D.File.told D.File.bytes D.File.count)
        out.old disk.old machine.old slots.old out.new disk.new machine.new slots.new }
{
    'stretches: loop {
        carry_stretch(rt, alloc, workers, machine, slots, out, disk);
        match machine.inquired() {
            None => return,
            Some(asked) => {
                let done = done_at(slots, asked);
                machine.looked(done);
            }
        }
    }
}
