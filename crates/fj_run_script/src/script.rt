// The runner as a script over slots of bays.
ghost use Rattle.std.specs.Prelude.{◌≡◌, true, false, Some, IfErr};
ghost use Rattle.fj_bay.specs.Meaning.{bay_meaning};
ghost use Rattle.fj_world.specs.Conduct.{Idle, IsSubmitting, IsSettling, Asks, Takes, Tells};
ghost use Rattle.fj_meaning_turns.specs.Serving.{run_conduct};
ghost use Rattle.fj_run_units.specs.Names.{AreInUse};
ghost use Rattle.fj_run_units.specs.Files.{files_of};
ghost use Rattle.fj_meaning_turns.specs.Run.{Run};
ghost use Rattle.fj_meaning_looks.specs.Inquiring.{looks_by};
ghost use Rattle.fj_meaning_looks.specs.Looking.{asked_until};
ghost use Rattle.fj_run_script.specs.Admitting.{IsDue};
ghost use Rattle.fj_run_script.specs.Turned.{IsAsked};
ghost use Rattle.fj_run_script.specs.Failing.{IsGivenUp, HasReason};
ghost use Rattle.fj_world.specs.Giving.{GivesOf};
ghost use Rattle.fj_run_script.specs.Kept.{KeepsFiles, MayKeep};
ghost use Rattle.fj_run_script.specs.Leaving.{Leaves};
ghost use Rattle.fj_run_script.specs.Machine.{run_of};
ghost use Rattle.fj_run_script.specs.Short.{FallsShort};
ghost use Rattle.fj_run_script.specs.Showing.{shows_by};
ghost use Rattle.fj_run_script.specs.Fitting.{HasRoom};
ghost use Rattle.fj_run_script.specs.Going.{IsGoing, OwesAsGiven};

use crate::hand::Hand;
use crate::machine::Machine;
use fj_bay::{Bay, Job};
use fj_outside::{Disk, Sink};
use fj_slot::{Refused, Told};
use fj_world::{Ask, Script};
use std::alloc::Global;

/// A runner: a machine, over a disk and a sink that are lent to it.
#[derive(Drop)]
pub struct Runner<'a, 'b, 'c, W: Sink, D: Disk> {
    pub alloc: Global,
    pub out: &'a mut W,
    pub disk: &'b mut D,
    pub machine: &'c mut Machine<D::File>,
    ghost names: { D.tells disk.now → AreInUse machine.now.state.core.names (D.held disk.now).in_use },
    ghost on: { ∥ (machine.now.tally.over ≡ false → IsGoing machine.now) ∥₁ },
}

/// What the machine asks next.
pub(crate) fn next_of<W: Sink, D: Disk>(
    to_look: bool,
    alloc: Global,
    machine: &mut Machine<D::File>,
    disk: &mut D,
    out: &mut W,
) -> Ask<Job<D::File>>
    requires idle { machine.old.tally.hand ≡ Hand.Idle }
    requires names { D.tells disk.old → AreInUse machine.old.state.core.names (D.held disk.old).in_use }
    requires room { machine.old.tally.over ≡ false → HasRoom machine.old.state.sent.items }
    requires owes { machine.old.tally.over ≡ false → OwesAsGiven machine.old.tally.hand machine.old.tally.owed.items machine.old.state.sent.items machine.old.state.told.items }
    requires going { ∥ (machine.old.tally.over ≡ false → IsGoing machine.old) ∥₁ }
    ensures due { IsDue machine.old.tally result machine.new.tally }
    ensures rests { machine.old.tally.over ≡ true → (machine.new ≡ machine.old) × (disk.new ≡ disk.old) × (out.new ≡ out.old) }
    ensures reason { HasReason machine.old machine.new }
    ensures gives { GivesOf MayKeep machine.new result }
    ensures keeps { KeepsFiles machine.old machine.new }
    ensures asks { D.tells disk.old → (r : Run) → run_of D.File.told D.File.bytes (files_of (D.held disk.old)) machine.old ≡ Some r → machine.new.tally.over ≡ false
        → IsAsked D.File.told D.File.bytes (files_of (D.held disk.new)) machine.new result (asked_until (looks_by to_look) r) }
    ensures names { D.tells disk.old → AreInUse machine.new.state.core.names (D.held disk.new).in_use }
    ensures on { IsGoing machine.old → machine.new.tally.over ≡ false → IsGoing machine.new }
    ensures leaves { Leaves W.tells W.taken W.count D.tells D.count D.refusals out.old disk.old machine.old out.new disk.new machine.new }
    ensures fails { D.tells disk.old → IsGivenUp (W.tells out.old) (W.taken out.old) (W.taken out.new) (D.held disk.new) (D.refusals disk.old) (D.refusals disk.new)
        (run_of D.File.told D.File.bytes (files_of (D.held disk.old)) machine.old) machine.old machine.new }
    ensures short { D.tells disk.old → FallsShort (looks_by to_look) (run_of D.File.told D.File.bytes (files_of (D.held disk.old)) machine.old) machine.old machine.new }
{
    machine.ask(to_look, alloc, disk, out)
}

impl<'a, 'b, 'c, W: Sink, D: Disk> Script for Runner<'a, 'b, 'c, W, D> {
    type Gear = Bay<D::File>;

    ghost conduct = { run_conduct (shows_by (looks_by false) W.tells W.taken W.count D.tells D.told D.held D.count D.refusals D.File.told D.File.bytes
        (λ r. r.out.ghost_name) (λ r. r.disk.ghost_name) (λ r. r.machine.ghost_name) (λ r. r.out.now) (λ r. r.disk.now) (λ r. r.machine.now)) };

    ghost gives = { λ r job. MayKeep r.machine.now job };

    fn ask(&mut self) -> Ask<Job<D::File>>
        requires { ⟦<Runner<'a, 'b, 'c, W, D> as Script>⟧.conduct.due self.old ≡ Idle }
        ensures asks { Asks (bay_meaning D.File.told D.File.bytes D.File.count) ⟦<Runner<'a, 'b, 'c, W, D> as Script>⟧.conduct self.old result self.new }
        ensures gives { GivesOf ⟦<Runner<'a, 'b, 'c, W, D> as Script>⟧.gives self.new result }
    {
        next_of(false, self.alloc, self.machine, self.disk, self.out)
    }

    fn took(&mut self, number: Result<u64, Refused<Job<D::File>>>)
        requires submitting { IsSubmitting (⟦<Runner<'a, 'b, 'c, W, D> as Script>⟧.conduct.due self.old) }
        requires back { IfErr number (λ refused. ⟦<Runner<'a, 'b, 'c, W, D> as Script>⟧.gives self.old refused.job) }
        ensures { Takes ⟦<Runner<'a, 'b, 'c, W, D> as Script>⟧.conduct self.old number self.new }
    {
        self.machine.take_number(number);
    }

    fn told(&mut self, told: Told<Bay<D::File>>)
        requires { IsSettling (⟦<Runner<'a, 'b, 'c, W, D> as Script>⟧.conduct.due self.old) }
        ensures { Tells (bay_meaning D.File.told D.File.bytes D.File.count) ⟦<Runner<'a, 'b, 'c, W, D> as Script>⟧.conduct self.old told self.new }
    {
        self.machine.hear(told);
    }
}
