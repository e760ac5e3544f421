// The runner as a script that finishes at a statement that looks.
ghost use Rattle.std.specs.Prelude.{◌≡◌, false, IfErr};
ghost use Rattle.fj_bay.specs.Meaning.{bay_meaning};
ghost use Rattle.fj_world.specs.Conduct.{Idle, IsSubmitting, IsSettling, Asks, Takes, Tells};
ghost use Rattle.fj_world.specs.Giving.{GivesOf};
ghost use Rattle.fj_meaning_looks.specs.Inquiring.{is_looking};
ghost use Rattle.fj_meaning_looks.specs.Looking.{stretch_conduct};
ghost use Rattle.fj_run_units.specs.Names.{AreInUse};
ghost use Rattle.fj_run_script.specs.Going.{IsGoing};
ghost use Rattle.fj_run_script.specs.Kept.{MayKeep};
ghost use Rattle.fj_run_script.specs.Showing.{shows_by};

use crate::machine::Machine;
use crate::script::next_of;
use fj_bay::{Bay, Job};
use fj_outside::{Disk, Sink};
use fj_slot::{Refused, Told};
use fj_world::{Ask, Script};
use std::alloc::Global;

/// A stretch of a run: a machine, over a disk and a sink that are lent to it. It has finished also where the statement at hand looks.
#[derive(Drop)]
pub struct Stretch<'a, 'b, 'c, W: Sink, D: Disk> {
    pub alloc: Global,
    pub out: &'a mut W,
    pub disk: &'b mut D,
    pub machine: &'c mut Machine<D::File>,
    ghost names: { D.tells disk.now → AreInUse machine.now.state.core.names (D.held disk.now).in_use },
    ghost on: { ∥ (machine.now.tally.over ≡ false → IsGoing machine.now) ∥₁ },
}

impl<'a, 'b, 'c, W: Sink, D: Disk> Script for Stretch<'a, 'b, 'c, W, D> {
    type Gear = Bay<D::File>;

    ghost conduct = { stretch_conduct is_looking (shows_by is_looking W.tells W.taken W.count D.tells D.told D.held D.count D.refusals D.File.told D.File.bytes
        (λ r. r.out.ghost_name) (λ r. r.disk.ghost_name) (λ r. r.machine.ghost_name) (λ r. r.out.now) (λ r. r.disk.now) (λ r. r.machine.now)) };

    ghost gives = { λ r job. MayKeep r.machine.now job };

    fn ask(&mut self) -> Ask<Job<D::File>>
        requires { ⟦<Stretch<'a, 'b, 'c, W, D> as Script>⟧.conduct.due self.old ≡ Idle }
        ensures asks { Asks (bay_meaning D.File.told D.File.bytes D.File.count) ⟦<Stretch<'a, 'b, 'c, W, D> as Script>⟧.conduct self.old result self.new }
        ensures gives { GivesOf ⟦<Stretch<'a, 'b, 'c, W, D> as Script>⟧.gives self.new result }
    {
        next_of(true, self.alloc, self.machine, self.disk, self.out)
    }

    fn took(&mut self, number: Result<u64, Refused<Job<D::File>>>)
        requires submitting { IsSubmitting (⟦<Stretch<'a, 'b, 'c, W, D> as Script>⟧.conduct.due self.old) }
        requires back { IfErr number (λ refused. ⟦<Stretch<'a, 'b, 'c, W, D> as Script>⟧.gives self.old refused.job) }
        ensures { Takes ⟦<Stretch<'a, 'b, 'c, W, D> as Script>⟧.conduct self.old number self.new }
    {
        self.machine.take_number(number);
    }

    fn told(&mut self, told: Told<Bay<D::File>>)
        requires { IsSettling (⟦<Stretch<'a, 'b, 'c, W, D> as Script>⟧.conduct.due self.old) }
        ensures { Tells (bay_meaning D.File.told D.File.bytes D.File.count) ⟦<Stretch<'a, 'b, 'c, W, D> as Script>⟧.conduct self.old told self.new }
    {
        self.machine.hear(told);
    }
}
