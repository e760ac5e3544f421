// A statement goes on from its stage.
ghost use Rattle.std.specs.Prelude.{◌≡◌, ◌≢◌, ◌+◌, ◌<◌, ◌^◌, List, length, ◌∷◌, true, Some, IfOk, OnErr, OnOk, Err};
ghost use Rattle.fj_run_units.specs.Having.{HaveFiles};
ghost use Rattle.fj_statement.specs.Sound.{IsSoundStatement};
ghost use Rattle.fj_run_items.specs.Kinds.{kinds_of};
ghost use Rattle.fj_meaning.specs.Statement.{Stated, control_by};
ghost use Rattle.fj_meaning_turns.specs.Run.{Stage as PlainStage};
ghost use Rattle.fj_meaning_turns.specs.Turns.{turn_on};
ghost use Rattle.fj_run_units.specs.Names.{AreInUse};
ghost use Rattle.fj_run_statements.specs.Fitting.{IsKept};
ghost use Rattle.fj_run_statements.specs.State.{core_of};
ghost use Rattle.fj_run_units.specs.Files.{files_of};
ghost use Rattle.fj_run_script.specs.Machine.{run_in, stage_of};
ghost use Rattle.fj_run_script.specs.Turned.{IsTurn};
ghost use Rattle.fj_run_script.specs.Stepping.{Steps};
ghost use Rattle.fj_run_script.specs.Failing.{FailsStage};
ghost use Rattle.fj_run_script.specs.Closing.{may_be_at};
ghost use Rattle.fj_run_script.specs.Fitting.{HasRoom};
ghost use Rattle.fj_run_script.specs.Spending.{Spends, jobs_at};
ghost use Rattle.fj_run_script.specs.Going.{Counts, HaveAt, HaveTurned};

use crate::stage::Stage;
use crate::state::State;
use crate::turned::Turned;
use fj_outside::{Disk, FileStore, Sink};
use fj_run_items::Lost;
use fj_run_statements::{answered, given};
use fj_statement::{Lined, Variables};
use std::alloc::Global;
use std::mem;

impl<F: FileStore> State<F> {
    /// Goes on with the statement at hand from its stage.
    #[inline(always)]
    pub(crate) fn turn<W: Sink, D: Disk<File = F>>(
        &mut self,
        alloc: Global,
        variables: &Variables,
        lined: &Lined,
        disk: &mut D,
        out: &mut W,
    ) -> Result<Turned<F>, Lost>
        requires kinds { self.old.core.store.kinds ≡ kinds_of variables.now }
        requires names { D.tells disk.old → AreInUse self.old.core.names (D.held disk.old).in_use }
        requires hand { may_be_at lined.now.what self.old.stage ≡ true }
        requires room { HasRoom self.old.sent.items }
        ensures turn { D.tells disk.old → (more : List Stated) (stage : PlainStage)
            → stage_of F.told F.bytes variables.now ((lined.now, control_by lined.now.what) ∷ more) (core_of (files_of (D.held disk.old)) self.old.core) self.old.stage ≡ Some stage
            → IfOk result (λ t. IsTurn F.told F.bytes variables.now ((lined.now, control_by lined.now.what) ∷ more) (files_of (D.held disk.new)) self.new t
            (turn_on (lined.now, control_by lined.now.what) stage
            (run_in variables.now ((lined.now, control_by lined.now.what) ∷ more) (files_of (D.held disk.old)) self.old stage))) }
        ensures steps { Steps W.tells W.taken W.count D.tells D.held D.count D.refusals out.old disk.old self.old.core result out.new disk.new self.new.core }
        ensures fits { IsSoundStatement variables.now lined.now.what → HaveAt self.old.stage self.old.core.names self.old.core.units lined.now.what → (self.old.stage ≢ Stage.Start → self.old.core.next + 1 < 2 ^ 32)
            → IsKept self.old.core → result ≢ Err Lost.Unfit }
        ensures holds { IsKept self.old.core → OnOk result (IsKept self.new.core) }
        ensures files { HaveAt self.old.stage self.old.core.names self.old.core.units lined.now.what → IfOk result (λ t. HaveTurned t self.new lined.now.what) }
        ensures vain { HaveAt self.old.stage self.old.core.names self.old.core.units lined.now.what → OnErr result (HaveFiles self.new.core.names self.new.core.units) }
        ensures counts { IfOk result (λ t. Counts t self.old self.new) }
        ensures spends { IfOk result (λ t. Spends (jobs_at self.old.stage (length self.old.core.units)) t self.new) }
        ensures heard { self.new.told ≡ self.old.told }
        ensures fails { D.tells disk.old → (more : List Stated) (stage : PlainStage)
            → stage_of F.told F.bytes variables.now ((lined.now, control_by lined.now.what) ∷ more) (core_of (files_of (D.held disk.old)) self.old.core) self.old.stage ≡ Some stage
            → FailsStage W.tells W.taken out.old self.old.core result out.new self.new.core (D.held disk.new) (D.refusals disk.old) (D.refusals disk.new) (lined.now, control_by lined.now.what) stage
            (run_in variables.now ((lined.now, control_by lined.now.what) ∷ more) (files_of (D.held disk.old)) self.old stage) }
        ensures may { may_be_at lined.now.what self.new.stage ≡ true }
        ensures starts { IfOk result (λ t. t ≡ Turned.Passes → self.new.stage ≡ Stage.Start) }
    {
        match mem::replace(&mut self.stage, Stage::Start) {
            Stage::Start => self.start(alloc, variables, lined, disk, out),
            Stage::Waiting { whose, from } => {
                self.wait(alloc, variables, lined, whose, from, disk, out)
            }
            Stage::Resuming {
                slots,
                next,
                condition,
            } => self.resume(alloc, variables, lined, slots, next, condition, disk, out),
            Stage::Going { next, number } => {
                match given(alloc, variables, lined, next, number, &mut self.core) {
                    Ok(doing) => Ok(self.act(variables, lined, doing)),
                    Err(lost) => Err(lost),
                }
            }
            Stage::Awaiting { slot, number, then } => {
                Ok(self.settle(slot, Stage::Awaiting { slot, number, then }))
            }
            Stage::Answered { then, job, answer } => {
                let doing = answered(
                    alloc,
                    variables,
                    lined,
                    then,
                    job,
                    answer,
                    &mut self.core,
                    disk,
                );
                match doing {
                    Ok(doing) => Ok(self.act(variables, lined, doing)),
                    Err(lost) => Err(lost),
                }
            }
        }
    }
}
