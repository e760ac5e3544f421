// The turns of a statement once its transfers are told: each comes to an ask, passes on to the next statement, or stops at an ending.
ghost use Rattle.std.specs.Prelude.{◌≡◌, ◌≢◌, ◌<◌, ◌+◌, ◌^◌, ℕ, List, ◌∷◌, true, Some, Err, IfOk, OnErr, OnOk, drop, map, get_or, max, ◌-◌, length};
ghost use Rattle.fj_statement.specs.declared.deck.Variable.{Variable};
ghost use Rattle.fj_statement.specs.Sound.{IsSoundStatement};
ghost use Rattle.fj_run_items.specs.Kinds.{kinds_of};
ghost use Rattle.fj_bay.specs.Jobs.{Job as Task};
ghost use Rattle.fj_bay.specs.Plain.{task_of};
ghost use Rattle.fj_meaning.specs.State.{Files};
ghost use Rattle.fj_meaning.specs.Statement.{Stated, control_by};
ghost use Rattle.fj_meaning_jobs.specs.Core.{Core as PlainCore};
ghost use Rattle.fj_meaning_jobs.specs.Doing.{Doing as PlainDoing};
ghost use Rattle.fj_meaning_jobs.specs.Acting.{doing};
ghost use Rattle.fj_meaning_jobs.specs.Desks.{most_slots};
ghost use Rattle.fj_meaning_turns.specs.Run.{Stage as PlainStage, Held};
ghost use Rattle.fj_meaning_turns.specs.Passing.{output_of};
ghost use Rattle.fj_meaning_turns.specs.Turns.{submits, turn_finish, turn_act, matched, ends_halts};
ghost use Rattle.fj_run_pending.specs.Plain.{held, tells_of};
ghost use Rattle.fj_run_statements.specs.Calling.{calls_disk, may_do};
ghost use Rattle.fj_run_statements.specs.Doing.{IsDoing};
ghost use Rattle.fj_run_statements.specs.Fitting.{IsKept};
ghost use Rattle.fj_run_statements.specs.Placing.{IsPlaced};
ghost use Rattle.fj_run_units.specs.Names.{AreInUse};
ghost use Rattle.fj_run_statements.specs.State.{core_of};
ghost use Rattle.fj_run_units.specs.Files.{files_of};
ghost use Rattle.fj_run_script.specs.Machine.{run_in, stage_of};
ghost use Rattle.fj_run_script.specs.Fitting.{HasRoom};
ghost use Rattle.fj_run_script.specs.Numbering.{AreSlots, gave, slots_behind};
ghost use Rattle.fj_run_script.specs.Passing.{is_passed};
ghost use Rattle.fj_run_script.specs.Turned.{IsTurn};
ghost use Rattle.fj_run_script.specs.Stepping.{Keeps, Steps};
ghost use Rattle.fj_run_script.specs.Failing.{FailsTurn};
ghost use Rattle.fj_run_script.specs.Closing.{may_be_at};
ghost use Rattle.fj_statement.specs.declared.statement.Statement.{Statement as PlainStatement};
ghost use Rattle.fj_statement.specs.declared.statement.Statement.{Statement};
ghost use Rattle.fj_run_units.specs.Having.{HaveFiles};
ghost use Rattle.fj_run_statements.specs.Doing.{Ends};
ghost use Rattle.fj_run_statements.specs.Having.{HaveBeside, HaveNext, name_brought};
ghost use Rattle.fj_run_statements.specs.Jobs.{jobs_of};
ghost use Rattle.fj_run_script.specs.Spending.{Spends, jobs_at};
ghost use Rattle.fj_run_script.specs.Going.{Counts, DoesNotPause, HaveAt, HaveTurned};

use crate::ending::{ended_by, iostat_of};
use crate::stage::{Stage, put_stage, put_start};
use crate::state::State;
use crate::turned::Turned;
use fj_bay::Job;
use fj_outside::{Disk, FileStore, Sink};
use fj_run_items::{Lost, set_number};
use fj_run_statements::{Doing, begin, define_unit};
use fj_statement::{Lined, Variables};
use fj_value::{Condition, Items};
use fj_world::Ask;
use std::alloc::Global;

impl<F: FileStore> State<F> {
    /// Gives a job to a slot, and counts it.
    #[inline(always)]
    pub(crate) fn submit(&mut self, slot: u32, job: Job<F>, stage: Stage<F>) -> Turned<F>
        requires passed { is_passed self.old.core.pending stage ≡ true }
        requires slot { slot < most_slots }
        requires own { (at number : ℕ) → gave at number stage ≡ true → (at ≡ slot) × (number ≡ get_or self.old.sent.items slot 0) }
        requires later { AreSlots (slots_behind stage) }
        requires room { HasRoom self.old.sent.items }
        ensures turn { (variables : List Variable) (rest : List Stated) (files : Files) (task : Task) (before after : PlainStage) → task_of F.told F.bytes job ≡ Some task
            → stage_of F.told F.bytes variables rest (core_of files self.old.core) stage ≡ Some after
            → IsTurn F.told F.bytes variables rest files self.new result (submits slot task after (run_in variables rest files self.old before)) }
        ensures core { self.new.core ≡ self.old.core }
        ensures may { (what : PlainStatement) → may_be_at what stage ≡ true → may_be_at what self.old.stage ≡ true → may_be_at what self.new.stage ≡ true }
        ensures pauses { result ≢ Turned.Passes }
        ensures files { (what : Statement) → HaveAt stage self.old.core.names self.old.core.units what → HaveBeside (name_brought job) self.old.core.names self.old.core.units what
            → HaveTurned result self.new what }
        ensures counts { Counts result self.old self.new }
        ensures spends { Spends (jobs_at stage (length self.old.core.units) + 1) result self.new }
        ensures heard { self.new.told ≡ self.old.told }
    {
        let at = slot as usize;
        self.sent[at] += 1;
        put_stage(&mut self.stage, stage);
        Turned::Pauses(Ask::Submit { slot, job })
    }

    /// The number that the next job of a slot gets.
    #[inline(always)]
    fn number_at(&self, slot: u32) -> u64
        ensures { result ≡ get_or self.now.sent.items slot 0 }
    {
        match self.sent.get(slot as usize) {
            Some(count) => *count,
            None => 0,
        }
    }

    /// Sets IOSTAT=, and ends the statement.
    #[inline(always)]
    fn finish(&mut self, variables: &Variables, lined: &Lined, condition: Condition) -> Turned<F>
        requires { self.old.core.store.kinds ≡ kinds_of variables.now }
        ensures turn { (more : List Stated) (files : Files) (core : PlainCore) (book : List Held) (stage : PlainStage)
            → held self.old.core.pending ≡ matched (map (λ (h : Held). h.pending) (held self.old.core.pending)) book
            → IsTurn F.told F.bytes variables.now ((lined.now, control_by lined.now.what) ∷ more) files self.new result
            (turn_finish (lined.now, control_by lined.now.what) (core_of files self.old.core) condition
            (record (run_in variables.now ((lined.now, control_by lined.now.what) ∷ more) files self.old stage) { core = core; book = book })) }
        ensures keeps { Keeps self.old.core self.new.core }
        ensures start { self.new.stage ≡ Stage.Start }
        ensures files { HaveFiles self.old.core.names self.old.core.units → HaveTurned result self.new lined.now.what }
        ensures counts { Counts result self.old self.new }
        ensures ends { DoesNotPause result }
        ensures next { self.new.core.next ≡ self.old.core.next }
        ensures units { self.new.core.units ≡ self.old.core.units }
        ensures spends { (jobs : ℕ) → Spends jobs result self.new }
        ensures heard { self.new.told ≡ self.old.told }
    {
        put_start(&mut self.stage);
        define_unit(variables, &lined.what, condition, &mut self.core);
        let iostat = iostat_of(&lined.what);
        let code = i64::from(condition.code());
        set_number(variables, &mut self.core.store, iostat, code);
        match ended_by(lined.line, &lined.what, condition) {
            None => Turned::Passes,
            Some(ending) => {
                self.ending = Some(ending);
                Turned::Stops
            }
        }
    }

    /// Does what the statement does next.
    #[inline(always)]
    pub(crate) fn act(&mut self, variables: &Variables, lined: &Lined, doing: Doing<F>) -> Turned<F>
        requires kinds { self.old.core.store.kinds ≡ kinds_of variables.now }
        requires placed { IsPlaced doing }
        requires hand { may_be_at lined.now.what self.old.stage ≡ true }
        requires closes { may_do lined.now.what doing ≡ true }
        requires room { HasRoom self.old.sent.items }
        ensures turn { (more : List Stated) (files : Files) (core : PlainCore) (book : List Held) (stage : PlainStage) (plain : PlainDoing)
            → held self.old.core.pending ≡ matched (map (λ (h : Held). h.pending) (held self.old.core.pending)) book
            → IsDoing F.told F.bytes variables.now (lined.now, control_by lined.now.what) (core_of files self.old.core) doing plain
            → IsTurn F.told F.bytes variables.now ((lined.now, control_by lined.now.what) ∷ more) files self.new result
            (turn_act (lined.now, control_by lined.now.what) plain
            (record (run_in variables.now ((lined.now, control_by lined.now.what) ∷ more) files self.old stage) { core = core; book = book })) }
        ensures keeps { Keeps self.old.core self.new.core }
        ensures may { may_be_at lined.now.what self.new.stage ≡ true }
        ensures starts { result ≡ Turned.Passes → self.new.stage ≡ Stage.Start }
        ensures files { HaveNext doing self.old.core.names self.old.core.units lined.now.what → HaveTurned result self.new lined.now.what }
        ensures counts { Counts result self.old self.new }
        ensures ends { Ends doing → DoesNotPause result }
        ensures next { self.new.core.next ≡ self.old.core.next }
        ensures units { self.new.core.units ≡ self.old.core.units }
        ensures spends { Spends (jobs_of doing (length self.old.core.units)) result self.new }
        ensures heard { self.new.told ≡ self.old.told }
    {
        match doing {
            Doing::Finishes(condition) => self.finish(variables, lined, condition),
            Doing::Gives { slot, job, next } => {
                let number = self.number_at(slot);
                self.submit(slot, job, Stage::Going { next, number })
            }
            Doing::Awaits { slot, job, then } => {
                let number = self.number_at(slot);
                self.submit(slot, job, Stage::Awaiting { slot, number, then })
            }
        }
    }

    /// Ends the halts at these slots from a place on, one after another, and then does what is the statement's own.
    pub(crate) fn resume<W: Sink, D: Disk<File = F>>(
        &mut self,
        alloc: Global,
        variables: &Variables,
        lined: &Lined,
        slots: Items<u32>,
        next: usize,
        condition: Condition,
        disk: &mut D,
        out: &mut W,
    ) -> Result<Turned<F>, Lost>
        requires kinds { self.old.core.store.kinds ≡ kinds_of variables.now }
        requires slots { AreSlots slots }
        requires names { D.tells disk.old → AreInUse self.old.core.names (D.held disk.old).in_use }
        requires hand { may_be_at lined.now.what self.old.stage ≡ true }
        requires room { HasRoom self.old.sent.items }
        ensures turn { D.tells disk.old → (more : List Stated) (stage : PlainStage)
            → IfOk result (λ t. IsTurn F.told F.bytes variables.now ((lined.now, control_by lined.now.what) ∷ more) (files_of (D.held disk.new)) self.new t
            (turn_act (lined.now, control_by lined.now.what)
            (ends_halts (drop next slots) (core_of (files_of (D.held disk.old)) self.old.core)
            (doing (control_by lined.now.what) variables.now lined.now.line (core_of (files_of (D.held disk.old)) self.old.core) lined.now.what condition))
            (run_in variables.now ((lined.now, control_by lined.now.what) ∷ more) (files_of (D.held disk.old)) self.old stage))) }
        ensures steps { Steps W.tells W.taken W.count D.tells D.held D.count D.refusals out.old disk.old self.old.core result out.new disk.new self.new.core }
        ensures fits { IsSoundStatement variables.now lined.now.what → HaveFiles self.old.core.names self.old.core.units → IsKept self.old.core → result ≢ Err Lost.Unfit }
        ensures holds { IsKept self.old.core → OnOk result (IsKept self.new.core) }
        ensures files { HaveFiles self.old.core.names self.old.core.units → IfOk result (λ t. HaveTurned t self.new lined.now.what) }
        ensures vain { HaveFiles self.old.core.names self.old.core.units → OnErr result (HaveFiles self.new.core.names self.new.core.units) }
        ensures counts { IfOk result (λ t. Counts t self.old self.new) }
        ensures units { self.new.core.units ≡ self.old.core.units }
        ensures spends { IfOk result (λ t. Spends ((length slots - next) + max (length self.old.core.units) 2) t self.new) }
        ensures heard { self.new.told ≡ self.old.told }
        ensures fails { D.tells disk.old → (more : List Stated) (stage : PlainStage)
            → FailsTurn W.tells W.taken out.old self.old.core result out.new self.new.core (D.held disk.new) (D.refusals disk.old) (D.refusals disk.new)
            (output_of (turn_act (lined.now, control_by lined.now.what)
            (ends_halts (drop next slots) (core_of (files_of (D.held disk.old)) self.old.core)
            (doing (control_by lined.now.what) variables.now lined.now.line (core_of (files_of (D.held disk.old)) self.old.core) lined.now.what condition))
            (run_in variables.now ((lined.now, control_by lined.now.what) ∷ more) (files_of (D.held disk.old)) self.old stage))) ⊥ (Unit {0}) (tells_of self.old.core.tells)
            (Some (ends_halts (drop next slots) (core_of (files_of (D.held disk.old)) self.old.core)
            (doing (control_by lined.now.what) variables.now lined.now.line (core_of (files_of (D.held disk.old)) self.old.core) lined.now.what condition))) (calls_disk lined.now.what ≡ true) }
        ensures may { may_be_at lined.now.what self.new.stage ≡ true }
        ensures starts { IfOk result (λ t. t ≡ Turned.Passes → self.new.stage ≡ Stage.Start) }
    {
        if let Some(slot) = slots.get(next) {
            let slot = *slot;
            let stage = Stage::Resuming {
                slots,
                next: next + 1,
                condition,
            };
            return Ok(self.submit(slot, Job::Resume, stage));
        }
        put_start(&mut self.stage);
        match begin(
            alloc,
            variables,
            lined,
            condition,
            &mut self.core,
            disk,
            out,
        ) {
            Ok(doing) => Ok(self.act(variables, lined, doing)),
            Err(lost) => Err(lost),
        }
    }
}
