// How a statement begins: prohibitions, then the transfers that it waits for are settled and told.
ghost use Rattle.std.specs.Prelude.{◌≡◌, ◌≢◌, ◌<◌, List, length, ◌∷◌, ◌++◌, not, map, filter, get_or, true, Some, IfOk, OnOk, OnErr, All, Err};
ghost use Rattle.fj_run_items.specs.Kinds.{kinds_of};
ghost use Rattle.fj_store.specs.Storage.{values_of};
ghost use Rattle.fj_meaning.specs.State.{Entry, Files};
ghost use Rattle.fj_statement.specs.declared.deck.Variable.{Variable};
ghost use Rattle.fj_meaning.specs.Statement.{Stated, control_by};
ghost use Rattle.fj_meaning.specs.Telling.{waited_in, condition_of, tells_id, tell_of};
ghost use Rattle.fj_meaning_jobs.specs.Core.{unit_named};
ghost use Rattle.fj_meaning_jobs.specs.Desks.{most_slots};
ghost use Rattle.fj_meaning_jobs.specs.Desking.{told_core};
ghost use Rattle.fj_meaning_turns.specs.Few.{most_jobs};
ghost use Rattle.fj_meaning_turns.specs.Run.{Stage as PlainStage, Start, Waiting};
ghost use Rattle.fj_meaning_turns.specs.Passing.{output_of};
ghost use Rattle.fj_meaning_turns.specs.Turns.{settles, doing_told, turn_tell, turn_wait, turn_begun};
ghost use Rattle.fj_run_pending.specs.Asks.{IsUnitAsked};
ghost use Rattle.fj_run_pending.specs.Plain.{held, entries, tells_of};
ghost use Rattle.fj_run_pending.specs.Taking.{LeavesSome};
ghost use Rattle.fj_run_pending.specs.Waits.{waited_of};
ghost use Rattle.fj_run_units.specs.Names.{AreInUse};
ghost use Rattle.fj_run_statements.specs.Calling.{calls_disk};
ghost use Rattle.fj_run_statements.specs.Fitting.{IsKept};
ghost use Rattle.fj_run_statements.specs.State.{core_of};
ghost use Rattle.fj_run_units.specs.Files.{files_of};
ghost use Rattle.fj_run_script.specs.Machine.{run_in, stage_of};
ghost use Rattle.fj_run_script.specs.Numbering.{AreSlots, OwnIsLast, OwnIsUntold, slots_behind};
ghost use Rattle.fj_run_script.specs.Passing.{are_passed, is_passed, is_waiting};
ghost use Rattle.fj_run_script.specs.Turned.{IsTurn};
ghost use Rattle.fj_run_script.specs.Stepping.{Keeps, Steps};
ghost use Rattle.fj_run_script.specs.Failing.{FailsTurn, FailsStage, StandsStill};
ghost use Rattle.fj_run_script.specs.Closing.{may_be_at};
ghost use Rattle.fj_run_units.specs.Having.{HaveFiles};
ghost use Rattle.fj_statement.specs.Sound.{IsSoundStatement};
ghost use Rattle.fj_run_script.specs.Fitting.{HasRoom};
ghost use Rattle.fj_run_script.specs.Spending.{Spends, jobs_at};
ghost use Rattle.fj_run_script.specs.Going.{Counts, HaveAt, HaveTurned};

use crate::ending::Ending;
use crate::halted::halted_slots;
use crate::stage::{Stage, put_stage, put_start};
use crate::state::State;
use crate::turned::Turned;
use fj_outside::{Disk, FileStore, Sink};
use fj_run_items::Lost;
use fj_run_pending::{Whose, check, is_idle, waits_for};
use fj_run_statements::Core;
use fj_run_units::Units;
use fj_statement::{Lined, Statement, Subject, Variables};
use fj_value::Condition;
use fj_world::Ask;
use std::alloc::{AllocError, Global};

/// The unit that the file of an INQUIRE is connected to.
pub(crate) fn unit_asked(units: &Units, statement: &Statement) -> Option<u32>
    ensures { IsUnitAsked result (unit_named units.now) statement.now }
{
    match statement {
        Statement::Inquire {
            about: Subject::File(name),
            asked: _,
            id: _,
            iostat: _,
            done: _,
        } => units.named(name),
        _ => None,
    }
}

/// Tells transfers at a line: their inputs are defined, and they are pending no more.
fn tell_all(
    alloc: Global,
    line: u32,
    whose: Whose,
    core: &mut Core,
) -> Result<Condition, AllocError>
    ensures condition { IfOk result (λ condition. condition ≡ condition_of (waited_of whose (entries core.old.pending))) }
    ensures core { (variables : List Variable) (files : Files) → core.old.store.kinds ≡ kinds_of variables
        → OnOk result (core_of files core.new ≡ told_core variables line (waited_of whose (entries core.old.pending)) (core_of files core.old)) }
    ensures left { OnOk result (held core.new.pending ≡ filter (λ h. not (tells_id (waited_of whose (entries core.old.pending)) h.pending.id)) (held core.old.pending)) }
    ensures some { LeavesSome core.old.pending core.new.pending }
    ensures next { core.new.next ≡ core.old.next }
    ensures units { core.new.units ≡ core.old.units }
    ensures keeps { Keeps core.old core.new }
{
    if is_idle(&core.pending, whose) {
        return Ok(Condition::Fine);
    }
    let store = &mut core.store;
    let tells = &mut core.tells;
    core.pending.tell(alloc, whose, line, store, tells)
}

impl<F: FileStore> State<F> {
    /// Tells the transfers that the statement waits for, and goes on.
    fn tell<W: Sink, D: Disk<File = F>>(
        &mut self,
        alloc: Global,
        variables: &Variables,
        lined: &Lined,
        whose: Whose,
        disk: &mut D,
        out: &mut W,
    ) -> Result<Turned<F>, Lost>
        requires kinds { self.old.core.store.kinds ≡ kinds_of variables.now }
        requires names { D.tells disk.old → AreInUse self.old.core.names (D.held disk.old).in_use }
        requires room { HasRoom self.old.sent.items }
        ensures turn { D.tells disk.old → (more : List Stated) (stage : PlainStage)
            → IfOk result (λ t. IsTurn F.told F.bytes variables.now ((lined.now, control_by lined.now.what) ∷ more) (files_of (D.held disk.new)) self.new t
            (turn_tell (lined.now, control_by lined.now.what) (waited_of whose (entries self.old.core.pending))
            (run_in variables.now ((lined.now, control_by lined.now.what) ∷ more) (files_of (D.held disk.old)) self.old stage))) }
        ensures steps { Steps W.tells W.taken W.count D.tells D.held D.count D.refusals out.old disk.old self.old.core result out.new disk.new self.new.core }
        ensures files { HaveFiles self.old.core.names self.old.core.units → IfOk result (λ t. HaveTurned t self.new lined.now.what) }
        ensures vain { HaveFiles self.old.core.names self.old.core.units → OnErr result (HaveFiles self.new.core.names self.new.core.units) }
        ensures counts { IfOk result (λ t. Counts t self.old self.new) }
        ensures units { self.new.core.units ≡ self.old.core.units }
        ensures holds { IsKept self.old.core → OnOk result (IsKept self.new.core) }
        ensures fits { IsSoundStatement variables.now lined.now.what → HaveFiles self.old.core.names self.old.core.units → IsKept self.old.core → result ≢ Err Lost.Unfit }
        ensures spends { IfOk result (λ t. Spends most_jobs t self.new) }
        ensures heard { self.new.told ≡ self.old.told }
        ensures fails { D.tells disk.old → (more : List Stated) (stage : PlainStage)
            → FailsTurn W.tells W.taken out.old self.old.core result out.new self.new.core (D.held disk.new) (D.refusals disk.old) (D.refusals disk.new)
            (output_of (turn_tell (lined.now, control_by lined.now.what) (waited_of whose (entries self.old.core.pending))
            (run_in variables.now ((lined.now, control_by lined.now.what) ∷ more) (files_of (D.held disk.old)) self.old stage)))
            (StandsStill (Unit {0}) (run_in variables.now ((lined.now, control_by lined.now.what) ∷ more) (files_of (D.held disk.old)) self.old stage) self.new.core (D.held disk.new)) (Unit {0})
            (tells_of self.old.core.tells ++ map (tell_of lined.now.line) (waited_of whose (entries self.old.core.pending)))
            (Some (doing_told variables.now (lined.now, control_by lined.now.what) (waited_of whose (entries self.old.core.pending)) (core_of (files_of (D.held disk.old)) self.old.core))) (calls_disk lined.now.what ≡ true) }
        ensures may { may_be_at lined.now.what self.new.stage ≡ true }
        ensures starts { IfOk result (λ t. t ≡ Turned.Passes → self.new.stage ≡ Stage.Start) }
    {
        put_start(&mut self.stage);
        let units = self.core.units.as_slice();
        let slots = match halted_slots(alloc, &self.core.pending, whose, units) {
            Ok(slots) => slots,
            Err(error) => return Err(Lost::Memory(error)),
        };
        match tell_all(alloc, lined.line, whose, &mut self.core) {
            Ok(condition) => {
                self.resume(alloc, variables, lined, slots, 0, condition, disk, out)
            }
            Err(error) => Err(Lost::Memory(error)),
        }
    }

    /// Waits for the next answer of a slot.
    #[inline(always)]
    pub(crate) fn settle(&mut self, slot: u32, stage: Stage<F>) -> Turned<F>
        requires passed { is_passed self.old.core.pending stage ≡ true }
        requires slot { slot < most_slots }
        requires own { OwnIsLast self.old.sent.items self.old.core.pending stage }
        requires own_untold { OwnIsUntold self.old.told.items stage }
        requires later { AreSlots (slots_behind stage) }
        requires owed { get_or self.old.told.items slot 0 < get_or self.old.sent.items slot 0 }
        requires waits { is_waiting stage ≡ true }
        ensures turn { (variables : List Variable) (rest : List Stated) (files : Files) (before after : PlainStage)
            → stage_of F.told F.bytes variables rest (core_of files self.old.core) stage ≡ Some after
            → IsTurn F.told F.bytes variables rest files self.new result (settles slot after (run_in variables rest files self.old before)) }
        ensures core { self.new.core ≡ self.old.core }
        ensures stage { self.new.stage ≡ stage }
        ensures pauses { result ≢ Turned.Passes }
        ensures files { (what : Statement) → HaveAt stage self.old.core.names self.old.core.units what → HaveTurned result self.new what }
        ensures counts { Counts result self.old self.new }
        ensures spends { Spends (jobs_at stage (length self.old.core.units)) result self.new }
        ensures heard { self.new.told ≡ self.old.told }
    {
        put_stage(&mut self.stage, stage);
        self.due = slot;
        Turned::Pauses(Ask::Settle { slot })
    }

    /// Waits for the answers of these transfers, from a place of them on; where all have theirs, tells them.
    fn wait_for<W: Sink, D: Disk<File = F>>(
        &mut self,
        alloc: Global,
        variables: &Variables,
        lined: &Lined,
        whose: Whose,
        from: usize,
        disk: &mut D,
        out: &mut W,
    ) -> Result<Turned<F>, Lost>
        requires kinds { self.old.core.store.kinds ≡ kinds_of variables.now }
        requires names { D.tells disk.old → AreInUse self.old.core.names (D.held disk.old).in_use }
        requires room { HasRoom self.old.sent.items }
        requires whose { (es : List Entry) → waited_of whose es ≡ waited_in es (values_of self.old.core.store) lined.now.what }
        requires from { are_passed self.old.core.pending whose from ≡ true }
        ensures turn { D.tells disk.old → (more : List Stated) (stage : PlainStage)
            → IfOk result (λ t. IsTurn F.told F.bytes variables.now ((lined.now, control_by lined.now.what) ∷ more) (files_of (D.held disk.new)) self.new t
            (turn_wait (lined.now, control_by lined.now.what)
            (run_in variables.now ((lined.now, control_by lined.now.what) ∷ more) (files_of (D.held disk.old)) self.old stage))) }
        ensures steps { Steps W.tells W.taken W.count D.tells D.held D.count D.refusals out.old disk.old self.old.core result out.new disk.new self.new.core }
        ensures files { HaveFiles self.old.core.names self.old.core.units → IfOk result (λ t. HaveTurned t self.new lined.now.what) }
        ensures vain { HaveFiles self.old.core.names self.old.core.units → OnErr result (HaveFiles self.new.core.names self.new.core.units) }
        ensures counts { IfOk result (λ t. Counts t self.old self.new) }
        ensures units { self.new.core.units ≡ self.old.core.units }
        ensures holds { IsKept self.old.core → OnOk result (IsKept self.new.core) }
        ensures fits { IsSoundStatement variables.now lined.now.what → HaveFiles self.old.core.names self.old.core.units → IsKept self.old.core → result ≢ Err Lost.Unfit }
        ensures spends { IfOk result (λ t. Spends most_jobs t self.new) }
        ensures heard { self.new.told ≡ self.old.told }
        ensures fails { D.tells disk.old → (more : List Stated) (stage : PlainStage)
            → FailsStage W.tells W.taken out.old self.old.core result out.new self.new.core (D.held disk.new) (D.refusals disk.old) (D.refusals disk.new) (lined.now, control_by lined.now.what) Waiting
            (run_in variables.now ((lined.now, control_by lined.now.what) ∷ more) (files_of (D.held disk.old)) self.old stage) }
        ensures may { may_be_at lined.now.what self.new.stage ≡ true }
        ensures starts { IfOk result (λ t. t ≡ Turned.Passes → self.new.stage ≡ Stage.Start) }
    {
        match self.core.pending.next_unsettled(whose, from) {
            Some((from, slot)) => Ok(self.settle(slot, Stage::Waiting { whose, from })),
            None => self.tell(alloc, variables, lined, whose, disk, out),
        }
    }

    /// Waits for the answers of the transfers that the statement tells. Of those the ones before a place are known to have theirs.
    pub(crate) fn wait<W: Sink, D: Disk<File = F>>(
        &mut self,
        alloc: Global,
        variables: &Variables,
        lined: &Lined,
        known: Whose,
        from: usize,
        disk: &mut D,
        out: &mut W,
    ) -> Result<Turned<F>, Lost>
        requires kinds { self.old.core.store.kinds ≡ kinds_of variables.now }
        requires names { D.tells disk.old → AreInUse self.old.core.names (D.held disk.old).in_use }
        requires room { HasRoom self.old.sent.items }
        requires passed { are_passed self.old.core.pending known from ≡ true }
        ensures turn { D.tells disk.old → (more : List Stated) (stage : PlainStage)
            → IfOk result (λ t. IsTurn F.told F.bytes variables.now ((lined.now, control_by lined.now.what) ∷ more) (files_of (D.held disk.new)) self.new t
            (turn_wait (lined.now, control_by lined.now.what)
            (run_in variables.now ((lined.now, control_by lined.now.what) ∷ more) (files_of (D.held disk.old)) self.old stage))) }
        ensures steps { Steps W.tells W.taken W.count D.tells D.held D.count D.refusals out.old disk.old self.old.core result out.new disk.new self.new.core }
        ensures files { HaveFiles self.old.core.names self.old.core.units → IfOk result (λ t. HaveTurned t self.new lined.now.what) }
        ensures vain { HaveFiles self.old.core.names self.old.core.units → OnErr result (HaveFiles self.new.core.names self.new.core.units) }
        ensures counts { IfOk result (λ t. Counts t self.old self.new) }
        ensures units { self.new.core.units ≡ self.old.core.units }
        ensures holds { IsKept self.old.core → OnOk result (IsKept self.new.core) }
        ensures fits { IsSoundStatement variables.now lined.now.what → HaveFiles self.old.core.names self.old.core.units → IsKept self.old.core → result ≢ Err Lost.Unfit }
        ensures spends { IfOk result (λ t. Spends most_jobs t self.new) }
        ensures heard { self.new.told ≡ self.old.told }
        ensures fails { D.tells disk.old → (more : List Stated) (stage : PlainStage)
            → FailsStage W.tells W.taken out.old self.old.core result out.new self.new.core (D.held disk.new) (D.refusals disk.old) (D.refusals disk.new) (lined.now, control_by lined.now.what) Waiting
            (run_in variables.now ((lined.now, control_by lined.now.what) ∷ more) (files_of (D.held disk.old)) self.old stage) }
        ensures may { may_be_at lined.now.what self.new.stage ≡ true }
        ensures starts { IfOk result (λ t. t ≡ Turned.Passes → self.new.stage ≡ Stage.Start) }
    {
        let whose = waits_for(&lined.what, &self.core.store);
        let from = if whose == known { from } else { 0 };
        self.wait_for(alloc, variables, lined, whose, from, disk, out)
    }

    /// Begins the statement: a prohibition that it breaks stops the deck.
    pub(crate) fn start<W: Sink, D: Disk<File = F>>(
        &mut self,
        alloc: Global,
        variables: &Variables,
        lined: &Lined,
        disk: &mut D,
        out: &mut W,
    ) -> Result<Turned<F>, Lost>
        requires kinds { self.old.core.store.kinds ≡ kinds_of variables.now }
        requires names { D.tells disk.old → AreInUse self.old.core.names (D.held disk.old).in_use }
        requires hand { may_be_at lined.now.what self.old.stage ≡ true }
        requires room { HasRoom self.old.sent.items }
        ensures turn { D.tells disk.old → (more : List Stated) (stage : PlainStage)
            → IfOk result (λ t. IsTurn F.told F.bytes variables.now ((lined.now, control_by lined.now.what) ∷ more) (files_of (D.held disk.new)) self.new t
            (turn_begun (lined.now, control_by lined.now.what)
            (run_in variables.now ((lined.now, control_by lined.now.what) ∷ more) (files_of (D.held disk.old)) self.old stage))) }
        ensures steps { Steps W.tells W.taken W.count D.tells D.held D.count D.refusals out.old disk.old self.old.core result out.new disk.new self.new.core }
        ensures files { HaveFiles self.old.core.names self.old.core.units → IfOk result (λ t. HaveTurned t self.new lined.now.what) }
        ensures vain { HaveFiles self.old.core.names self.old.core.units → OnErr result (HaveFiles self.new.core.names self.new.core.units) }
        ensures counts { IfOk result (λ t. Counts t self.old self.new) }
        ensures units { self.new.core.units ≡ self.old.core.units }
        ensures holds { IsKept self.old.core → OnOk result (IsKept self.new.core) }
        ensures fits { IsSoundStatement variables.now lined.now.what → HaveFiles self.old.core.names self.old.core.units → IsKept self.old.core → result ≢ Err Lost.Unfit }
        ensures spends { IfOk result (λ t. Spends most_jobs t self.new) }
        ensures heard { self.new.told ≡ self.old.told }
        ensures fails { D.tells disk.old → (more : List Stated) (stage : PlainStage)
            → FailsStage W.tells W.taken out.old self.old.core result out.new self.new.core (D.held disk.new) (D.refusals disk.old) (D.refusals disk.new) (lined.now, control_by lined.now.what) Start
            (run_in variables.now ((lined.now, control_by lined.now.what) ∷ more) (files_of (D.held disk.old)) self.old stage) }
        ensures may { may_be_at lined.now.what self.new.stage ≡ true }
        ensures starts { IfOk result (λ t. t ≡ Turned.Passes → self.new.stage ≡ Stage.Start) }
    {
        let named = unit_asked(&self.core.units, &lined.what);
        let broken = check(
            variables.as_slice(),
            &self.core.store,
            &self.core.pending,
            named,
            &lined.what,
        );
        match broken {
            None => self.wait(alloc, variables, lined, Whose::None, 0, disk, out),
            Some(rule) => {
                put_stage(&mut self.stage, Stage::Start);
                self.ending = Some(Ending::Prohibited {
                    line: lined.line,
                    rule,
                });
                Ok(Turned::Stops)
            }
        }
    }
}
