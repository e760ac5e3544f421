// What a statement does once the transfers that it waits for are told.
ghost use Rattle.std.specs.Prelude.{◌≡◌, ◌↔◌, ◌≤◌, ◌≢◌, List, Some, None, IfOk, true, OnOk, OnErr, Err};
ghost use Rattle.fj_outside.specs.Faults.{Rose};
ghost use Rattle.fj_meaning.specs.Statement.{Stated, control_by};
ghost use Rattle.fj_meaning_jobs.specs.Acting.{doing, own, instead, moves, job_of, unit_at};
ghost use Rattle.fj_bay.specs.Plain.{task_of};
ghost use Rattle.fj_statement.specs.Sound.{IsSoundStatement};
ghost use Rattle.fj_statement.specs.declared.deck.Variable.{Variable};
ghost use Rattle.fj_meaning.specs.Needs.{number_of};
ghost use Rattle.fj_meaning.specs.State.{Files};
ghost use Rattle.fj_run_items.specs.Kinds.{kinds_of};
ghost use Rattle.fj_run_items.specs.Handing.{HandsOver, HandsFront, HandsPart};
ghost use Rattle.fj_run_units.specs.Names.{AreInUse};
ghost use Rattle.fj_statement.specs.declared.statement.Statement.{Statement as PlainStatement};
ghost use Rattle.fj_run_statements.specs.Calling.{calls_disk, may_do};
ghost use Rattle.fj_run_statements.specs.Placing.{IsPlaced};
ghost use Rattle.fj_run_statements.specs.Fitting.{IsKept};
ghost use Rattle.fj_run_statements.specs.State.{KeepsAnswers, KeepsPending, core_of, core_at};
ghost use Rattle.fj_run_statements.specs.Failing.{FailsWhere, StandsWhere, AreStill};
ghost use Rattle.fj_run_units.specs.Files.{files_of};
ghost use Rattle.fj_run_statements.specs.Doing.{IsDoing};
ghost use Rattle.fj_statement.specs.declared.statement.Statement.{Statement};
ghost use Rattle.fj_run_units.specs.Having.{HaveFiles};
ghost use Rattle.fj_run_statements.specs.Having.{HaveNext, name_brought};

use crate::closing::{close, close_all, close_anyway};
use crate::doing::{Doing, Then};
use crate::inquiry::{answer_none_pending, inquire};
use crate::opening::open;
use crate::state::Core;
use crate::transfers::{read_or_write, refuse};
use fj_bay::Job;
use fj_connect::Positioning;
use fj_modes::Motion;
use fj_outside::{Disk, FileStore, Sink};
use fj_run_items::{Lost, assign};
use fj_statement::{Lined, Statement, UnitRef, Variables};
use fj_value::Condition;
use std::alloc::Global;

/// The job of a statement that moves a connection, or flushes it.
fn job_of<F: FileStore>(how: Motion) -> Job<F>
    ensures task { task_of F.told F.bytes result ≡ Some (job_of how) }
    ensures brings { name_brought result ≡ None }
{
    match how {
        Motion::Flush => Job::Flush,
        Motion::Backspace => Job::Go(Positioning::Backspace),
        Motion::Rewind => Job::Go(Positioning::Rewind),
        Motion::Endfile => Job::Go(Positioning::Endfile),
    }
}

/// BACKSPACE, REWIND, ENDFILE and FLUSH (9.7, 9.8): 1 where the unit is not connected.
fn motion<F: FileStore>(how: Motion, unit: UnitRef, core: &Core) -> Doing<F>
    ensures doing { (variables : List Variable) (st : Stated) (files : Files) → IsDoing F.told F.bytes variables st (core_of files core.now) result
        (moves (core_of files core.now) how (unit_at (core_of files core.now) (number_of unit))) }
    ensures placed { IsPlaced result }
    ensures closes { (what : PlainStatement) → may_do what result ≡ true }
    ensures files { (what : Statement) → HaveFiles core.now.names core.now.units → HaveNext result core.now.names core.now.units what }
{
    match core.units.at(unit) {
        Some(unit) => Doing::Awaits {
            slot: unit.slot,
            job: job_of(how),
            then: Then::Finishes,
        },
        None => Doing::Finishes(Condition::NOT_CONNECTED),
    }
}

/// The statement's own action.
#[inline(always)]
fn own<W: Sink, D: Disk>(
    alloc: Global,
    variables: &Variables,
    lined: &Lined,
    core: &mut Core,
    disk: &mut D,
    out: &mut W,
) -> Result<Doing<D::File>, Lost>
    requires kinds { core.old.store.kinds ≡ kinds_of variables.now }
    requires names { D.tells disk.old → AreInUse core.old.names (D.held disk.old).in_use }
    ensures doing { D.tells disk.old → IfOk result (λ next. IsDoing D.File.told D.File.bytes variables.now (lined.now, control_by lined.now.what)
        (core_of (files_of (D.held disk.new)) core.new) next
        (own (control_by lined.now.what) variables.now lined.now.line (core_of (files_of (D.held disk.old)) core.old) lined.now.what)) }
    ensures fault { D.tells disk.old → result ≡ Err Lost.Disk → FailsWhere
        (own (control_by lined.now.what) variables.now lined.now.line (core_of (files_of (D.held disk.old)) core.old) lined.now.what)
        core.new (D.held disk.new) (D.refusals disk.old) (D.refusals disk.new) }
    ensures stays { D.tells disk.old → OnErr result (AreStill
        (own (control_by lined.now.what) variables.now lined.now.line (core_of (files_of (D.held disk.old)) core.old) lined.now.what)
        (D.held disk.old) (D.held disk.new)) }
    ensures own { D.tells disk.old → D.refusals disk.old ≤ D.refusals disk.new }
    ensures units { core.new.units ≡ core.old.units }
    ensures names { D.tells disk.old → AreInUse core.new.names (D.held disk.new).in_use }
    ensures kinds { core.new.store.kinds ≡ core.old.store.kinds }
    ensures telling { D.tells disk.old ↔ D.tells disk.new }
    ensures later { D.count disk.old ≤ D.count disk.new }
    ensures failed { result ≡ Err Lost.Disk → Rose (D.count disk.old) (D.count disk.new) }
    ensures telling_out { W.tells out.old ↔ W.tells out.new }
    ensures output { W.tells out.old → OnOk result (HandsOver (W.taken out.old) (W.taken out.new) core.old.output core.new.output) }
    ensures front { W.tells out.old → OnErr result (HandsFront (W.taken out.old) (W.taken out.new) core.old.output
        (core_at (own (control_by lined.now.what) variables.now lined.now.line (core_of (files_of (D.held disk.old)) core.old) lined.now.what)).output) }
    ensures part { W.tells out.old → result ≡ Err Lost.Sink → HandsPart (W.taken out.old) (W.taken out.new) core.old.output
        (core_at (own (control_by lined.now.what) variables.now lined.now.line (core_of (files_of (D.held disk.old)) core.old) lined.now.what)).output }
    ensures tells { core.new.tells ≡ core.old.tells }
    ensures still { result ≡ Err Lost.Disk → (out.new ≡ out.old) × (core.new.output ≡ core.old.output) }
    ensures later_out { W.count out.old ≤ W.count out.new }
    ensures failed_out { result ≡ Err Lost.Sink → Rose (W.count out.old) (W.count out.new) }
    ensures pending { KeepsAnswers core.old core.new }
    ensures same { KeepsPending core.old core.new }
    ensures keeps { IsKept core.old → OnOk result (IsKept core.new) }
    ensures fits { IsSoundStatement variables.now lined.now.what → HaveFiles core.old.names core.old.units → IsKept core.old → result ≢ Err Lost.Unfit }
    ensures placed { IfOk result IsPlaced }
    ensures closes { IfOk result (λ next. may_do lined.now.what next ≡ true) }
    ensures called { result ≡ Err Lost.Disk → calls_disk lined.now.what ≡ true }
    ensures files { HaveFiles core.old.names core.old.units → IfOk result (λ next. HaveNext next core.new.names core.new.units lined.now.what) }
    ensures vain { HaveFiles core.old.names core.old.units → OnErr result (HaveFiles core.new.names core.new.units) }
{
    let fine = Condition::Fine;
    match &lined.what {
        Statement::Assign { to, from } => {
            assign(alloc, variables, &mut core.store, to, from)?;
            Ok(Doing::Finishes(fine))
        }
        Statement::OpenUnit {
            unit,
            spec,
            iostat: _,
        } => open(alloc, *unit, spec, core, disk),
        Statement::CloseUnit {
            unit,
            keep,
            iostat: _,
        } => close(alloc, *unit, *keep, core),
        Statement::WaitFor {
            unit: _,
            id: _,
            iostat: _,
        } => Ok(Doing::Finishes(fine)),
        Statement::Move {
            how,
            unit,
            iostat: _,
        } => Ok(motion(*how, *unit, core)),
        Statement::Inquire {
            about,
            asked,
            id,
            iostat: _,
            done: _,
        } => { inquire(alloc, variables, about, asked, id.as_ref(), core, disk) }
        Statement::Transfer(t) => read_or_write(alloc, variables, lined.line, t, core, out),
        Statement::End => close_all(alloc, fine, core),
    }
}

/// What is done in its place where a condition was told.
fn instead<F: FileStore>(
    alloc: Global,
    variables: &Variables,
    lined: &Lined,
    condition: Condition,
    core: &mut Core,
) -> Result<Doing<F>, Lost>
    requires { core.old.store.kinds ≡ kinds_of variables.now }
    ensures doing { (files : Files) → IfOk result (λ next. IsDoing F.told F.bytes variables.now (lined.now, control_by lined.now.what)
        (core_of files core.new) next (instead variables.now (core_of files core.old) lined.now.what condition)) }
    ensures units { core.new.units ≡ core.old.units }
    ensures kinds { core.new.store.kinds ≡ core.old.store.kinds }
    ensures names { core.new.names ≡ core.old.names }
    ensures output { core.new.output ≡ core.old.output }
    ensures tells { core.new.tells ≡ core.old.tells }
    ensures causes { (result ≢ Err Lost.Disk) × (result ≢ Err Lost.Sink) }
    ensures pending { KeepsAnswers core.old core.new }
    ensures same { KeepsPending core.old core.new }
    ensures fits { IsSoundStatement variables.now lined.now.what → result ≢ Err Lost.Unfit }
    ensures placed { IfOk result IsPlaced }
    ensures closes { IfOk result (λ next. may_do lined.now.what next ≡ true) }
    ensures files { HaveFiles core.old.names core.old.units → IfOk result (λ next. HaveNext next core.new.names core.new.units lined.now.what) }
{
    match &lined.what {
        Statement::CloseUnit {
            unit,
            keep,
            iostat: _,
        } => { close_anyway(alloc, *unit, *keep, condition, core) }
        Statement::Inquire {
            about: _,
            asked,
            id: _,
            iostat: _,
            done: _,
        } => {
            answer_none_pending(variables, asked, &mut core.store);
            Ok(Doing::Finishes(condition))
        }
        Statement::Transfer(t) => refuse(variables, t, condition, core),
        Statement::End => close_all(alloc, condition, core),
        _ => Ok(Doing::Finishes(condition)),
    }
}

/// What the statement of a line does first where that condition was told: its own action where it is fine.
#[inline(always)]
pub fn begin<W: Sink, D: Disk>(
    alloc: Global,
    variables: &Variables,
    lined: &Lined,
    condition: Condition,
    core: &mut Core,
    disk: &mut D,
    out: &mut W,
) -> Result<Doing<D::File>, Lost>
    requires kinds { core.old.store.kinds ≡ kinds_of variables.now }
    requires names { D.tells disk.old → AreInUse core.old.names (D.held disk.old).in_use }
    ensures doing { D.tells disk.old → IfOk result (λ next. IsDoing D.File.told D.File.bytes variables.now (lined.now, control_by lined.now.what)
        (core_of (files_of (D.held disk.new)) core.new) next
        (doing (control_by lined.now.what) variables.now lined.now.line (core_of (files_of (D.held disk.old)) core.old) lined.now.what condition)) }
    ensures fault { D.tells disk.old → result ≡ Err Lost.Disk → FailsWhere
        (doing (control_by lined.now.what) variables.now lined.now.line (core_of (files_of (D.held disk.old)) core.old) lined.now.what condition)
        core.new (D.held disk.new) (D.refusals disk.old) (D.refusals disk.new) }
    ensures stands { D.tells disk.old → OnErr result (StandsWhere
        (doing (control_by lined.now.what) variables.now lined.now.line (core_of (files_of (D.held disk.old)) core.old) lined.now.what condition)
        core.new (D.held disk.new) (D.refusals disk.old) (D.refusals disk.new)) }
    ensures own { D.tells disk.old → D.refusals disk.old ≤ D.refusals disk.new }
    ensures units { core.new.units ≡ core.old.units }
    ensures names { D.tells disk.old → AreInUse core.new.names (D.held disk.new).in_use }
    ensures kinds { core.new.store.kinds ≡ core.old.store.kinds }
    ensures telling { D.tells disk.old ↔ D.tells disk.new }
    ensures later { D.count disk.old ≤ D.count disk.new }
    ensures failed { result ≡ Err Lost.Disk → Rose (D.count disk.old) (D.count disk.new) }
    ensures telling_out { W.tells out.old ↔ W.tells out.new }
    ensures output { W.tells out.old → OnOk result (HandsOver (W.taken out.old) (W.taken out.new) core.old.output core.new.output) }
    ensures front { W.tells out.old → OnErr result (HandsFront (W.taken out.old) (W.taken out.new) core.old.output
        (core_at (doing (control_by lined.now.what) variables.now lined.now.line (core_of (files_of (D.held disk.old)) core.old) lined.now.what condition)).output) }
    ensures part { W.tells out.old → result ≡ Err Lost.Sink → HandsPart (W.taken out.old) (W.taken out.new) core.old.output
        (core_at (doing (control_by lined.now.what) variables.now lined.now.line (core_of (files_of (D.held disk.old)) core.old) lined.now.what condition)).output }
    ensures tells { core.new.tells ≡ core.old.tells }
    ensures still { result ≡ Err Lost.Disk → (out.new ≡ out.old) × (core.new.output ≡ core.old.output) }
    ensures later_out { W.count out.old ≤ W.count out.new }
    ensures failed_out { result ≡ Err Lost.Sink → Rose (W.count out.old) (W.count out.new) }
    ensures pending { KeepsAnswers core.old core.new }
    ensures same { KeepsPending core.old core.new }
    ensures keeps { IsKept core.old → OnOk result (IsKept core.new) }
    ensures fits { IsSoundStatement variables.now lined.now.what → HaveFiles core.old.names core.old.units → IsKept core.old → result ≢ Err Lost.Unfit }
    ensures placed { IfOk result IsPlaced }
    ensures closes { IfOk result (λ next. may_do lined.now.what next ≡ true) }
    ensures called { result ≡ Err Lost.Disk → calls_disk lined.now.what ≡ true }
    ensures files { HaveFiles core.old.names core.old.units → IfOk result (λ next. HaveNext next core.new.names core.new.units lined.now.what) }
    ensures vain { HaveFiles core.old.names core.old.units → OnErr result (HaveFiles core.new.names core.new.units) }
{
    match condition {
        Condition::Fine => own(alloc, variables, lined, core, disk, out),
        _ => instead(alloc, variables, lined, condition, core),
    }
}
