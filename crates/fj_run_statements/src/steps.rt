// How a statement goes on from a job that it gave.
ghost use Rattle.std.specs.Prelude.{◌<◌, ◌≡◌, ◌≢◌, ◌↔◌, ◌≤◌, ◌-◌, ℕ, true, length, All, Some, IfOk, IfSome, OnErr, Err};
ghost use Rattle.std.specs.Option.{option_map};
ghost use Rattle.fj_outside.specs.Faults.{Rose};
ghost use Rattle.fj_outside.specs.Holdings.{Holdings};
ghost use Rattle.fj_bay.specs.Jobs.{Job as Task, Answer as PlainAnswer};
ghost use Rattle.fj_bay.specs.Jobs as job;
ghost use Rattle.fj_bay.specs.Plain.{told_of, task_of, reply_of, looked_of};
ghost use Rattle.fj_connect.specs.Connection.{Connection as PlainConnection};
ghost use Rattle.fj_meaning.specs.State.{Files};
ghost use Rattle.fj_run_pending.specs.Plain.{brought_of};
ghost use Rattle.fj_meaning.specs.Statement.{control_by};
ghost use Rattle.fj_meaning_jobs.specs.Core.{connected_at};
ghost use Rattle.fj_meaning_jobs.specs.Desks.{Outcome, brought_by, look_in};
ghost use Rattle.fj_run_items.specs.Kinds.{kinds_of};
ghost use Rattle.fj_run_units.specs.Names.{AreInUse};
ghost use Rattle.fj_meaning_jobs.specs.Desks.{most_slots};
ghost use Rattle.fj_statement.specs.declared.statement.Statement.{Statement as PlainStatement};
ghost use Rattle.fj_run_statements.specs.Calling.{may_await, may_close, may_do};
ghost use Rattle.fj_run_statements.specs.Placing.{IsPlaced, slot_behind};
ghost use Rattle.fj_run_statements.specs.Jobs.{GivesOne, jobs_after, jobs_behind, jobs_of};
ghost use Rattle.fj_run_statements.specs.Fitting.{MayGoOn};
ghost use Rattle.fj_run_statements.specs.Holding.{MayEnter};
ghost use Rattle.fj_run_statements.specs.State.{KeepsAnswers, KeepsPending, core_of};
ghost use Rattle.fj_run_statements.specs.Failing.{AreStill, FailsWhere, StandsWhere};
ghost use Rattle.fj_run_units.specs.Files.{files_of};
ghost use Rattle.fj_run_statements.specs.Steps.{held_in, is_due, looked_in};
ghost use Rattle.fj_run_statements.specs.Doing.{Ends, IsDoing, next_of, then_of, goes_on, closed, carries, looks};
ghost use Rattle.fj_run_units.specs.Having.{HaveFiles};
ghost use Rattle.fj_run_statements.specs.Having.{HaveNext, HaveThen, IsFreeNext};

use crate::brought::{condition_in, told_by};
use crate::closing::close_all;
use crate::doing::{After, Doing, Given, Then};
use crate::inquiry::answer_look;
use crate::opening::connect;
use crate::state::Core;
use crate::transfers::{carry, enter};
use fj_bay::{Answer, Job};
use fj_connect::{Connection, Look};
use fj_modes::settle_open;
use fj_outside::{Disk, FileStore};
use fj_run_items::Lost;
use fj_run_pending::Told;
use fj_statement::{Lined, Statement, Variables};
use fj_value::Condition;
use std::alloc::{AllocError, Global};

/// How the statement of a line goes on once it has the number of the job that it gave.
pub fn given<F: FileStore>(
    alloc: Global,
    variables: &Variables,
    lined: &Lined,
    next: Given,
    number: u64,
    core: &mut Core,
) -> Result<Doing<F>, Lost>
    requires { core.old.store.kinds ≡ kinds_of variables.now }
    ensures doing { (files : Files) → IfOk result (λ goes. IsDoing F.told F.bytes variables.now (lined.now, control_by lined.now.what)
        (core_of files core.new) goes (next_of variables.now (lined.now, control_by lined.now.what) (core_of files core.old) next number)) }
    ensures stands { (held : Holdings) (before now : ℕ) → OnErr result (StandsWhere
        (next_of variables.now (lined.now, control_by lined.now.what) (core_of (files_of held) core.old) next number) core.new held before now) }
    ensures units { core.new.units ≡ core.old.units }
    ensures names { core.new.names ≡ core.old.names }
    ensures output { core.new.output ≡ core.old.output }
    ensures tells { core.new.tells ≡ core.old.tells }
    ensures kinds { core.new.store.kinds ≡ core.old.store.kinds }
    ensures causes { (result ≢ Err Lost.Disk) × (result ≢ Err Lost.Sink) }
    ensures pending { KeepsAnswers core.old core.new }
    ensures enters { MayEnter next number core.old core.new }
    ensures fits { MayGoOn core.old next number → result ≢ Err Lost.Unfit }
    ensures placed { IfOk result IsPlaced }
    ensures closes { IfOk result (λ next. may_do lined.now.what next ≡ true) }
    ensures ends { IfOk result Ends }
    ensures files { HaveFiles core.old.names core.old.units → IfOk result (λ next. HaveNext next core.new.names core.new.units lined.now.what) }
{
    match next {
        Given::Finishes(condition) => Ok(Doing::Finishes(condition)),
        Given::Pends { unit, slot } => {
            if let Statement::Transfer(t) = &lined.what {
                enter(alloc, variables, t, unit, slot, number, core)?;
            }
            Ok(Doing::Finishes(Condition::Fine))
        }
    }
}

/// How a statement goes on once a connection is closed.
fn go_on<D: Disk>(
    alloc: Global,
    variables: &Variables,
    lined: &Lined,
    after: After,
    core: &mut Core,
    disk: &mut D,
) -> Result<Doing<D::File>, Lost>
    requires names { D.tells disk.old → AreInUse core.old.names (D.held disk.old).in_use }
    ensures doing { D.tells disk.old → IfOk result (λ goes. IsDoing D.File.told D.File.bytes variables.now (lined.now, control_by lined.now.what)
        (core_of (files_of (D.held disk.new)) core.new) goes (goes_on lined.now.what (core_of (files_of (D.held disk.old)) core.old) after)) }
    ensures fault { D.tells disk.old → result ≡ Err Lost.Disk → FailsWhere
        (goes_on lined.now.what (core_of (files_of (D.held disk.old)) core.old) after)
        core.new (D.held disk.new) (D.refusals disk.old) (D.refusals disk.new) }
    ensures stays { D.tells disk.old → OnErr result (AreStill (goes_on lined.now.what (core_of (files_of (D.held disk.old)) core.old) after) (D.held disk.old) (D.held disk.new)) }
    ensures units { core.new.units ≡ core.old.units }
    ensures own { D.tells disk.old → D.refusals disk.old ≤ D.refusals disk.new }
    ensures names { D.tells disk.old → AreInUse core.new.names (D.held disk.new).in_use }
    ensures store { core.new.store ≡ core.old.store }
    ensures output { core.new.output ≡ core.old.output }
    ensures tells { core.new.tells ≡ core.old.tells }
    ensures telling { D.tells disk.old ↔ D.tells disk.new }
    ensures later { D.count disk.old ≤ D.count disk.new }
    ensures failed { result ≡ Err Lost.Disk → Rose (D.count disk.old) (D.count disk.new) }
    ensures sink { result ≢ Err Lost.Sink }
    ensures pending { core.new.pending ≡ core.old.pending }
    ensures next { core.new.next ≡ core.old.next }
    ensures fits { IsFreeNext after lined.now.what core.old.units → HaveFiles core.old.names core.old.units → result ≢ Err Lost.Unfit }
    ensures placed { IfOk result IsPlaced }
    ensures jobs { IfOk result (λ goes. jobs_of goes (length core.new.units) ≤ jobs_after after (length core.old.units)) }
    ensures files { IsFreeNext after lined.now.what core.old.units → HaveFiles core.old.names core.old.units
        → IfOk result (λ goes. HaveNext goes core.new.names core.new.units lined.now.what) }
    ensures vain { HaveFiles core.old.names core.old.units → OnErr result (HaveFiles core.new.names core.new.units) }
{
    let number = match after {
        After::Finishes(condition) => return Ok(Doing::Finishes(condition)),
        After::ClosesAll(condition) => return close_all(alloc, condition, core),
        After::Connects { number } => number,
    };
    let Statement::OpenUnit {
        unit: _,
        spec,
        iostat: _,
    } = &lined.what
    else {
        return Ok(Doing::Finishes(Condition::Fine));
    };
    match settle_open(spec) {
        Ok(modes) => connect(alloc, number, spec, modes, core, disk),
        Err(condition) => Ok(Doing::Finishes(condition)),
    }
}

/// The connection that a job took out, if it took one.
fn connection_in<F: FileStore>(job: Job<F>) -> Option<Connection<F>>
    ensures { result ≡ held_in job }
{
    match job {
        Job::Detach(place) => place.into_inner(),
        _ => None,
    }
}

/// Whether a connection is that of the unit of a number.
fn is_due<F: FileStore>(connection: &Connection<F>, number: u32, core: &Core) -> bool
    ensures { result ≡ is_due (connected_at core.now.units number) connection.now.name }
{
    match core.units.find(number) {
        Some(unit) => connection.name().as_str() == unit.name.as_str(),
        None => false,
    }
}

/// The connection of a unit is closed, and the statement goes on. Another one is let go, and the unit counts as not connected (1).
/// `Unfit`: the name of the unit's file is not kept as one that is out.
fn closed<D: Disk>(
    alloc: Global,
    variables: &Variables,
    lined: &Lined,
    number: u32,
    keep: bool,
    after: After,
    connection: Connection<D::File>,
    core: &mut Core,
    disk: &mut D,
) -> Result<Doing<D::File>, Lost>
    requires names { D.tells disk.old → AreInUse core.old.names (D.held disk.old).in_use }
    ensures doing { D.tells disk.old → (c : PlainConnection) (answer : PlainAnswer) → told_of D.File.told D.File.bytes connection ≡ Some c →
        IfOk result (λ goes. IsDoing D.File.told D.File.bytes variables.now (lined.now, control_by lined.now.what)
        (core_of (files_of (D.held disk.new)) core.new) goes
        (closed (core_of (files_of (D.held disk.old)) core.old) (connected_at core.old.units number) keep (λ new. goes_on lined.now.what new after) (job.detach (Some c), answer))) }
    ensures fault { D.tells disk.old → (c : PlainConnection) (answer : PlainAnswer) → told_of D.File.told D.File.bytes connection ≡ Some c →
        result ≡ Err Lost.Disk → FailsWhere
        (closed (core_of (files_of (D.held disk.old)) core.old) (connected_at core.old.units number) keep (λ new. goes_on lined.now.what new after) (job.detach (Some c), answer))
        core.new (D.held disk.new) (D.refusals disk.old) (D.refusals disk.new) }
    ensures stands { D.tells disk.old → (c : PlainConnection) (answer : PlainAnswer) → told_of D.File.told D.File.bytes connection ≡ Some c →
        result ≢ Err Lost.Unfit → OnErr result (StandsWhere
        (closed (core_of (files_of (D.held disk.old)) core.old) (connected_at core.old.units number) keep (λ new. goes_on lined.now.what new after) (job.detach (Some c), answer))
        core.new (D.held disk.new) (D.refusals disk.old) (D.refusals disk.new)) }
    ensures own { D.tells disk.old → D.refusals disk.old ≤ D.refusals disk.new }
    ensures names { D.tells disk.old → AreInUse core.new.names (D.held disk.new).in_use }
    ensures store { core.new.store ≡ core.old.store }
    ensures output { core.new.output ≡ core.old.output }
    ensures tells { core.new.tells ≡ core.old.tells }
    ensures telling { D.tells disk.old ↔ D.tells disk.new }
    ensures later { D.count disk.old ≤ D.count disk.new }
    ensures failed { result ≡ Err Lost.Disk → Rose (D.count disk.old) (D.count disk.new) }
    ensures sink { result ≢ Err Lost.Sink }
    ensures pending { core.new.pending ≡ core.old.pending }
    ensures next { core.new.next ≡ core.old.next }
    ensures fits { HaveThen (Then.Closes number keep after) core.old.names core.old.units lined.now.what → result ≢ Err Lost.Unfit }
    ensures placed { IfOk result IsPlaced }
    ensures jobs { IfOk result (λ goes. jobs_of goes (length core.new.units) ≤ jobs_after after (length core.old.units - 1)) }
    ensures files { HaveThen (Then.Closes number keep after) core.old.names core.old.units lined.now.what → IfOk result (λ goes. HaveNext goes core.new.names core.new.units lined.now.what) }
    ensures vain { HaveThen (Then.Closes number keep after) core.old.names core.old.units lined.now.what → OnErr result (HaveFiles core.new.names core.new.units) }
{
    if !is_due(&connection, number, core) {
        return Ok(Doing::Finishes(Condition::NOT_CONNECTED));
    }
    if !core.names.holds(connection.name()) {
        return Err(Lost::Unfit);
    }
    core.names.remove(connection.name());
    core.units.remove(number);
    match connection.close_file(disk, keep) {
        Ok(()) => go_on(alloc, variables, lined, after, core, disk),
        Err(_) => Err(Lost::Disk),
    }
}

/// INQUIRE has its look at the connection.
fn looked<F: FileStore>(
    alloc: Global,
    variables: &Variables,
    lined: &Lined,
    look: Option<Look>,
    core: &mut Core,
) -> Result<Doing<F>, AllocError>
    requires { core.old.store.kinds ≡ kinds_of variables.now }
    ensures doing { (files : Files) (o : Outcome) → option_map looked_of look ≡ look_in o.0 → IfOk result (λ goes. IsDoing F.told F.bytes variables.now (lined.now, control_by lined.now.what)
        (core_of files core.new) goes (looks variables.now (core_of files core.old) lined.now.what o)) }
    ensures units { core.new.units ≡ core.old.units }
    ensures names { core.new.names ≡ core.old.names }
    ensures output { core.new.output ≡ core.old.output }
    ensures tells { core.new.tells ≡ core.old.tells }
    ensures kinds { core.new.store.kinds ≡ core.old.store.kinds }
    ensures pending { KeepsAnswers core.old core.new }
    ensures same { KeepsPending core.old core.new }
    ensures placed { IfOk result IsPlaced }
    ensures ends { IfOk result Ends }
    ensures closes { (what : PlainStatement) → IfOk result (λ next. may_do what next ≡ true) }
    ensures files { HaveFiles core.old.names core.old.units → IfOk result (λ next. HaveNext next core.new.names core.new.units lined.now.what) }
{
    match &lined.what {
        Statement::Inquire {
            about,
            asked,
            id,
            iostat: _,
            done: _,
        } => { answer_look(alloc, variables, about, asked, id.as_ref(), look, core) }
        _ => Ok(Doing::Finishes(Condition::Fine)),
    }
}

/// The items of a transfer come back.
#[inline(always)]
fn carried<F: FileStore>(
    variables: &Variables,
    lined: &Lined,
    slot: u32,
    told: Told,
    core: &mut Core,
) -> Doing<F>
    requires { core.old.store.kinds ≡ kinds_of variables.now }
    ensures doing { (files : Files) (o : Outcome) → brought_of told ≡ brought_by o → IsDoing F.told F.bytes variables.now (lined.now, control_by lined.now.what)
        (core_of files core.new) result (carries variables.now (core_of files core.old) lined.now.what slot o) }
    ensures units { core.new.units ≡ core.old.units }
    ensures names { core.new.names ≡ core.old.names }
    ensures output { core.new.output ≡ core.old.output }
    ensures tells { core.new.tells ≡ core.old.tells }
    ensures kinds { core.new.store.kinds ≡ core.old.store.kinds }
    ensures pending { KeepsAnswers core.old core.new }
    ensures same { KeepsPending core.old core.new }
    ensures placed { slot < most_slots → IsPlaced result }
    ensures jobs { GivesOne result }
    ensures closes { (what : PlainStatement) → may_do what result ≡ true }
    ensures files { HaveFiles core.old.names core.old.units → HaveNext result core.new.names core.new.units lined.now.what }
{
    match &lined.what {
        Statement::Transfer(t) => carry(variables, t, slot, told, core),
        _ => Doing::Finishes(Condition::Fine),
    }
}

/// The look of a job at a connection, if it has one.
fn look_in<F: FileStore>(job: Job<F>) -> Option<Look>
    ensures { result ≡ looked_in job }
{
    match job {
        Job::Look(look) => look.into_inner(),
        _ => None,
    }
}

/// How the statement of a line goes on once its job came back with an answer.
#[inline(always)]
pub fn answered<D: Disk>(
    alloc: Global,
    variables: &Variables,
    lined: &Lined,
    then: Then,
    job: Job<D::File>,
    answer: Answer,
    core: &mut Core,
    disk: &mut D,
) -> Result<Doing<D::File>, Lost>
    requires kinds { core.old.store.kinds ≡ kinds_of variables.now }
    requires names { D.tells disk.old → AreInUse core.old.names (D.held disk.old).in_use }
    ensures doing { D.tells disk.old → (task : Task) → task_of D.File.told D.File.bytes job ≡ Some task →
        IfOk result (λ goes. IsDoing D.File.told D.File.bytes variables.now (lined.now, control_by lined.now.what)
        (core_of (files_of (D.held disk.new)) core.new) goes
        (then_of variables.now (lined.now, control_by lined.now.what) (core_of (files_of (D.held disk.old)) core.old) then (task, reply_of answer))) }
    ensures fault { D.tells disk.old → (task : Task) → task_of D.File.told D.File.bytes job ≡ Some task → result ≡ Err Lost.Disk → FailsWhere
        (then_of variables.now (lined.now, control_by lined.now.what) (core_of (files_of (D.held disk.old)) core.old) then (task, reply_of answer))
        core.new (D.held disk.new) (D.refusals disk.old) (D.refusals disk.new) }
    ensures stands { D.tells disk.old → (task : Task) → task_of D.File.told D.File.bytes job ≡ Some task → result ≢ Err Lost.Unfit → OnErr result (StandsWhere
        (then_of variables.now (lined.now, control_by lined.now.what) (core_of (files_of (D.held disk.old)) core.old) then (task, reply_of answer))
        core.new (D.held disk.new) (D.refusals disk.old) (D.refusals disk.new)) }
    ensures own { D.tells disk.old → D.refusals disk.old ≤ D.refusals disk.new }
    ensures names { D.tells disk.old → AreInUse core.new.names (D.held disk.new).in_use }
    ensures output { core.new.output ≡ core.old.output }
    ensures tells { core.new.tells ≡ core.old.tells }
    ensures kinds { core.new.store.kinds ≡ core.old.store.kinds }
    ensures telling { D.tells disk.old ↔ D.tells disk.new }
    ensures later { D.count disk.old ≤ D.count disk.new }
    ensures failed { result ≡ Err Lost.Disk → Rose (D.count disk.old) (D.count disk.new) }
    ensures sink { result ≢ Err Lost.Sink }
    ensures pending { KeepsAnswers core.old core.new }
    ensures same { KeepsPending core.old core.new }
    ensures fits { HaveThen then core.old.names core.old.units lined.now.what → result ≢ Err Lost.Unfit }
    ensures placed { slot_behind then < most_slots → IfOk result IsPlaced }
    ensures jobs { IfOk result (λ goes. jobs_of goes (length core.new.units) ≤ jobs_behind then (length core.old.units)) }
    ensures closes { may_await lined.now.what then ≡ true → IfOk result (λ next. may_do lined.now.what next ≡ true) }
    ensures called { may_await lined.now.what then ≡ true → result ≡ Err Lost.Disk → may_close lined.now.what ≡ true }
    ensures files { HaveThen then core.old.names core.old.units lined.now.what → IfOk result (λ goes. HaveNext goes core.new.names core.new.units lined.now.what) }
    ensures vain { HaveThen then core.old.names core.old.units lined.now.what → OnErr result (HaveFiles core.new.names core.new.units) }
{
    let condition = condition_in(answer);
    match then {
        Then::Finishes => Ok(Doing::Finishes(condition)),
        Then::Carries { slot } => {
            let told = told_by(job, answer);
            Ok(carried(variables, lined, slot, told, core))
        }
        Then::Closes {
            number,
            keep,
            after,
        } => {
            let Some(connection) = connection_in(job) else {
                return Ok(Doing::Finishes(Condition::NOT_CONNECTED));
            };
            closed(
                alloc, variables, lined, number, keep, after, connection, core, disk,
            )
        }
        Then::Changes { number, modes } => {
            core.units.set_modes(number, modes);
            Ok(Doing::Finishes(condition))
        }
        Then::Attaches(units) => {
            core.units = units;
            Ok(Doing::Finishes(condition))
        }
        Then::Looks => Ok(looked(alloc, variables, lined, look_in(job), core)?),
    }
}
