// CLOSE, and END, which closes all units (ISO/IEC 1539-1:2004, 9.4.6).
ghost use Rattle.std.specs.Prelude.{◌≡◌, ◌≢◌, ◌≤◌, ℕ, List, None, Some, Err, IfOk, length};
ghost use Rattle.std.specs.Option.{option_copied, option_map};
ghost use Rattle.fj_statement.specs.declared.deck.Variable.{Variable};
ghost use Rattle.fj_bay.specs.declared.job.Job.TheVariants as job;
ghost use Rattle.fj_meaning.specs.Needs.{number_of};
ghost use Rattle.fj_meaning.specs.State.{Files};
ghost use Rattle.fj_meaning.specs.Statement.{Stated};
ghost use Rattle.fj_meaning_jobs.specs.Acting.{all_closed, closes, closes_anyway, unit_at};
ghost use Rattle.fj_run_statements.specs.Placing.{IsPlaced};
ghost use Rattle.fj_run_statements.specs.Jobs.{jobs_of};
ghost use Rattle.fj_run_statements.specs.State.{core_of};
ghost use Rattle.fj_run_statements.specs.Doing.{IsDoing};
ghost use Rattle.fj_statement.specs.declared.statement.Statement.{Statement};
ghost use Rattle.fj_run_units.specs.Having.{HaveFiles};
ghost use Rattle.fj_run_statements.specs.Having.{HaveNext};

use crate::doing::{After, Doing, Then};
use crate::state::Core;
use fj_bay::Job;
use fj_outside::FileStore;
use fj_run_items::Lost;
use fj_run_units::Connected;
use fj_statement::UnitRef;
use fj_value::{Boxed, Condition};
use std::alloc::Global;

/// The connection of a unit goes out, and its file is kept or removed. Want of memory changes nothing.
pub(crate) fn closing<F: FileStore>(
    alloc: Global,
    unit: &Connected,
    keep: bool,
    after: After,
) -> Result<Doing<F>, Lost>
    ensures next { IfOk result (λ next. next ≡ Doing.Awaits unit.now.slot (job.Detach None) (Then.Closes unit.now.number keep after)) }
    ensures placed { IfOk result IsPlaced }
    ensures causes { (result ≢ Err Lost.Disk) × (result ≢ Err Lost.Sink) }
    ensures fits { result ≢ Err Lost.Unfit }
{
    let place = Boxed::new(alloc, None)?;
    Ok(Doing::Awaits {
        slot: unit.slot,
        job: Job::Detach(place),
        then: Then::Closes {
            number: unit.number,
            keep,
            after,
        },
    })
}

/// CLOSE: a scratch file cannot be kept (4).
pub(crate) fn close<F: FileStore>(
    alloc: Global,
    unit: UnitRef,
    keep: Option<bool>,
    core: &Core,
) -> Result<Doing<F>, Lost>
    ensures doing { (variables : List Variable) (st : Stated) (files : Files) → IfOk result (λ next. IsDoing F.told F.bytes variables st (core_of files core.now) next
        (closes (core_of files core.now) keep (unit_at (core_of files core.now) (number_of unit)))) }
    ensures placed { IfOk result IsPlaced }
    ensures causes { (result ≢ Err Lost.Disk) × (result ≢ Err Lost.Sink) }
    ensures fits { result ≢ Err Lost.Unfit }
    ensures files { (what : Statement) → HaveFiles core.now.names core.now.units → IfOk result (λ next. HaveNext next core.now.names core.now.units what) }
{
    let Some(unit) = core.units.at(unit) else {
        return Ok(Doing::Finishes(Condition::Fine));
    };
    let scratch = unit.modes.scratch;
    if keep.unwrap_or(false) && scratch {
        return Ok(Doing::Finishes(Condition::SCRATCH_KEPT));
    }
    closing(
        alloc,
        unit,
        keep.unwrap_or(!scratch),
        After::Finishes(Condition::Fine),
    )
}

/// CLOSE where a condition was told: a scratch file is removed all the same.
pub(crate) fn close_anyway<F: FileStore>(
    alloc: Global,
    unit: UnitRef,
    keep: Option<bool>,
    condition: Condition,
    core: &Core,
) -> Result<Doing<F>, Lost>
    ensures doing { (variables : List Variable) (st : Stated) (files : Files) → IfOk result (λ next. IsDoing F.told F.bytes variables st (core_of files core.now) next
        (closes_anyway (core_of files core.now) keep condition (unit_at (core_of files core.now) (number_of unit)))) }
    ensures placed { IfOk result IsPlaced }
    ensures causes { (result ≢ Err Lost.Disk) × (result ≢ Err Lost.Sink) }
    ensures fits { result ≢ Err Lost.Unfit }
    ensures files { (what : Statement) → HaveFiles core.now.names core.now.units → IfOk result (λ next. HaveNext next core.now.names core.now.units what) }
{
    match core.units.at(unit) {
        Some(unit) => closing(
            alloc,
            unit,
            !unit.modes.scratch && keep.unwrap_or(true),
            After::Finishes(condition),
        ),
        None => Ok(Doing::Finishes(condition)),
    }
}

/// END closes unit after unit, in ascending order of their numbers.
pub(crate) fn close_all<F: FileStore>(
    alloc: Global,
    condition: Condition,
    core: &Core,
) -> Result<Doing<F>, Lost>
    ensures doing { (variables : List Variable) (st : Stated) (files : Files) → IfOk result (λ next. IsDoing F.told F.bytes variables st (core_of files core.now) next
        (all_closed core.now.units (core_of files core.now) condition)) }
    ensures placed { IfOk result IsPlaced }
    ensures causes { (result ≢ Err Lost.Disk) × (result ≢ Err Lost.Sink) }
    ensures fits { result ≢ Err Lost.Unfit }
    ensures jobs { IfOk result (λ next. jobs_of next (length core.now.units) ≤ length core.now.units) }
    ensures files { (what : Statement) → HaveFiles core.now.names core.now.units → IfOk result (λ next. HaveNext next core.now.names core.now.units what) }
{
    match core.units.first() {
        Some(unit) => closing(
            alloc,
            unit,
            !unit.modes.scratch,
            After::ClosesAll(condition),
        ),
        None => Ok(Doing::Finishes(condition)),
    }
}
