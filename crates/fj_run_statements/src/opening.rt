// OPEN (ISO/IEC 1539-1:2004, 9.4.5).
ghost use Rattle.std.specs.Prelude.{◌≡◌, ◌≢◌, ◌↔◌, ◌≤◌, ◌<◌, ℕ, false, List, Some, None, IfOk, OnErr, Result, Ok, Err};
ghost use Rattle.std.specs.Option.{option_map, option_copied};
ghost use Rattle.fj_outside.specs.Faults.{Rose};
ghost use Rattle.fj_modes.specs.Modes.{settled};
ghost use Rattle.fj_modes.specs.Modes as mode;
ghost use Rattle.fj_statement.specs.declared.deck.Variable.{Variable};
ghost use Rattle.fj_meaning.specs.Needs.{number_of};
ghost use Rattle.fj_meaning.specs.State.{Files, without_file};
ghost use Rattle.fj_meaning.specs.Statement.{Stated};
ghost use Rattle.fj_meaning.specs.Connecting.{file_due};
ghost use Rattle.fj_meaning_jobs.specs.Core.{Core as PlainCore, Connected as PlainConnected, connected_at, has_name, inserted};
ghost use Rattle.fj_meaning_jobs.specs.Acting.{attaches, connects, opens, opens_unit, opens_with, changes, if_numbered};
ghost use Rattle.fj_connect.specs.Connection.{Connection as PlainConnection};
ghost use Rattle.fj_connect.specs.Linked.{connection_of};
ghost use Rattle.fj_connect.specs.Opening.{opened_file};
ghost use Rattle.fj_value.specs.declared.condition.Condition.{Condition};
ghost use Rattle.fj_run_units.specs.Names.{AreInUse, stands};
ghost use Rattle.fj_meaning_jobs.specs.Desks.{most_slots};
ghost use Rattle.fj_run_statements.specs.Placing.{IsPlaced};
ghost use Rattle.fj_run_statements.specs.Jobs.{GivesOne};
ghost use Rattle.fj_run_statements.specs.State.{core_of};
ghost use Rattle.fj_run_statements.specs.Failing.{FailsWhere, AreStill};
ghost use Rattle.fj_run_units.specs.Files.{files_of};
ghost use Rattle.fj_run_units.specs.Units.{connected_of, has_slot};
ghost use Rattle.fj_run_statements.specs.Doing.{IsDoing, AsksToOpen};
ghost use Rattle.fj_run_statements.specs.declared.state.Core.{Core};
ghost use Rattle.fj_statement.specs.declared.statement.Statement.{Statement};
ghost use Rattle.fj_run_units.specs.Having.{HaveFiles};
ghost use Rattle.fj_run_statements.specs.Having.{HaveBeside, HaveNext, IsFreeNext, IsToOpen, OpensAt};

use crate::closing::closing;
use crate::doing::{After, Doing, Then};
use crate::file_names::{file_due, keeps_name};
use crate::lost::lost_by_stop;
use crate::state::Core;
use fj_bay::Job;
use fj_connect::{Connection, OpenFault, open_file};
use fj_modes::{FileName, Modes, OpenSpec, settle_open};
use fj_outside::{Disk, FileStore};
use fj_run_items::Lost;
use fj_run_units::{Connected, Units};
use fj_statement::UnitRef;
use fj_value::{Boxed, Condition};
use std::alloc::Global;

/// A new connection, whose file is out, goes to a slot; the units are these once it is there.
fn attaching<F: FileStore>(
    slot: u32,
    units: Units,
    mut place: Boxed<Option<Connection<F>>>,
    connection: Connection<F>,
) -> Doing<F>
    requires { slot < most_slots }
    ensures doing { F.tells connection.file → (number : ℕ) (variables : List Variable) (st : Stated) (core : PlainCore) (files : Files) (opened : Result PlainConnection Condition) →
        units ≡ inserted (record { number = number; slot = slot; name = connection.name; modes = connection.modes }) core.units →
        opened ≡ Ok (connection_of F.bytes connection) → files ≡ without_file connection.name core.files →
        IsDoing F.told F.bytes variables st (record core { files = files }) result (attaches core number slot opened) }
    ensures placed { IsPlaced result }
    ensures jobs { GivesOne result }
    ensures files { (names : List (List ℕ)) (us : List PlainConnected) (what : Statement) → HaveFiles names units → HaveBeside (Some connection.name) names us what → HaveNext result names us what }
{
    *place.get_mut() = Some(connection);
    Doing::Awaits {
        slot,
        job: Job::Attach(place),
        then: Then::Attaches(units),
    }
}

/// Connects to the file of a name that is not out.
fn attach<D: Disk>(
    alloc: Global,
    number: u32,
    slot: u32,
    name: FileName,
    spec: &OpenSpec,
    modes: Modes,
    core: &mut Core,
    disk: &mut D,
) -> Result<Doing<D::File>, Lost>
    requires slot { slot < most_slots }
    requires free { has_slot core.old.units slot ≡ false }
    requires names { D.tells disk.old → AreInUse core.old.names (D.held disk.old).in_use }
    requires modes { settled spec.now ≡ Ok modes }
    ensures doing { D.tells disk.old → (variables : List Variable) (st : Stated) → IfOk result (λ next. IsDoing D.File.told D.File.bytes variables st
        (core_of (files_of (D.held disk.new)) core.new) next
        (attaches (core_of (files_of (D.held disk.old)) core.old) number slot (opened_file (files_of (D.held disk.old) name) name spec.now modes))) }
    ensures fault { D.tells disk.old → result ≡ Err Lost.Disk → FailsWhere
        (attaches (core_of (files_of (D.held disk.old)) core.old) number slot (opened_file (files_of (D.held disk.old) name) name spec.now modes))
        core.new (D.held disk.new) (D.refusals disk.old) (D.refusals disk.new) }
    ensures stays { D.tells disk.old → OnErr result (AreStill
        (attaches (core_of (files_of (D.held disk.old)) core.old) number slot (opened_file (files_of (D.held disk.old) name) name spec.now modes))
        (D.held disk.old) (D.held disk.new)) }
    ensures own { D.tells disk.old → D.refusals disk.old ≤ D.refusals disk.new }
    ensures units { core.new.units ≡ core.old.units }
    ensures names { D.tells disk.old → AreInUse core.new.names (D.held disk.new).in_use }
    ensures store { core.new.store ≡ core.old.store }
    ensures output { core.new.output ≡ core.old.output }
    ensures tells { core.new.tells ≡ core.old.tells }
    ensures telling { D.tells disk.old ↔ D.tells disk.new }
    ensures later { D.count disk.old ≤ D.count disk.new }
    ensures failed { result ≡ Err Lost.Disk → Rose (D.count disk.old) (D.count disk.new) }
    ensures sink { result ≢ Err Lost.Sink }
    ensures pending { core.new.pending ≡ core.old.pending }
    ensures next { core.new.next ≡ core.old.next }
    ensures fits { stands core.old.names name ≡ false → result ≢ Err Lost.Unfit }
    ensures placed { IfOk result IsPlaced }
    ensures jobs { IfOk result GivesOne }
    ensures files { (what : Statement) → connected_at core.old.units number ≡ None → has_name core.old.units name ≡ false → IsToOpen what core.old.units name
        → HaveFiles core.old.names core.old.units → IfOk result (λ next. HaveNext next core.new.names core.new.units what) }
    ensures vain { HaveFiles core.old.names core.old.units → OnErr result (HaveFiles core.new.names core.new.units) }
{
    if core.names.holds(&name) {
        return Err(Lost::Unfit);
    }
    let copy = name.try_clone()?;
    let unit = Connected {
        number,
        slot,
        name: copy,
        modes,
    };
    let units = core.units.with(unit)?;
    let place = Boxed::new(alloc, None)?;
    core.names.add(&name)?;
    match open_file(alloc, disk, &name, spec, modes) {
        Ok(connection) => Ok(attaching(slot, units, place, connection)),
        Err(fault) => {
            core.names.remove(&name);
            match fault {
                OpenFault::Refused(condition) => Ok(Doing::Finishes(condition)),
                OpenFault::Stop(stop) => Err(lost_by_stop(stop)),
            }
        }
    }
}

/// A new connection at the lowest free slot; there is none (9).
pub(crate) fn connect<D: Disk>(
    alloc: Global,
    number: u32,
    spec: &OpenSpec,
    modes: Modes,
    core: &mut Core,
    disk: &mut D,
) -> Result<Doing<D::File>, Lost>
    requires names { D.tells disk.old → AreInUse core.old.names (D.held disk.old).in_use }
    requires modes { settled spec.now ≡ Ok modes }
    ensures doing { D.tells disk.old → (variables : List Variable) (st : Stated) → IfOk result (λ next. IsDoing D.File.told D.File.bytes variables st
        (core_of (files_of (D.held disk.new)) core.new) next (connects number spec.now modes (core_of (files_of (D.held disk.old)) core.old))) }
    ensures fault { D.tells disk.old → result ≡ Err Lost.Disk → FailsWhere
        (connects number spec.now modes (core_of (files_of (D.held disk.old)) core.old))
        core.new (D.held disk.new) (D.refusals disk.old) (D.refusals disk.new) }
    ensures stays { D.tells disk.old → OnErr result (AreStill
        (connects number spec.now modes (core_of (files_of (D.held disk.old)) core.old))
        (D.held disk.old) (D.held disk.new)) }
    ensures own { D.tells disk.old → D.refusals disk.old ≤ D.refusals disk.new }
    ensures units { core.new.units ≡ core.old.units }
    ensures names { D.tells disk.old → AreInUse core.new.names (D.held disk.new).in_use }
    ensures store { core.new.store ≡ core.old.store }
    ensures output { core.new.output ≡ core.old.output }
    ensures tells { core.new.tells ≡ core.old.tells }
    ensures telling { D.tells disk.old ↔ D.tells disk.new }
    ensures later { D.count disk.old ≤ D.count disk.new }
    ensures failed { result ≡ Err Lost.Disk → Rose (D.count disk.old) (D.count disk.new) }
    ensures sink { result ≢ Err Lost.Sink }
    ensures pending { core.new.pending ≡ core.old.pending }
    ensures next { core.new.next ≡ core.old.next }
    ensures fits { stands core.old.names (file_due spec.now number) ≡ false → result ≢ Err Lost.Unfit }
    ensures placed { IfOk result IsPlaced }
    ensures jobs { IfOk result GivesOne }
    ensures files { (what : Statement) → AsksToOpen what spec.now → IsFreeNext (After.Connects number) what core.old.units → HaveFiles core.old.names core.old.units
        → IfOk result (λ next. HaveNext next core.new.names core.new.units what) }
    ensures vain { HaveFiles core.old.names core.old.units → OnErr result (HaveFiles core.new.names core.new.units) }
{
    match core.units.free_slot() {
        Some(slot) => {
            let name = file_due(alloc, spec, number)?;
            attach(alloc, number, slot, name, spec, modes, core, disk)
        }
        None => Ok(Doing::Finishes(Condition::TOO_MANY_UNITS)),
    }
}

/// The modes that may differ change, or nothing does (8).
fn change<F: FileStore>(number: u32, unit: &Connected, spec: &OpenSpec) -> Doing<F>
    ensures doing { (variables : List Variable) (st : Stated) (files : Files) (core : Core) → connected_at core.units number ≡ Some (connected_of unit.now) →
        IsDoing F.told F.bytes variables st (core_of files core) result (changes (core_of files core) (connected_of unit.now) (mode.changed unit.now.modes spec.now)) }
    ensures placed { IsPlaced result }
    ensures files { (names : List (List ℕ)) (us : List PlainConnected) (what : Statement) → HaveFiles names us → HaveNext result names us what }
{
    let mut modes = unit.modes;
    match modes.change(spec) {
        Ok(()) => Doing::Awaits {
            slot: unit.slot,
            job: Job::Change(modes.edit),
            then: Then::Changes { number, modes },
        },
        Err(condition) => Doing::Finishes(condition),
    }
}

/// Another file than the one that the unit has: 3, then 7, and only then is the old file closed.
fn open_other<D: Disk>(
    alloc: Global,
    number: u32,
    spec: &OpenSpec,
    core: &mut Core,
    disk: &mut D,
) -> Result<Doing<D::File>, Lost>
    requires { D.tells disk.old → AreInUse core.old.names (D.held disk.old).in_use }
    ensures doing { D.tells disk.old → (variables : List Variable) (st : Stated) → AsksToOpen st.0.what spec.now → IfOk result (λ next. IsDoing D.File.told D.File.bytes variables st
        (core_of (files_of (D.held disk.new)) core.new) next
        (opens_with (core_of (files_of (D.held disk.old)) core.old) number spec.now (connected_at core.old.units number) (settled spec.now))) }
    ensures fault { D.tells disk.old → result ≡ Err Lost.Disk → FailsWhere
        (opens_with (core_of (files_of (D.held disk.old)) core.old) number spec.now (connected_at core.old.units number) (settled spec.now))
        core.new (D.held disk.new) (D.refusals disk.old) (D.refusals disk.new) }
    ensures stays { D.tells disk.old → OnErr result (AreStill
        (opens_with (core_of (files_of (D.held disk.old)) core.old) number spec.now (connected_at core.old.units number) (settled spec.now))
        (D.held disk.old) (D.held disk.new)) }
    ensures own { D.tells disk.old → D.refusals disk.old ≤ D.refusals disk.new }
    ensures units { core.new.units ≡ core.old.units }
    ensures names { D.tells disk.old → AreInUse core.new.names (D.held disk.new).in_use }
    ensures store { core.new.store ≡ core.old.store }
    ensures output { core.new.output ≡ core.old.output }
    ensures tells { core.new.tells ≡ core.old.tells }
    ensures telling { D.tells disk.old ↔ D.tells disk.new }
    ensures later { D.count disk.old ≤ D.count disk.new }
    ensures failed { result ≡ Err Lost.Disk → Rose (D.count disk.old) (D.count disk.new) }
    ensures sink { result ≢ Err Lost.Sink }
    ensures pending { core.new.pending ≡ core.old.pending }
    ensures next { core.new.next ≡ core.old.next }
    ensures fits { HaveFiles core.old.names core.old.units → result ≢ Err Lost.Unfit }
    ensures placed { IfOk result IsPlaced }
    ensures files { (what : Statement) → OpensAt what (Some number) spec.now → HaveFiles core.old.names core.old.units
        → IfOk result (λ next. HaveNext next core.new.names core.new.units what) }
    ensures vain { HaveFiles core.old.names core.old.units → OnErr result (HaveFiles core.new.names core.new.units) }
{
    let modes = match settle_open(spec) {
        Ok(modes) => modes,
        Err(condition) => return Ok(Doing::Finishes(condition)),
    };
    let name = file_due(alloc, spec, number)?;
    if core.units.is_taken(number, &name) {
        return Ok(Doing::Finishes(Condition::FILE_TAKEN));
    }
    if let Some(unit) = core.units.find(number) {
        let keep = !unit.modes.scratch;
        return closing(alloc, unit, keep, After::Connects { number });
    }
    connect(alloc, number, spec, modes, core, disk)
}

/// OPEN: of the same file other modes, else another file.
fn open_numbered<D: Disk>(
    alloc: Global,
    number: u32,
    spec: &OpenSpec,
    core: &mut Core,
    disk: &mut D,
) -> Result<Doing<D::File>, Lost>
    requires { D.tells disk.old → AreInUse core.old.names (D.held disk.old).in_use }
    ensures doing { D.tells disk.old → (variables : List Variable) (st : Stated) → AsksToOpen st.0.what spec.now → IfOk result (λ next. IsDoing D.File.told D.File.bytes variables st
        (core_of (files_of (D.held disk.new)) core.new) next
        (opens (core_of (files_of (D.held disk.old)) core.old) number spec.now (connected_at core.old.units number))) }
    ensures fault { D.tells disk.old → result ≡ Err Lost.Disk → FailsWhere
        (opens (core_of (files_of (D.held disk.old)) core.old) number spec.now (connected_at core.old.units number))
        core.new (D.held disk.new) (D.refusals disk.old) (D.refusals disk.new) }
    ensures stays { D.tells disk.old → OnErr result (AreStill
        (opens (core_of (files_of (D.held disk.old)) core.old) number spec.now (connected_at core.old.units number))
        (D.held disk.old) (D.held disk.new)) }
    ensures own { D.tells disk.old → D.refusals disk.old ≤ D.refusals disk.new }
    ensures units { core.new.units ≡ core.old.units }
    ensures names { D.tells disk.old → AreInUse core.new.names (D.held disk.new).in_use }
    ensures store { core.new.store ≡ core.old.store }
    ensures output { core.new.output ≡ core.old.output }
    ensures tells { core.new.tells ≡ core.old.tells }
    ensures telling { D.tells disk.old ↔ D.tells disk.new }
    ensures later { D.count disk.old ≤ D.count disk.new }
    ensures failed { result ≡ Err Lost.Disk → Rose (D.count disk.old) (D.count disk.new) }
    ensures sink { result ≢ Err Lost.Sink }
    ensures pending { core.new.pending ≡ core.old.pending }
    ensures next { core.new.next ≡ core.old.next }
    ensures fits { HaveFiles core.old.names core.old.units → result ≢ Err Lost.Unfit }
    ensures placed { IfOk result IsPlaced }
    ensures files { (what : Statement) → OpensAt what (Some number) spec.now → HaveFiles core.old.names core.old.units
        → IfOk result (λ next. HaveNext next core.new.names core.new.units what) }
    ensures vain { HaveFiles core.old.names core.old.units → OnErr result (HaveFiles core.new.names core.new.units) }
{
    if let Some(unit) = core.units.find(number) {
        if keeps_name(&unit.name, spec) {
            return Ok(change(number, unit, spec));
        }
    }
    open_other(alloc, number, spec, core, disk)
}

/// OPEN of a unit; 3 where it is not connected and its number is outside those that there are.
pub(crate) fn open<D: Disk>(
    alloc: Global,
    unit: UnitRef,
    spec: &OpenSpec,
    core: &mut Core,
    disk: &mut D,
) -> Result<Doing<D::File>, Lost>
    requires { D.tells disk.old → AreInUse core.old.names (D.held disk.old).in_use }
    ensures doing { D.tells disk.old → (variables : List Variable) (st : Stated) → AsksToOpen st.0.what spec.now → IfOk result (λ next. IsDoing D.File.told D.File.bytes variables st
        (core_of (files_of (D.held disk.new)) core.new) next
        (if_numbered (core_of (files_of (D.held disk.old)) core.old) (number_of unit)
        (λ n. opens_unit (core_of (files_of (D.held disk.old)) core.old) unit n spec.now (connected_at core.old.units n)))) }
    ensures fault { D.tells disk.old → result ≡ Err Lost.Disk → FailsWhere
        (if_numbered (core_of (files_of (D.held disk.old)) core.old) (number_of unit)
        (λ n. opens_unit (core_of (files_of (D.held disk.old)) core.old) unit n spec.now (connected_at core.old.units n)))
        core.new (D.held disk.new) (D.refusals disk.old) (D.refusals disk.new) }
    ensures stays { D.tells disk.old → OnErr result (AreStill
        (if_numbered (core_of (files_of (D.held disk.old)) core.old) (number_of unit)
        (λ n. opens_unit (core_of (files_of (D.held disk.old)) core.old) unit n spec.now (connected_at core.old.units n)))
        (D.held disk.old) (D.held disk.new)) }
    ensures own { D.tells disk.old → D.refusals disk.old ≤ D.refusals disk.new }
    ensures units { core.new.units ≡ core.old.units }
    ensures names { D.tells disk.old → AreInUse core.new.names (D.held disk.new).in_use }
    ensures store { core.new.store ≡ core.old.store }
    ensures output { core.new.output ≡ core.old.output }
    ensures tells { core.new.tells ≡ core.old.tells }
    ensures telling { D.tells disk.old ↔ D.tells disk.new }
    ensures later { D.count disk.old ≤ D.count disk.new }
    ensures failed { result ≡ Err Lost.Disk → Rose (D.count disk.old) (D.count disk.new) }
    ensures sink { result ≢ Err Lost.Sink }
    ensures pending { core.new.pending ≡ core.old.pending }
    ensures next { core.new.next ≡ core.old.next }
    ensures fits { HaveFiles core.old.names core.old.units → result ≢ Err Lost.Unfit }
    ensures placed { IfOk result IsPlaced }
    ensures files { (what : Statement) → OpensAt what (number_of unit) spec.now → HaveFiles core.old.names core.old.units
        → IfOk result (λ next. HaveNext next core.new.names core.new.units what) }
    ensures vain { HaveFiles core.old.names core.old.units → OnErr result (HaveFiles core.new.names core.new.units) }
{
    let Some(number) = unit.number() else {
        return Ok(Doing::Finishes(Condition::NOT_CONNECTED));
    };
    if unit.is_outside() && core.units.find(number).is_none() {
        return Ok(Doing::Finishes(Condition::BAD_SPECIFIERS));
    }
    open_numbered(alloc, number, spec, core, disk)
}
