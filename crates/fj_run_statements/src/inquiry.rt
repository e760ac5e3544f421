// INQUIRE (ISO/IEC 1539-1:2004, 9.9).
ghost use Rattle.std.specs.Prelude.{◌≡◌, ◌≢◌, ◌↔◌, ◌≤◌, ℕ, All, IsOk, List, Some, true, false, pos, is_some, IfOk, IfSome, OnOk, Err};
ghost use Rattle.std.specs.Option.{option_map, option_copied, option_and_then};
ghost use Rattle.std.specs.List.{list_any};
ghost use Rattle.fj_outside.specs.Faults.{Rose};
ghost use Rattle.fj_modes.specs.declared.asked.Wanted.{Wanted};
ghost use Rattle.fj_store.specs.Storage.{values_of};
ghost use Rattle.fj_bay.specs.Plain.{looked_of};
ghost use Rattle.fj_statement.specs.Units.{number_from_code};
ghost use Rattle.fj_inquire.specs.Inquiring as told;
ghost use Rattle.fj_meaning.specs.Inquiring.{asks_pending, none_pending};
ghost use Rattle.fj_meaning.specs.Items.{given_back};
ghost use Rattle.fj_meaning.specs.Needs.{unit_about, number_given};
ghost use Rattle.fj_meaning.specs.State.{Files};
ghost use Rattle.fj_meaning.specs.Statement.{Stated, file_asked, about_other};
ghost use Rattle.fj_meaning_jobs.specs.Core.{Core as PlainCore, connected_at, unit_named, pending_holders};
ghost use Rattle.fj_meaning_jobs.specs.Acting.{answers, asks_connection, inquires, unit_at};
ghost use Rattle.fj_run_items.specs.Kinds.{kinds_of};
ghost use Rattle.fj_statement.specs.declared.statement.Statement.{Statement as PlainStatement};
ghost use Rattle.fj_run_statements.specs.Calling.{may_do};
ghost use Rattle.fj_run_statements.specs.Placing.{IsPlaced};
ghost use Rattle.fj_run_units.specs.Names.{AreInUse, stands};
ghost use Rattle.fj_run_statements.specs.State.{KeepsAnswers, KeepsPending, core_of};
ghost use Rattle.fj_run_statements.specs.Failing.{FailsWhere};
ghost use Rattle.fj_run_units.specs.Files.{files_of};
ghost use Rattle.fj_run_statements.specs.Doing.{Ends, IsDoing, AsksAbout, looks_at};
ghost use Rattle.fj_statement.specs.declared.statement.Statement.{Statement};
ghost use Rattle.fj_run_units.specs.Having.{HaveFiles};
ghost use Rattle.fj_run_statements.specs.Having.{HaveNext};

use crate::doing::{Doing, Then};
use crate::state::Core;
use fj_bay::Job;
use fj_connect::Look;
use fj_inquire::{Connected, inquire_file, inquire_unit};
use fj_modes::{Asked, FileName, Question};
use fj_moved::Cells;
use fj_outside::{Disk, FileStore};
use fj_run_items::{Lost, give_back, number_given};
use fj_run_units::{Connected as Unit, Names, Units};
use fj_statement::{Operand, Subject, Variables, unit_number};
use fj_store::Store;
use fj_value::{Boxed, Condition, Items, Value};
use std::alloc::{AllocError, Global};

/// The number of the unit that is asked about, or that the file is connected to.
fn unit_about(units: &Units, subject: &Subject) -> Option<u32>
    ensures { result ≡ unit_about (unit_named units.now) subject.now }
{
    match subject {
        Subject::Unit(unit) => unit.number(),
        Subject::File(name) => units.named(name),
    }
}

/// Whether a question is one that only the connection answers.
fn asks_connection(what: Question) -> bool
    ensures { result ≡ asks_connection what }
{
    match what {
        Question::Nextrec | Question::Pos | Question::Size => true,
        _ => false,
    }
}

/// Whether a question is PENDING=.
fn asks_pending(what: Question) -> bool
    ensures { result ≡ asks_pending what }
{
    match what {
        Question::Pending => true,
        _ => false,
    }
}

/// Whether an INQUIRE asks what only the connection knows.
fn needs_look(asked: &Asked) -> bool
    ensures { result ≡ list_any (λ (w : Wanted). asks_connection w.what) asked.now }
{
    for wanted in asked.as_slice() {
        if asks_connection(wanted.what) {
            return true;
        }
    }
    false
}

/// Whether there is a file of a name that is at home. `Unfit`: the file of that name is out.
fn is_there<D: Disk>(name: &FileName, names: &Names, disk: &mut D) -> Result<bool, Lost>
    requires { D.tells disk.old → AreInUse names.now (D.held disk.old).in_use }
    ensures there { D.tells disk.old → IfOk result (λ there. there ≡ is_some (files_of (D.held disk.old) name.now)) }
    ensures held { D.tells disk.old → D.held disk.new ≡ D.held disk.old }
    ensures rose { D.tells disk.old → result ≡ Err Lost.Disk → Rose (D.refusals disk.old) (D.refusals disk.new) }
    ensures own { D.tells disk.old → D.refusals disk.old ≤ D.refusals disk.new }
    ensures telling { D.tells disk.old ↔ D.tells disk.new }
    ensures later { D.count disk.old ≤ D.count disk.new }
    ensures failed { result ≡ Err Lost.Disk → Rose (D.count disk.old) (D.count disk.new) }
    ensures sink { result ≢ Err Lost.Sink }
    ensures fits { stands names.now name.now ≡ false → result ≢ Err Lost.Unfit }
{
    if names.holds(name) {
        return Err(Lost::Unfit);
    }
    match disk.exists(name.as_str()) {
        Ok(there) => Ok(there),
        Err(_) => Err(Lost::Disk),
    }
}

/// The answers about a unit or file that is not connected.
#[tactic(auto, using(crate::proofs::StateLemmas::answers_kept))]
fn answer_other<D: Disk>(
    alloc: Global,
    variables: &Variables,
    subject: &Subject,
    asked: &Asked,
    core: &mut Core,
    disk: &mut D,
) -> Result<Doing<D::File>, Lost>
    requires kinds { core.old.store.kinds ≡ kinds_of variables.now }
    requires names { D.tells disk.old → AreInUse core.old.names (D.held disk.old).in_use }
    ensures doing { D.tells disk.old → (st : Stated) → IfOk result (λ next. IsDoing D.File.told D.File.bytes variables.now st
        (core_of (files_of (D.held disk.new)) core.new) next
        (answers variables.now (core_of (files_of (D.held disk.old)) core.old) (about_other (files_of (D.held disk.old)) (file_asked subject.now)) asked.now)) }
    ensures fault { D.tells disk.old → result ≡ Err Lost.Disk → FailsWhere
        (answers variables.now (core_of (files_of (D.held disk.old)) core.old) (about_other (files_of (D.held disk.old)) (file_asked subject.now)) asked.now)
        core.new (D.held disk.new) (D.refusals disk.old) (D.refusals disk.new) }
    ensures own { D.tells disk.old → D.refusals disk.old ≤ D.refusals disk.new }
    ensures held { D.tells disk.old → D.held disk.new ≡ D.held disk.old }
    ensures units { core.new.units ≡ core.old.units }
    ensures kinds { core.new.store.kinds ≡ core.old.store.kinds }
    ensures names { core.new.names ≡ core.old.names }
    ensures output { core.new.output ≡ core.old.output }
    ensures tells { core.new.tells ≡ core.old.tells }
    ensures telling { D.tells disk.old ↔ D.tells disk.new }
    ensures later { D.count disk.old ≤ D.count disk.new }
    ensures failed { result ≡ Err Lost.Disk → Rose (D.count disk.old) (D.count disk.new) }
    ensures sink { result ≢ Err Lost.Sink }
    ensures pending { KeepsAnswers core.old core.new }
    ensures same { KeepsPending core.old core.new }
    ensures fits { IfSome (file_asked subject.now) (λ name. stands core.old.names name ≡ false) → result ≢ Err Lost.Unfit }
    ensures placed { IfOk result IsPlaced }
    ensures closes { (what : PlainStatement) → IfOk result (λ next. may_do what next ≡ true) }
    ensures called { result ≡ Err Lost.Disk → is_some (file_asked subject.now) ≡ true }
    ensures files { (what : Statement) → HaveFiles core.old.names core.old.units → IfOk result (λ next. HaveNext next core.new.names core.new.units what) }
{
    let mut cells = Items::new(alloc);
    match subject {
        Subject::Unit(_) => {
            inquire_unit(alloc, 0, None, None, false, asked, &mut cells)?;
            give_back(variables, &mut core.store, cells);
            Ok(Doing::Finishes(Condition::Fine))
        }
        Subject::File(name) => {
            let there = is_there(name, &core.names, disk)?;
            inquire_file(alloc, name, there, None, None, false, asked, &mut cells)?;
            give_back(variables, &mut core.store, cells);
            Ok(Doing::Finishes(Condition::Fine))
        }
    }
}

/// PENDING= is false, and there is no other answer.
pub(crate) fn answer_none_pending(variables: &Variables, asked: &Asked, store: &mut Store)
    requires { store.old.kinds ≡ kinds_of variables.now }
    ensures vars { values_of store.new ≡ given_back variables.now (none_pending asked.now) (values_of store.old) }
    ensures kinds { store.new.kinds ≡ store.old.kinds }
{
    let _ = variables;
    for wanted in asked.as_slice() {
        if asks_pending(wanted.what) {
            store.set(wanted.place, Value::Log(false));
        }
    }
}

/// What a connected unit tells of itself.
fn told_of(
    alloc: Global,
    number: u32,
    unit: &Unit,
    look: Option<Look>,
    pending: bool,
    asked: &Asked,
) -> Result<Cells, AllocError>
    ensures { IfOk result (λ cells. cells
        ≡ told.inquired (told.connection (number_from_code number) (record { modes = unit.now.modes; name = unit.now.name }) look pending) asked.now) }
{
    let connected = Connected {
        modes: unit.modes,
        name: unit.name.try_clone()?,
    };
    let mut cells = Items::new(alloc);
    inquire_unit(
        alloc,
        unit_number(number),
        Some(&connected),
        look,
        pending,
        asked,
        &mut cells,
    )?;
    Ok(cells)
}

/// The answers about a connected unit, with a look at its connection where one is needed.
#[tactic(auto, using(crate::proofs::StateLemmas::answers_kept))]
pub(crate) fn answer_look<F: FileStore>(
    alloc: Global,
    variables: &Variables,
    subject: &Subject,
    asked: &Asked,
    id: Option<&Operand>,
    look: Option<Look>,
    core: &mut Core,
) -> Result<Doing<F>, AllocError>
    requires kinds { core.old.store.kinds ≡ kinds_of variables.now }
    ensures doing { (st : Stated) (files : Files) → IfOk result (λ next. IsDoing F.told F.bytes variables.now st (core_of files core.new) next
        (looks_at variables.now (core_of files core.old) (unit_about (unit_named core.old.units) subject.now) (file_asked subject.now) asked.now
        (number_given (values_of core.old.store) (option_copied id.entry)) (unit_at (core_of files core.old) (unit_about (unit_named core.old.units) subject.now)) (option_map looked_of look))) }
    ensures units { core.new.units ≡ core.old.units }
    ensures kinds { core.new.store.kinds ≡ core.old.store.kinds }
    ensures names { core.new.names ≡ core.old.names }
    ensures output { core.new.output ≡ core.old.output }
    ensures tells { core.new.tells ≡ core.old.tells }
    ensures pending { KeepsAnswers core.old core.new }
    ensures same { KeepsPending core.old core.new }
    ensures placed { IfOk result IsPlaced }
    ensures ends { IfOk result Ends }
    ensures closes { (what : PlainStatement) → IfOk result (λ next. may_do what next ≡ true) }
    ensures files { (what : Statement) → HaveFiles core.old.names core.old.units → IfOk result (λ next. HaveNext next core.new.names core.new.units what) }
{
    let Some(number) = unit_about(&core.units, subject) else {
        return Ok(Doing::Finishes(Condition::Fine));
    };
    let Some(unit) = core.units.find(number) else {
        return Ok(Doing::Finishes(Condition::Fine));
    };
    let id = number_given(&core.store, id);
    let pending = core.pending.has_pending(number, id);
    let cells = told_of(alloc, number, unit, look, pending, asked)?;
    give_back(variables, &mut core.store, cells);
    Ok(Doing::Finishes(Condition::Fine))
}

/// INQUIRE: of a connected unit with a look at its connection, where it asks what only that knows.
#[tactic(auto, using(crate::proofs::StateLemmas::answers_kept))]
pub(crate) fn inquire<D: Disk>(
    alloc: Global,
    variables: &Variables,
    subject: &Subject,
    asked: &Asked,
    id: Option<&Operand>,
    core: &mut Core,
    disk: &mut D,
) -> Result<Doing<D::File>, Lost>
    requires kinds { core.old.store.kinds ≡ kinds_of variables.now }
    requires names { D.tells disk.old → AreInUse core.old.names (D.held disk.old).in_use }
    ensures doing { D.tells disk.old → (st : Stated) → AsksAbout st.0.what subject.now asked.now (option_copied id.entry) → IfOk result (λ next. IsDoing D.File.told D.File.bytes variables.now st
        (core_of (files_of (D.held disk.new)) core.new) next
        (inquires variables.now (core_of (files_of (D.held disk.old)) core.old) (unit_about (unit_named core.old.units) subject.now) (file_asked subject.now) asked.now
        (number_given (values_of core.old.store) (option_copied id.entry)) (unit_at (core_of (files_of (D.held disk.old)) core.old) (unit_about (unit_named core.old.units) subject.now)))) }
    ensures fault { D.tells disk.old → result ≡ Err Lost.Disk → FailsWhere
        (inquires variables.now (core_of (files_of (D.held disk.old)) core.old) (unit_about (unit_named core.old.units) subject.now) (file_asked subject.now) asked.now
        (number_given (values_of core.old.store) (option_copied id.entry)) (unit_at (core_of (files_of (D.held disk.old)) core.old) (unit_about (unit_named core.old.units) subject.now)))
        core.new (D.held disk.new) (D.refusals disk.old) (D.refusals disk.new) }
    ensures own { D.tells disk.old → D.refusals disk.old ≤ D.refusals disk.new }
    ensures held { D.tells disk.old → D.held disk.new ≡ D.held disk.old }
    ensures units { core.new.units ≡ core.old.units }
    ensures kinds { core.new.store.kinds ≡ core.old.store.kinds }
    ensures names { core.new.names ≡ core.old.names }
    ensures output { core.new.output ≡ core.old.output }
    ensures tells { core.new.tells ≡ core.old.tells }
    ensures telling { D.tells disk.old ↔ D.tells disk.new }
    ensures later { D.count disk.old ≤ D.count disk.new }
    ensures failed { result ≡ Err Lost.Disk → Rose (D.count disk.old) (D.count disk.new) }
    ensures sink { result ≢ Err Lost.Sink }
    ensures pending { KeepsAnswers core.old core.new }
    ensures same { KeepsPending core.old core.new }
    ensures fits { HaveFiles core.old.names core.old.units → result ≢ Err Lost.Unfit }
    ensures placed { IfOk result IsPlaced }
    ensures closes { (what : PlainStatement) → IfOk result (λ next. may_do what next ≡ true) }
    ensures called { result ≡ Err Lost.Disk → is_some (file_asked subject.now) ≡ true }
    ensures files { (what : Statement) → HaveFiles core.old.names core.old.units → IfOk result (λ next. HaveNext next core.new.names core.new.units what) }
{
    let Some(number) = unit_about(&core.units, subject) else {
        return answer_other(alloc, variables, subject, asked, core, disk);
    };
    let Some(unit) = core.units.find(number) else {
        return answer_other(alloc, variables, subject, asked, core, disk);
    };
    if needs_look(asked) {
        let place = Boxed::new(alloc, None)?;
        return Ok(Doing::Awaits {
            slot: unit.slot,
            job: Job::Look(place),
            then: Then::Looks,
        });
    }
    Ok(answer_look(alloc, variables, subject, asked, id, None, core)?)
}
