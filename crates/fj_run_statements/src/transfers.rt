// READ and WRITE (ISO/IEC 1539-1:2004, 9.5).
ghost use Rattle.std.specs.Prelude.{◌<◌, ◌≡◌, ◌≢◌, ◌↔◌, ◌≤◌, ◌++◌, [], ◌∷◌, ℕ, All, List, Some, true, IfOk, OnOk, OnErr, Err};
ghost use Rattle.std.specs.Option.{option_map, option_copied};
ghost use Rattle.fj_outside.specs.Faults.{Rose};
ghost use Rattle.fj_statement.specs.declared.statement.Statement.TheVariants as statement;
ghost use Rattle.fj_statement.specs.Sound.{IsAllowed, IsTransfer};
ghost use Rattle.fj_store.specs.Storage.{values_of};
ghost use Rattle.fj_bay.specs.Jobs.{Job as Task, move};
ghost use Rattle.fj_bay.specs.Plain.{moving_of as task_of};
ghost use Rattle.fj_meaning.specs.State.{Files};
ghost use Rattle.fj_meaning.specs.Statement.{Stated, control_by};
ghost use Rattle.fj_meaning.specs.Transfers.{moved_in, with_cells};
ghost use Rattle.fj_meaning_jobs.specs.Core.{Connected as PlainConnected, connected_at};
ghost use Rattle.fj_meaning_jobs.specs.Acting.{refused, transferred, on_unit, transfer_at, with_items_out};
ghost use Rattle.fj_run_items.specs.Kinds.{kinds_of};
ghost use Rattle.fj_run_items.specs.Handing.{HandsOver, HandsFront, HandsPart};
ghost use Rattle.fj_run_pending.specs.Fitting.{IsNext};
ghost use Rattle.fj_run_pending.specs.Plain.{brought_of, held};
ghost use Rattle.fj_run_pending.specs.declared.held.Held.{Held};
ghost use Rattle.fj_meaning_jobs.specs.Desks.{most_slots};
ghost use Rattle.fj_statement.specs.declared.statement.Statement.{Statement as PlainStatement};
ghost use Rattle.fj_run_statements.specs.Calling.{may_do};
ghost use Rattle.fj_run_statements.specs.Placing.{IsPlaced};
ghost use Rattle.fj_run_statements.specs.Jobs.{GivesOne};
ghost use Rattle.fj_run_statements.specs.Fitting.{IsKept, MayPend};
ghost use Rattle.fj_run_statements.specs.Holding.{Enters, HoldsMore, pending_under, unanswered};
ghost use Rattle.fj_run_statements.specs.State.{KeepsAnswers, KeepsPending, core_of, core_at};
ghost use Rattle.fj_run_statements.specs.Doing.{IsDoing, entered, ends_behind};
ghost use Rattle.fj_statement.specs.declared.statement.Statement.{Statement};
ghost use Rattle.fj_run_units.specs.Having.{HaveFiles};
ghost use Rattle.fj_run_statements.specs.Having.{HaveNext};

use crate::doing::{Doing, Given, Then};
use crate::lost::lost_by_entry;
use crate::places::distinct_places;
use crate::state::Core;
use fj_bay::Job;
use fj_outside::{FileStore, Sink};
use fj_run_items::{
    Lost, give_cells, moving, refusal, set_number, transfer_inside, undefine, write_star,
};
use fj_run_pending::{Held, Pendings, Told, runs_held};
use fj_statement::{Transfer, UnitRef, Variables};
use fj_value::{Condition, Tag};
use std::alloc::{AllocError, Global};

/// A transfer that is not carried out: the items of an input have no value.
#[tactic(auto, using(crate::proofs::StateLemmas::answers_kept))]
pub(crate) fn refuse<F: FileStore>(
    variables: &Variables,
    t: &Transfer,
    condition: Condition,
    core: &mut Core,
) -> Result<Doing<F>, Lost>
    requires { core.old.store.kinds ≡ kinds_of variables.now }
    ensures doing { (st : Stated) (files : Files) → IfOk result (λ next. IsDoing F.told F.bytes variables.now st (core_of files core.new) next
        (refused variables.now (core_of files core.old) t.now (moved_in variables.now (values_of core.old.store) t.now) condition)) }
    ensures units { core.new.units ≡ core.old.units }
    ensures kinds { core.new.store.kinds ≡ core.old.store.kinds }
    ensures names { core.new.names ≡ core.old.names }
    ensures output { core.new.output ≡ core.old.output }
    ensures tells { core.new.tells ≡ core.old.tells }
    ensures causes { (result ≢ Err Lost.Disk) × (result ≢ Err Lost.Sink) }
    ensures pending { KeepsAnswers core.old core.new }
    ensures same { KeepsPending core.old core.new }
    ensures fits { IsAllowed t.now → result ≢ Err Lost.Unfit }
    ensures placed { IfOk result IsPlaced }
    ensures closes { (what : PlainStatement) → IfOk result (λ next. may_do what next ≡ true) }
    ensures files { (what : Statement) → HaveFiles core.old.names core.old.units → IfOk result (λ next. HaveNext next core.new.names core.new.units what) }
{
    if undefine(variables, &mut core.store, t).is_err() {
        return Err(Lost::Unfit);
    }
    Ok(Doing::Finishes(condition))
}

/// A transfer on a connected unit: asynchronous, or carried out before the statement goes on.
#[tactic(auto, using(crate::proofs::StateLemmas::answers_kept))]
#[inline(always)]
fn transfer<F: FileStore>(
    alloc: Global,
    variables: &Variables,
    line: u32,
    t: &Transfer,
    unit: u32,
    slot: u32,
    core: &mut Core,
) -> Result<Doing<F>, Lost>
    requires { core.old.store.kinds ≡ kinds_of variables.now }
    ensures doing { (u : PlainConnected) (st : Stated) (files : Files) → u.number ≡ unit → u.slot ≡ slot → st.0.what ≡ statement.Transfer t.now →
        IfOk result (λ next. IsDoing F.told F.bytes variables.now st (core_of files core.new) next
        (transferred (control_by (statement.Transfer t.now)) variables.now line (core_of files core.old) t.now (moved_in variables.now (values_of core.old.store) t.now) u)) }
    ensures units { core.new.units ≡ core.old.units }
    ensures kinds { core.new.store.kinds ≡ core.old.store.kinds }
    ensures names { core.new.names ≡ core.old.names }
    ensures output { core.new.output ≡ core.old.output }
    ensures tells { core.new.tells ≡ core.old.tells }
    ensures causes { (result ≢ Err Lost.Disk) × (result ≢ Err Lost.Sink) }
    ensures pending { KeepsAnswers core.old core.new }
    ensures same { KeepsPending core.old core.new }
    ensures fits { IsTransfer variables.now t.now → result ≢ Err Lost.Unfit }
    ensures placed { slot < most_slots → IfOk result IsPlaced }
    ensures closes { (what : PlainStatement) → IfOk result (λ next. may_do what next ≡ true) }
    ensures files { (what : Statement) → HaveFiles core.old.names core.old.units → IfOk result (λ next. HaveNext next core.new.names core.new.units what) }
{
    if t.asynchronous.unwrap_or(false) {
        let tag = Tag(core.next);
        let job = moving(alloc, variables, &mut core.store, line, tag, t)?;
        return Ok(Doing::Gives {
            slot,
            job: Job::Move(job),
            next: Given::Pends { unit, slot },
        });
    }
    let job = moving(alloc, variables, &mut core.store, line, Tag(0), t)?;
    Ok(Doing::Awaits {
        slot,
        job: Job::Move(job),
        then: Then::Carries { slot },
    })
}

/// A transfer on the unit of a number: 1 where it is not connected, and what the statement itself tells.
#[tactic(auto, using(crate::proofs::StateLemmas::answers_kept))]
#[inline(always)]
fn transfer_on<F: FileStore>(
    alloc: Global,
    variables: &Variables,
    line: u32,
    t: &Transfer,
    number: u32,
    core: &mut Core,
) -> Result<Doing<F>, Lost>
    requires { core.old.store.kinds ≡ kinds_of variables.now }
    ensures doing { (st : Stated) (files : Files) → st.0.what ≡ statement.Transfer t.now →
        IfOk result (λ next. IsDoing F.told F.bytes variables.now st (core_of files core.new) next
        (on_unit (control_by (statement.Transfer t.now)) variables.now line (core_of files core.old) t.now (moved_in variables.now (values_of core.old.store) t.now)
        (connected_at core.old.units number))) }
    ensures units { core.new.units ≡ core.old.units }
    ensures kinds { core.new.store.kinds ≡ core.old.store.kinds }
    ensures names { core.new.names ≡ core.old.names }
    ensures output { core.new.output ≡ core.old.output }
    ensures tells { core.new.tells ≡ core.old.tells }
    ensures causes { (result ≢ Err Lost.Disk) × (result ≢ Err Lost.Sink) }
    ensures pending { KeepsAnswers core.old core.new }
    ensures same { KeepsPending core.old core.new }
    ensures fits { IsTransfer variables.now t.now → result ≢ Err Lost.Unfit }
    ensures placed { IfOk result IsPlaced }
    ensures closes { (what : PlainStatement) → IfOk result (λ next. may_do what next ≡ true) }
    ensures files { (what : Statement) → HaveFiles core.old.names core.old.units → IfOk result (λ next. HaveNext next core.new.names core.new.units what) }
{
    let Some(unit) = core.units.find(number) else {
        return refuse(variables, t, Condition::NOT_CONNECTED, core);
    };
    let slot = unit.slot;
    match refusal(&unit.modes, t) {
        Condition::Fine => transfer(alloc, variables, line, t, number, slot, core),
        condition => refuse(variables, t, condition, core),
    }
}

/// READ or WRITE, on `*`, an internal file or a unit.
#[tactic(auto, using(crate::proofs::StateLemmas::answers_kept))]
#[inline(always)]
pub(crate) fn read_or_write<F: FileStore, W: Sink>(
    alloc: Global,
    variables: &Variables,
    line: u32,
    t: &Transfer,
    core: &mut Core,
    out: &mut W,
) -> Result<Doing<F>, Lost>
    requires { core.old.store.kinds ≡ kinds_of variables.now }
    ensures doing { (st : Stated) (files : Files) → st.0.what ≡ statement.Transfer t.now →
        IfOk result (λ next. IsDoing F.told F.bytes variables.now st (core_of files core.new) next
        (transfer_at (control_by (statement.Transfer t.now)) variables.now line (core_of files core.old) t.now (moved_in variables.now (values_of core.old.store) t.now) t.now.unit)) }
    ensures units { core.new.units ≡ core.old.units }
    ensures kinds { core.new.store.kinds ≡ core.old.store.kinds }
    ensures names { core.new.names ≡ core.old.names }
    ensures disk { result ≢ Err Lost.Disk }
    ensures telling { W.tells out.old ↔ W.tells out.new }
    ensures output { W.tells out.old → OnOk result (HandsOver (W.taken out.old) (W.taken out.new) core.old.output core.new.output) }
    ensures front { W.tells out.old → (files : Files) → OnErr result (HandsFront (W.taken out.old) (W.taken out.new) core.old.output
        (core_at (transfer_at (control_by (statement.Transfer t.now)) variables.now line (core_of files core.old) t.now (moved_in variables.now (values_of core.old.store) t.now) t.now.unit)).output) }
    ensures part { W.tells out.old → (files : Files) → result ≡ Err Lost.Sink → HandsPart (W.taken out.old) (W.taken out.new) core.old.output
        (core_at (transfer_at (control_by (statement.Transfer t.now)) variables.now line (core_of files core.old) t.now (moved_in variables.now (values_of core.old.store) t.now) t.now.unit)).output }
    ensures tells { core.new.tells ≡ core.old.tells }
    ensures later { W.count out.old ≤ W.count out.new }
    ensures failed { result ≡ Err Lost.Sink → Rose (W.count out.old) (W.count out.new) }
    ensures pending { KeepsAnswers core.old core.new }
    ensures same { KeepsPending core.old core.new }
    ensures keeps { IsKept core.old → OnOk result (IsKept core.new) }
    ensures fits { IsTransfer variables.now t.now → IsKept core.old → result ≢ Err Lost.Unfit }
    ensures placed { IfOk result IsPlaced }
    ensures closes { (what : PlainStatement) → IfOk result (λ next. may_do what next ≡ true) }
    ensures files { (what : Statement) → HaveFiles core.old.names core.old.units → IfOk result (λ next. HaveNext next core.new.names core.new.units what) }
{
    match t.unit {
        UnitRef::Star => {
            let store = &mut core.store;
            let output = &mut core.output;
            match write_star(alloc, variables, store, output, out, t) {
                Ok(condition) => Ok(Doing::Finishes(condition)),
                Err(lost) => Err(lost),
            }
        }
        UnitRef::Internal(file) => {
            match transfer_inside(alloc, variables, &mut core.store, t, file) {
                Ok(condition) => Ok(Doing::Finishes(condition)),
                Err(cause) => Err(cause),
            }
        }
        UnitRef::Number(number)
        | UnitRef::Held { place: _, number }
        | UnitRef::New { place: _, number } => {
            transfer_on(alloc, variables, line, t, number, core)
        }
    }
}

/// A transfer is pending under an identifier, with no answer yet. Where it is not entered nothing changes.
fn hold(
    alloc: Global,
    variables: &Variables,
    t: &Transfer,
    tag: Tag,
    unit: u32,
    slot: u32,
    number: u64,
    pending: &mut Pendings,
) -> Result<(), Lost>
    ensures ok { OnOk result (held pending.new ≡ held pending.old ++ unanswered (pending_under variables.now tag.0 t.now unit slot number) ∷ []) }
    ensures one { OnOk result (HoldsMore tag.0 slot number pending.old pending.new) }
    ensures err { OnErr result (pending.new ≡ pending.old) }
    ensures causes { (result ≢ Err Lost.Disk) × (result ≢ Err Lost.Sink) }
    ensures fits { ((h : Held) → h.tag.0 ≡ tag.0 → h.slot ≡ slot → h.number ≡ number → IsNext pending.old h) → result ≢ Err Lost.Unfit }
{
    let runs = runs_held(alloc, variables.as_slice(), t)?;
    let places = distinct_places(alloc, runs.as_slice())?;
    let held = Held {
        tag,
        unit,
        input: t.input,
        runs,
        size: t.size,
        slot,
        number,
        answer: None,
    };
    match pending.enter(held, places) {
        Ok(()) => Ok(()),
        Err(lost) => Err(lost_by_entry(lost)),
    }
}

/// An asynchronous transfer is pending under the next identifier, which ID= gets.
#[tactic(auto, using(crate::proofs::StateLemmas::answers_kept))]
pub(crate) fn enter(
    alloc: Global,
    variables: &Variables,
    t: &Transfer,
    unit: u32,
    slot: u32,
    number: u64,
    core: &mut Core,
) -> Result<(), Lost>
    requires { core.old.store.kinds ≡ kinds_of variables.now }
    ensures entered { (files : Files) → OnOk result (core_of files core.new ≡ entered variables.now (core_of files core.old) t.now unit slot number) }
    ensures kinds { core.new.store.kinds ≡ core.old.store.kinds }
    ensures names { core.new.names ≡ core.old.names }
    ensures units { core.new.units ≡ core.old.units }
    ensures output { core.new.output ≡ core.old.output }
    ensures tells { core.new.tells ≡ core.old.tells }
    ensures causes { (result ≢ Err Lost.Disk) × (result ≢ Err Lost.Sink) }
    ensures pending { KeepsAnswers core.old core.new }
    ensures enters { OnOk result (Enters slot number core.old core.new) }
    ensures err { OnErr result (KeepsPending core.old core.new) }
    ensures fits { MayPend core.old slot number → result ≢ Err Lost.Unfit }
{
    let tag = Tag(core.next);
    let Some(next) = core.next.checked_add(1) else {
        return Err(Lost::Unfit);
    };
    set_number(variables, &mut core.store, t.id, i64::from(tag.0));
    let pending = &mut core.pending;
    hold(alloc, variables, t, tag, unit, slot, number, pending)?;
    core.next = next;
    Ok(())
}

/// A transfer came back: its items have their values, and a halt that it set ends.
#[tactic(auto, using(crate::proofs::StateLemmas::answers_kept))]
#[inline(always)]
pub(crate) fn carry<F: FileStore>(
    variables: &Variables,
    t: &Transfer,
    slot: u32,
    told: Told,
    core: &mut Core,
) -> Doing<F>
    requires { core.old.store.kinds ≡ kinds_of variables.now }
    ensures doing { (st : Stated) (files : Files) → IsDoing F.told F.bytes variables.now st (core_of files core.new) result
        (ends_behind slot (record (core_of files core.old) { vars = with_cells variables.now t.now (brought_of told).cells (brought_of told).count (values_of core.old.store) }) told.condition) }
    ensures units { core.new.units ≡ core.old.units }
    ensures kinds { core.new.store.kinds ≡ core.old.store.kinds }
    ensures names { core.new.names ≡ core.old.names }
    ensures output { core.new.output ≡ core.old.output }
    ensures tells { core.new.tells ≡ core.old.tells }
    ensures pending { KeepsAnswers core.old core.new }
    ensures same { KeepsPending core.old core.new }
    ensures placed { slot < most_slots → IsPlaced result }
    ensures jobs { GivesOne result }
    ensures closes { (what : PlainStatement) → may_do what result ≡ true }
    ensures files { (what : Statement) → HaveFiles core.old.names core.old.units → HaveNext result core.new.names core.new.units what }
{
    give_cells(
        variables,
        &mut core.store,
        t.input,
        t.size,
        told.moved,
        told.count,
    );
    match told.condition {
        Condition::EndOfFile | Condition::Error(_) => Doing::Gives {
            slot,
            job: Job::Resume,
            next: Given::Finishes(told.condition),
        },
        Condition::Fine | Condition::EndOfRecord => Doing::Finishes(told.condition),
    }
}
