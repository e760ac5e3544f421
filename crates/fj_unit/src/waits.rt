// Outcomes that were taken out of a unit, until a WAIT tells them.
ghost use Rattle.std.specs.Prelude.{◌≡◌, ◌+◌, ◌<◌, ◌≤◌, ℕ, [], ◌∷◌, ◌++◌, length, map, take, drop, slice_get, true, false, Ok, Some, IfOk, IfSome, IfNone, OnOk, OnErr, IsTrue};
ghost use Rattle.fj_bay.specs.Halt.{halts};
ghost use Rattle.fj_bay.specs.Jobs as plain;
ghost use Rattle.fj_unit.specs.Held.{task, reply};
ghost use Rattle.fj_unit.specs.Program.{outcome_of, behind, held_by, id_in, id_of, condition_in, graver, gravest, waited_all, WaitsFor, LacksId, HasValues, MayEnd};
ghost use Rattle.fj_unit.specs.Statements.{modes_of};
ghost use Rattle.fj_unit.specs.Unit.{given, told};

use crate::transfer::copy_read;
use crate::unit::{Outcome, Unit};
use fj_bay::{Answer, Job};
use fj_outside::{MemoryFile, Stop};
use fj_value::Condition;
use std::mem::swap;

/// The identifier of a transfer.
fn id_in(job: &Job<MemoryFile>) -> u32
    ensures { result ≡ id_in (task job.now) }
{
    match job {
        Job::Move(transfer) => transfer.get().tag.0,
        _ => 0,
    }
}

fn condition_in(answer: Answer) -> Condition
    ensures { result ≡ condition_in (reply answer) }
{
    match answer {
        Answer::Done(condition) | Answer::Skipped(condition) => condition,
    }
}

fn graver(one: Condition, other: Condition) -> Condition
    ensures { result ≡ graver one other }
{
    match one {
        Condition::Error(_) => one,
        Condition::Fine => other,
        Condition::EndOfFile => match other {
            Condition::Error(_) => other,
            _ => one,
        },
        Condition::EndOfRecord => match other {
            Condition::Fine => one,
            _ => other,
        },
    }
}

/// The condition of a WAIT that tells them.
fn gravest(kept: &[Outcome]) -> Condition
    ensures { result ≡ gravest (map outcome_of kept.now) }
{
    let mut so_far = Condition::Fine;
    let mut at = kept.len();
    while at > 0 {
        at -= 1;
        so_far = graver(condition_in(kept[at].answer), so_far);
    }
    so_far
}

/// Whether it halts a unit.
fn is_halt(condition: Condition) -> bool
    ensures { result ≡ halts condition }
{
    match condition {
        Condition::EndOfFile | Condition::Error(_) => true,
        Condition::Fine | Condition::EndOfRecord => false,
    }
}

/// Takes the next outcome out of the unit; false where none is left.
fn take_one(unit: &mut Unit, kept: &mut Vec<Outcome>) -> Result<bool, Stop>
    ensures same { behind (map outcome_of kept.new.items) unit.new ≡ behind (map outcome_of kept.old.items) unit.old }
    ensures modes { modes_of unit.new.bay ≡ modes_of unit.old.bay }
    ensures more { result ≡ Ok true → length kept.new.items ≡ length kept.old.items + 1 }
    ensures fewer { result ≡ Ok true → length unit.new.pending + 1 ≡ length unit.old.pending }
    ensures none { result ≡ Ok false → (unit.new.pending ≡ []) × (kept.new.items ≡ kept.old.items) }
{
    if unit.count_pending() == 0 {
        return Ok(false);
    }
    kept.reserve(1)?;
    match unit.tell_next() {
        Some(Ok(outcome)) => {
            kept.push_reserved(outcome);
            Ok(true)
        }
        Some(Err(stop)) => Err(stop),
        None => Err(Stop::Failed),
    }
}

/// Takes all of them out.
fn take_all(unit: &mut Unit, kept: &mut Vec<Outcome>) -> Result<(), Stop>
    ensures same { behind (map outcome_of kept.new.items) unit.new ≡ behind (map outcome_of kept.old.items) unit.old }
    ensures modes { modes_of unit.new.bay ≡ modes_of unit.old.bay }
    ensures none { OnOk result (unit.new.pending ≡ []) }
{
    while unit.count_pending() > 0 {
        let _ = take_one(unit, kept)?;
    }
    Ok(())
}

/// Whether an outcome has that place. Where it is the next of the unit it is taken out.
fn has_at(unit: &mut Unit, kept: &mut Vec<Outcome>, at: usize) -> Result<bool, Stop>
    requires { at ≤ length kept.old.items }
    ensures same { behind (map outcome_of kept.new.items) unit.new ≡ behind (map outcome_of kept.old.items) unit.old }
    ensures modes { modes_of unit.new.bay ≡ modes_of unit.old.bay }
    ensures yes { result ≡ Ok true → at < length kept.new.items }
    ensures no { result ≡ Ok false → (unit.new.pending ≡ []) × (length kept.new.items ≡ at) }
{
    if at < kept.len() {
        return Ok(true);
    }
    take_one(unit, kept)
}

/// Where the transfer of an identifier stands; those in front of it are taken out of the unit, and it too.
fn find(unit: &mut Unit, kept: &mut Vec<Outcome>, id: u32) -> Result<Option<usize>, Stop>
    ensures same { behind (map outcome_of kept.new.items) unit.new ≡ behind (map outcome_of kept.old.items) unit.old }
    ensures modes { modes_of unit.new.bay ≡ modes_of unit.old.bay }
    ensures within { IfOk result (λ it. IfSome it (λ at. at < length kept.new.items)) }
    ensures found { IfOk result (λ it. IfSome it (λ at. (o : Outcome) → slice_get kept.new.items at ≡ Some o → id_in (task o.job) ≡ id)) }
    ensures none { IfOk result (λ it. IfNone it (LacksId (behind (map outcome_of kept.old.items) unit.old).pending id)) }
{
    let mut at = 0;
    while has_at(unit, kept, at)? {
        if id_in(&kept[at].job) == id {
            return Ok(Some(at));
        }
        at += 1;
    }
    Ok(None)
}

/// Ends the halt.
#[tactic(auto, using(crate::proofs::Modes::modes_resumed))]
fn resume(unit: &mut Unit) -> Result<(), Stop>
    ensures ok { OnOk result (unit.new ≡ told (given unit.old plain.resume)) }
    ensures err { OnErr result (MayEnd unit.old unit.new) }
    ensures modes { modes_of unit.new.bay ≡ modes_of unit.old.bay }
{
    unit.give(Job::Resume)?;
    match unit.tell_next() {
        Some(Ok(_)) => Ok(()),
        Some(Err(stop)) => Err(stop),
        None => Err(Stop::Failed),
    }
}

/// Tells all transfers.
pub(crate) fn tell_all(
    unit: &mut Unit,
    kept: &mut Vec<Outcome>,
    told: &mut Vec<Outcome>,
) -> Result<Condition, Stop>
    ensures ok { IfOk result (λ condition. (n : ℕ) → (held_by unit.new n kept.new.items told.new.items, condition) ≡ waited_all (held_by unit.old n kept.old.items told.old.items)) }
    ensures err { OnErr result (MayEnd (behind (map outcome_of kept.old.items) unit.old) (behind (map outcome_of kept.new.items) unit.new)) }
    ensures stays { OnErr result (told.new.items ≡ told.old.items) }
    ensures modes { modes_of unit.new.bay ≡ modes_of unit.old.bay }
{
    take_all(unit, kept)?;
    let condition = gravest(kept);
    if is_halt(condition) {
        resume(unit)?;
    }
    told.clear();
    swap(told, kept);
    Ok(condition)
}

/// Tells the transfer at a place alone.
fn tell_at(kept: &mut Vec<Outcome>, told: &mut Vec<Outcome>, at: usize) -> Result<(), Stop>
    requires { at < length kept.old.items }
    ensures left { OnOk result (kept.new.items ≡ take at kept.old.items ++ drop (at + 1) kept.old.items) }
    ensures told { OnOk result (IfSome (slice_get kept.old.items at) (λ o. told.new.items ≡ o ∷ [])) }
    ensures err { OnErr result ((kept.new.items ≡ kept.old.items) × (told.new.items ≡ told.old.items)) }
{
    told.reserve(1)?;
    told.clear();
    told.push_reserved(kept.remove(at));
    Ok(())
}

/// Tells the transfer of an identifier, and all others too where it halted; nothing where none has it.
pub(crate) fn tell_one(
    unit: &mut Unit,
    kept: &mut Vec<Outcome>,
    told: &mut Vec<Outcome>,
    id: u32,
) -> Result<Option<Condition>, Stop>
    ensures some { IfOk result (λ it. IfSome it (λ condition. (n : ℕ) →
        WaitsFor (held_by unit.old n kept.old.items told.old.items) (held_by unit.new n kept.new.items told.new.items) id condition)) }
    ensures none { IfOk result (λ it. IfNone it (LacksId (behind (map outcome_of kept.old.items) unit.old).pending id)) }
    ensures same { IfOk result (λ it. IfNone it (behind (map outcome_of kept.new.items) unit.new ≡ behind (map outcome_of kept.old.items) unit.old)) }
    ensures still { IfOk result (λ it. IfNone it (told.new.items ≡ told.old.items)) }
    ensures err { OnErr result (MayEnd (behind (map outcome_of kept.old.items) unit.old) (behind (map outcome_of kept.new.items) unit.new)) }
    ensures stays { OnErr result (told.new.items ≡ told.old.items) }
    ensures modes { modes_of unit.new.bay ≡ modes_of unit.old.bay }
{
    let Some(at) = find(unit, kept, id)? else {
        return Ok(None);
    };
    let condition = condition_in(kept[at].answer);
    if is_halt(condition) {
        return Ok(Some(tell_all(unit, kept, told)?));
    }
    tell_at(kept, told, at)?;
    Ok(Some(condition))
}

/// Copies what the READ of an identifier read into an array.
pub(crate) fn copy_told(told: &[Outcome], id: u32, out: &mut [i64]) -> bool
    ensures { IsTrue result → HasValues (map outcome_of told.now) id out.new }
{
    for at in 0..told.len() {
        let outcome = &told[at];
        if id_in(&outcome.job) == id {
            return copy_read(&outcome.job, out);
        }
    }
    false
}
