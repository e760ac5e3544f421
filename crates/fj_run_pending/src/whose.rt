// Which pending transfers a statement waits for (ISO/IEC 1539-1:2004, 9.6).
ghost use Rattle.std.specs.Prelude.{◌≡◌, ◌↔◌, ◌⊎◌, List, [], IsTrue};
ghost use Rattle.fj_store.specs.Storage.{values_of};
ghost use Rattle.fj_store.specs.Variables.{value_at};
ghost use Rattle.fj_meaning.specs.State.{Entry};
ghost use Rattle.fj_meaning.specs.Items.{integer_of, value_of};
ghost use Rattle.fj_meaning.specs.Needs.{number_of, number_given, number_of_subject};
ghost use Rattle.fj_meaning.specs.Telling.{if_done, of_unit, waited_by, waited_in};
ghost use Rattle.fj_run_pending.specs.Plain.{entries};
ghost use Rattle.fj_run_pending.specs.Waits.{waited_of};

use crate::pendings::Pendings;
use fj_statement::{Operand, Statement, Subject, UnitRef};
use fj_store::Store;
use fj_value::{Place, Value};

#[derive(Clone, Copy, PartialEq, Eq)]
pub enum Whose {
    None,
    /// All of a unit.
    OfUnit(u32),
    /// That of an identifier, and all of the unit where that one tells an error or the end of the file.
    OfId(u32, i64),
    All,
}

fn integer_of(value: &Value) -> Option<i64>
    ensures { result ≡ integer_of value.now }
{
    match value {
        Value::Int(number) => Some(*number),
        _ => None,
    }
}

/// The number at a place.
fn number_at(store: &Store, place: Place) -> Option<i64>
    ensures { result ≡ integer_of (value_at (values_of store.now) place) }
{
    match store.read(place) {
        Some(value) => integer_of(value),
        None => None,
    }
}

/// The value of a literal or a place, where it is a number.
fn number_in(store: &Store, operand: &Operand) -> Option<i64>
    ensures { result ≡ integer_of (value_of (values_of store.now) operand.now) }
{
    match operand {
        Operand::Literal { kind: _, value } => integer_of(value),
        Operand::One(place) => number_at(store, *place),
        Operand::Whole { var: _ } => None,
    }
}

/// The value of ID=.
pub(crate) fn number_given(store: &Store, operand: &Option<Operand>) -> Option<i64>
    ensures { result ≡ number_given (values_of store.now) operand.now }
{
    match operand {
        Some(operand) => number_in(store, operand),
        None => None,
    }
}

/// All of a unit.
fn of_unit(unit: UnitRef) -> Whose
    ensures { (es : List Entry) → waited_of result es ≡ of_unit es (number_of unit) }
{
    match unit.number() {
        Some(number) => Whose::OfUnit(number),
        None => Whose::None,
    }
}

/// What WAIT waits for.
fn by_id(unit: UnitRef, id: Option<i64>) -> Whose
    ensures { (es : List Entry) → waited_of result es ≡ waited_by es (number_of unit) id }
{
    match unit.number() {
        Some(number) => match id {
            Some(id) => Whose::OfId(number, id),
            None => Whose::OfUnit(number),
        },
        None => Whose::None,
    }
}

/// What INQUIRE waits for: nothing, unless the transfers that PENDING= asks about are done.
fn inquires_for(about: &Subject, done: Option<bool>, id: Option<i64>) -> Whose
    ensures { (es : List Entry) → waited_of result es ≡ if_done done (waited_by es (number_of_subject about.now) id) }
{
    match done {
        Some(true) => match about {
            Subject::Unit(unit) => by_id(*unit, id),
            Subject::File(_) => Whose::None,
        },
        Some(false) | None => Whose::None,
    }
}

/// Which transfers a statement waits for.
pub fn waits_for(statement: &Statement, store: &Store) -> Whose
    ensures { (es : List Entry) → waited_of result es ≡ waited_in es (values_of store.now) statement.now }
{
    match statement {
        Statement::Assign { to: _, from: _ } => Whose::None,
        Statement::OpenUnit {
            unit,
            spec: _,
            iostat: _,
        } => of_unit(*unit),
        Statement::CloseUnit {
            unit,
            keep: _,
            iostat: _,
        } => of_unit(*unit),
        Statement::WaitFor {
            unit,
            id,
            iostat: _,
        } => by_id(*unit, number_given(store, id)),
        Statement::Move {
            how: _,
            unit,
            iostat: _,
        } => of_unit(*unit),
        Statement::Inquire {
            about,
            asked: _,
            id,
            iostat: _,
            done,
        } => inquires_for(about, *done, number_given(store, id)),
        Statement::Transfer(transfer) => {
            if transfer.asynchronous.unwrap_or(false) {
                Whose::None
            } else {
                of_unit(transfer.unit)
            }
        }
        Statement::End => Whose::All,
    }
}

/// Whether no transfer can be one that is waited for: the statement waits for none, or none is pending.
pub fn is_idle(pendings: &Pendings, whose: Whose) -> bool
    ensures exact { IsTrue result ↔ ((whose ≡ Whose.None) ⊎ (pendings.now ≡ [])) }
    ensures waited { IsTrue result → waited_of whose (entries pendings.now) ≡ [] }
{
    if pendings.entries().is_empty() {
        return true;
    }
    match whose {
        Whose::None => true,
        _ => false,
    }
}
