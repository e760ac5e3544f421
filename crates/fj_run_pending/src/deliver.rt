// What telling transfers does to the variables (ISO/IEC 1539-1:2004, 9.5.1.4, 9.6).
ghost use Rattle.std.specs.Prelude.{◌≡◌, ◌++◌, List, [], ◌∷◌, map, IfOk, OnOk};
ghost use Rattle.fj_value.specs.declared.place.Place.{Place};
ghost use Rattle.fj_statement.specs.declared.deck.Variable.{Variable};
ghost use Rattle.fj_store.specs.Kinds.{of_kind};
ghost use Rattle.fj_store.specs.Storage.{values_of};
ghost use Rattle.fj_meaning.specs.Items.{kind_of, given_back};
ghost use Rattle.fj_meaning.specs.Telling.{count_for, graver, with_input, with_inputs, with_size};
ghost use Rattle.fj_meaning.specs.Telling as telling;
ghost use Rattle.fj_run_pending.specs.Plain.{cells_of, entry_of, entries, tells_of};

use crate::held::{Held, Told};
use crate::pick::condition_of;
use crate::tell::Tell;
use fj_moved::Load;
use fj_store::Store;
use fj_value::{Condition, Items, Place, Value};
use std::alloc::AllocError;
use std::collections::VecDeque;

/// What SIZE= gets for a count: its variable has that as its kind does. No kind has 2^63 or more.
#[tactic(auto, using(crate::proofs::Giving::too_great))]
fn value_of(count: Option<u64>) -> Value
    ensures { (variables : List Variable) (place : Place) → of_kind (kind_of variables place.var) result ≡ count_for variables place count }
{
    let Some(number) = count else {
        return Value::Undefined;
    };
    if number > 9223372036854775807 {
        return Value::Undefined;
    }
    Value::Int(number as i64)
}

/// SIZE= gets the count of characters.
fn give_size(store: &mut Store, size: Option<Place>, count: Option<u64>)
    ensures values { (variables : List Variable) → store.old.kinds ≡ map (λ v. v.kind) variables → values_of store.new ≡ with_size variables size count (values_of store.old) }
    ensures kinds { store.new.kinds ≡ store.old.kinds }
{
    if let Some(place) = size {
        store.set(place, value_of(count));
    }
}

/// The items get their values.
fn give_items(store: &mut Store, moved: Option<Load>)
    ensures values { (variables : List Variable) → store.old.kinds ≡ map (λ v. v.kind) variables → values_of store.new ≡ given_back variables (cells_of moved) (values_of store.old) }
    ensures kinds { store.new.kinds ≡ store.old.kinds }
{
    if let Some(moved) = moved {
        store.give_load(moved);
    }
}

/// The items and SIZE= of an input become defined or undefined.
fn give(store: &mut Store, held: Held)
    ensures values { (variables : List Variable) → store.old.kinds ≡ map (λ v. v.kind) variables → values_of store.new ≡ with_input variables (entry_of held) (values_of store.old) }
    ensures kinds { store.new.kinds ≡ store.old.kinds }
{
    let Held {
        input,
        size,
        answer,
        ..
    } = held;
    if !input {
        return;
    }
    let Some(told) = answer else {
        give_size(store, size, None);
        return;
    };
    give_items(store, told.moved);
    give_size(store, size, told.count);
}

/// The graver of two conditions, of which the first was told first.
fn graver(first: Condition, other: Condition) -> Condition
    ensures { result ≡ graver first other }
{
    match first {
        Condition::Error(number) => Condition::Error(number),
        Condition::Fine => other,
        Condition::EndOfFile => match other {
            Condition::Error(number) => Condition::Error(number),
            _ => Condition::EndOfFile,
        },
        Condition::EndOfRecord => match other {
            Condition::Fine => Condition::EndOfRecord,
            _ => other,
        },
    }
}

/// Tells one transfer.
fn deliver_one(
    held: Held,
    line: u32,
    store: &mut Store,
    tells: &mut Items<Tell>,
) -> Result<Condition, AllocError>
    ensures condition { IfOk result (λ condition. condition ≡ (entry_of held).condition) }
    ensures values { (variables : List Variable) → store.old.kinds ≡ map (λ v. v.kind) variables → OnOk result (values_of store.new ≡ with_input variables (entry_of held) (values_of store.old)) }
    ensures kinds { store.new.kinds ≡ store.old.kinds }
    ensures tells { OnOk result (tells_of tells.new ≡ tells_of tells.old ++ telling.tell_of line (entry_of held) ∷ []) }
{
    let condition = condition_of(&held);
    let tell = Tell {
        line,
        unit: held.unit,
        id: held.tag.0,
        condition,
    };
    tells.push(tell)?;
    give(store, held);
    Ok(condition)
}

/// Tells transfers in their order.
pub(crate) fn deliver(
    told: VecDeque<Held>,
    line: u32,
    store: &mut Store,
    tells: &mut Items<Tell>,
) -> Result<Condition, AllocError>
    ensures condition { IfOk result (λ condition. condition ≡ telling.condition_of (entries told.items)) }
    ensures values { (variables : List Variable) → store.old.kinds ≡ map (λ v. v.kind) variables → OnOk result (values_of store.new ≡ with_inputs variables (entries told.items) (values_of store.old)) }
    ensures kinds { store.new.kinds ≡ store.old.kinds }
    ensures tells { OnOk result (tells_of tells.new ≡ tells_of tells.old ++ map (telling.tell_of line) (entries told.items)) }
{
    let mut left = told;
    tells.reserve(left.len())?;
    let mut condition = Condition::Fine;
    while let Some(held) = left.pop_front() {
        let next = deliver_one(held, line, store, tells)?;
        condition = graver(condition, next);
    }
    Ok(condition)
}
