// Assignment (ISO/IEC 1539-1:2004, 7.4.1.3).
ghost use Rattle.std.specs.Prelude.{◌≡◌, ◌++◌, take, replicate, OnOk, IfOk};
ghost use Rattle.std.specs.Option.{option_map_or};
ghost use Rattle.std.specs.List.{slice_get};
ghost use Rattle.fj_meaning.specs.Items.{kind_of, operand_places, places_of, value_of};
ghost use Rattle.fj_meaning.specs.State.{elements};
ghost use Rattle.fj_meaning.specs.Statement.{converted, assigned};
ghost use Rattle.fj_store.specs.Kinds.{of_kind};
ghost use Rattle.fj_store.specs.Storage.{values_of};
ghost use Rattle.fj_store.specs.Variables.{with_value};
ghost use Rattle.fj_run_items.specs.Kinds.{kinds_of};

use crate::number::kind_of;
use fj_statement::{Operand, Variable, Variables};
use fj_store::Store;
use fj_value::{Kind, Place, Text, Value};
use std::alloc::{AllocError, Global};

/// The number of the elements of a variable.
pub(crate) fn elements(variable: &Variable) -> u32
    ensures { result ≡ elements variable.now }
{
    if variable.count == 0 {
        1
    } else {
        variable.count
    }
}

/// The number of the places of a variable.
pub(crate) fn elements_of(variables: &Variables, var: u32) -> u32
    ensures { result ≡ option_map_or elements (slice_get variables.now var) 0 }
{
    match variables.get(var as usize) {
        None => 0,
        Some(variable) => elements(variable),
    }
}

/// The value of a literal or a place.
pub(crate) fn value_of(store: &Store, from: &Operand) -> Result<Value, AllocError>
    ensures { IfOk result (λ value. value ≡ value_of (values_of store.now) from.now) }
{
    match from {
        Operand::Literal { kind: _, value } => value.try_clone(),
        Operand::One(place) => match store.read(*place) {
            Some(value) => value.try_clone(),
            None => Ok(Value::Undefined),
        },
        Operand::Whole { var: _ } => Ok(Value::Undefined),
    }
}

/// Characters as a variable of a length gets them.
fn cut(alloc: Global, length: u32, chars: &[u8]) -> Result<Value, AllocError>
    ensures { IfOk result (λ new. new ≡ Value.Chars (take length (chars.now ++ replicate length 32))) }
{
    let text = Text::assigned(alloc, length, chars)?;
    Value::of_text(text)
}

/// A value that is to become that of a variable of a kind: characters have its length.
fn converted(alloc: Global, kind: Kind, value: &Value) -> Result<Value, AllocError>
    ensures { IfOk result (λ new. of_kind kind new ≡ converted kind value.now) }
{
    match (kind, value) {
        (Kind::Chars(length), Value::Chars(text)) => cut(alloc, length, text.bytes()),
        _ => value.try_clone(),
    }
}

/// One place gets a value.
fn assign_place(
    alloc: Global,
    variables: &Variables,
    store: &mut Store,
    place: Place,
    value: &Value,
) -> Result<(), AllocError>
    requires { store.old.kinds ≡ kinds_of variables.now }
    ensures vars { OnOk result (values_of store.new ≡ with_value (values_of store.old) place (converted (kind_of variables.now place.var) value.now)) }
    ensures kinds { store.new.kinds ≡ store.old.kinds }
{
    let kind = kind_of(variables, place.var);
    let new = converted(alloc, kind, value)?;
    store.set(place, new);
    Ok(())
}

/// Each place of an array gets a value.
fn assign_array(
    alloc: Global,
    variables: &Variables,
    store: &mut Store,
    var: u32,
    value: &Value,
) -> Result<(), AllocError>
    requires { store.old.kinds ≡ kinds_of variables.now }
    ensures vars { OnOk result (values_of store.new ≡ assigned variables.now (places_of variables.now var) value.now (values_of store.old)) }
    ensures kinds { store.new.kinds ≡ store.old.kinds }
{
    for at in 0..elements_of(variables, var) {
        let place = Place { var, index: at + 1 };
        assign_place(alloc, variables, store, place, value)?;
    }
    Ok(())
}

/// A place, or each place of an array, gets the value of a literal or a place, as its variable has it. Characters are cut, or filled
/// up with blanks; a value of another kind leaves the place undefined. After an `Err` the variables have their kinds, and nothing
/// is said of their values.
pub fn assign(
    alloc: Global,
    variables: &Variables,
    store: &mut Store,
    to: &Operand,
    from: &Operand,
) -> Result<(), AllocError>
    requires { store.old.kinds ≡ kinds_of variables.now }
    ensures vars { OnOk result (values_of store.new
        ≡ assigned variables.now (operand_places variables.now to.now) (value_of (values_of store.old) from.now) (values_of store.old)) }
    ensures kinds { store.new.kinds ≡ store.old.kinds }
{
    let value = value_of(store, from)?;
    match to {
        Operand::Literal { .. } => Ok(()),
        Operand::One(place) => assign_place(alloc, variables, store, *place, &value),
        Operand::Whole { var } => assign_array(alloc, variables, store, *var, &value),
    }
}
