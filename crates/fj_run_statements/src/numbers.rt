// The numbers of units that places give, and those that NEWUNIT= gives (ISO/IEC 1539-1:2010, 9.5.6.12).
ghost use Rattle.std.specs.Prelude.{◌≡◌};
ghost use Rattle.std.specs.Option.{option_map_or};
ghost use Rattle.fj_run_items.specs.Kinds.{kinds_of};
ghost use Rattle.fj_meaning.specs.Statement.{new_place, next_new, with_new_unit};
ghost use Rattle.fj_statement.specs.Units.{number_due, number_in, unit_of};
ghost use Rattle.fj_store.specs.Storage.{values_of};
ghost use Rattle.fj_store.specs.Variables.{value_at};

use crate::state::Core;
use fj_run_items::set_number;
use fj_statement::{Statement, UnitRef, Variables, next_new_unit, unit_code, unit_number};
use fj_store::Store;
use fj_value::{Condition, Place, Value};

/// The code of the number at a place.
fn number_at(store: &Store, place: Place) -> u32
    ensures { result ≡ number_in (value_at (values_of store.now) place) }
{
    match store.read(place) {
        Some(value) => match value {
            Value::Int(number) => unit_code(*number),
            _ => u32::MAX,
        },
        None => u32::MAX,
    }
}

fn number_of_unit(store: &Store, new_unit: u32, unit: UnitRef) -> u32
    ensures { result ≡ number_due (value_at (values_of store.now)) new_unit unit }
{
    match unit {
        UnitRef::Held { place, number: _ } => number_at(store, place),
        UnitRef::New {
            place: _,
            number: _,
        } => new_unit,
        _ => 0,
    }
}

/// The code of the number that a statement's unit has when it begins; 0 where it is not of a place.
pub fn number_due(core: &Core, statement: &Statement) -> u32
    ensures { result ≡ option_map_or (number_due (value_at (values_of core.now.store)) core.now.new_unit) (unit_of statement.now) 0 }
{
    match statement.unit() {
        Some(unit) => number_of_unit(&core.store, core.new_unit, unit),
        None => 0,
    }
}

/// The place of NEWUNIT=, where the unit is connected.
fn new_place(statement: &Statement, condition: Condition) -> Option<Place>
    ensures { result ≡ new_place statement.now condition }
{
    match statement {
        Statement::OpenUnit {
            unit,
            spec: _,
            iostat: _,
        } => match condition {
            Condition::Fine => unit.place_new(),
            _ => None,
        },
        _ => None,
    }
}

/// NEWUNIT= gets the number of a unit that it connected, which is not given again.
pub fn define_unit(
    variables: &Variables,
    statement: &Statement,
    condition: Condition,
    core: &mut Core,
)
    requires { core.old.store.kinds ≡ kinds_of variables.now }
    ensures vars { values_of core.new.store ≡ with_new_unit variables.now statement.now condition core.old.new_unit (values_of core.old.store) }
    ensures new_unit { core.new.new_unit ≡ next_new (new_place statement.now condition) core.old.new_unit }
    ensures keeps { core.new ≡ record core.old { store = core.new.store; new_unit = core.new.new_unit } }
    ensures kinds { core.new.store.kinds ≡ core.old.store.kinds }
{
    let place = new_place(statement, condition);
    if place.is_some() {
        let number = unit_number(core.new_unit);
        set_number(variables, &mut core.store, place, number);
        core.new_unit = next_new_unit(core.new_unit);
    }
}
