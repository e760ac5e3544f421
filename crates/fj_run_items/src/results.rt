// What a transfer or an INQUIRE gives back to the variables.
ghost use Rattle.std.specs.Prelude.{◌≡◌, [], List, if◌then◌else◌};
ghost use Rattle.std.specs.Option.{option_map_or};
ghost use Rattle.fj_moved.specs.declared.moved.Moved.{Moved};
ghost use Rattle.fj_meaning.specs.Items.{given_back, kind_of};
ghost use Rattle.fj_meaning.specs.Telling.{count_for, with_size};
ghost use Rattle.fj_statement.specs.declared.deck.Variable.{Variable};
ghost use Rattle.fj_store.specs.Kinds.{of_kind};
ghost use Rattle.fj_store.specs.Storage.{values_of};
ghost use Rattle.fj_value.specs.declared.place.Place.{Place};
ghost use Rattle.fj_run_items.specs.Kinds.{kinds_of};

use fj_moved::{Cells, Load};
use fj_statement::Variables;
use fj_store::Store;
use fj_value::{Place, Value};

/// The places of cells get their values, each as its variable has it.
pub fn give_back(variables: &Variables, store: &mut Store, cells: Cells)
    requires { store.old.kinds ≡ kinds_of variables.now }
    ensures vars { values_of store.new ≡ given_back variables.now cells (values_of store.old) }
    ensures kinds { store.new.kinds ≡ store.old.kinds }
{
    let _ = variables;
    store.give_back(cells);
}

/// The same of what a transfer moved, where it came back.
fn give_load(variables: &Variables, store: &mut Store, moved: Option<Load>)
    requires { store.old.kinds ≡ kinds_of variables.now }
    ensures vars { values_of store.new ≡ given_back variables.now (option_map_or (λ (moved : Moved). moved.cells) moved []) (values_of store.old) }
    ensures kinds { store.new.kinds ≡ store.old.kinds }
{
    let _ = variables;
    if let Some(moved) = moved {
        store.give_load(moved);
    }
}

/// A count of characters as a value; one that no kind has is undefined.
fn count_value(count: Option<u64>) -> Value
    ensures { (variables : List Variable) (place : Place) → of_kind (kind_of variables place.var) result ≡ count_for variables place count }
{
    match count {
        Some(count) if count < 9223372036854775808 => Value::Int(count as i64),
        Some(_) | None => Value::Undefined,
    }
}

/// SIZE= gets its count, or is undefined.
fn set_size(variables: &Variables, store: &mut Store, size: Option<Place>, count: Option<u64>)
    requires { store.old.kinds ≡ kinds_of variables.now }
    ensures vars { values_of store.new ≡ with_size variables.now size count (values_of store.old) }
    ensures kinds { store.new.kinds ≡ store.old.kinds }
{
    let _ = variables;
    if let Some(place) = size {
        store.set(place, count_value(count));
    }
}

/// Items come back with their values, and SIZE= gets its count, or is undefined where there is none.
pub(crate) fn give_taken(
    variables: &Variables,
    store: &mut Store,
    size: Option<Place>,
    cells: Cells,
    count: Option<u64>,
)
    requires { store.old.kinds ≡ kinds_of variables.now }
    ensures vars { values_of store.new ≡ with_size variables.now size count (given_back variables.now cells (values_of store.old)) }
    ensures kinds { store.new.kinds ≡ store.old.kinds }
{
    give_back(variables, store, cells);
    set_size(variables, store, size, count);
}

/// The items of an input come back with their values, those that came back, and SIZE= gets its count, or is undefined where there
/// is none. An output changes nothing.
#[inline(always)]
pub fn give_cells(
    variables: &Variables,
    store: &mut Store,
    input: bool,
    size: Option<Place>,
    moved: Option<Load>,
    count: Option<u64>,
)
    requires { store.old.kinds ≡ kinds_of variables.now }
    ensures vars { values_of store.new ≡ (if input
        then with_size variables.now size count (given_back variables.now (option_map_or (λ (moved : Moved). moved.cells) moved []) (values_of store.old))
        else values_of store.old) }
    ensures kinds { store.new.kinds ≡ store.old.kinds }
{
    if !input {
        return;
    }
    give_load(variables, store, moved);
    set_size(variables, store, size, count);
}
