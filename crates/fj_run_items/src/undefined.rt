// What a READ that is not carried out leaves.
ghost use Rattle.std.specs.Prelude.{◌≡◌, ◌∷◌, ◌++◌, ℕ, map, None, List, All, IsOk, OnOk};
ghost use Rattle.std.specs.List.{flat_map};
ghost use Rattle.fj_meaning.specs.Items.{cell_at, cells_from, cells_of, places_of};
ghost use Rattle.fj_meaning.specs.Needs.{group_places};
ghost use Rattle.fj_meaning.specs.Telling.{with_size};
ghost use Rattle.fj_meaning.specs.Transfers.{moved_in, without_values};
ghost use Rattle.fj_statement.specs.Sound.{IsAllowed, IsVariable};
ghost use Rattle.fj_statement.specs.declared.statement.Operand.{Operand};
ghost use Rattle.fj_store.specs.Storage.{values_of};
ghost use Rattle.fj_store.specs.Variables.{Variables as Values, with_value, undefined_at};
ghost use Rattle.fj_value.specs.declared.value.Cell.{Cell};
ghost use Rattle.fj_value.specs.declared.value.Value.TheVariants.{Undefined};
ghost use Rattle.fj_run_items.specs.Kinds.{kinds_of};

use crate::assignment::elements_of;
use crate::lost::Lost;
use fj_statement::{Control, Operand, Transfer, Variables};
use fj_store::Store;
use fj_value::{Place, Value};

/// A place is undefined.
fn undefine_place(store: &mut Store, place: Place)
    ensures vars { values_of store.new ≡ with_value (values_of store.old) place Undefined }
    ensures kinds { store.new.kinds ≡ store.old.kinds }
{
    store.set(place, Value::Undefined);
}

/// Each place of a variable is undefined.
fn undefine_variable(variables: &Variables, store: &mut Store, var: u32)
    ensures vars { (values : Values) (more : List Cell) → undefined_at more (values_of store.new)
        ≡ undefined_at (map (cell_at variables.now values) (places_of variables.now var) ++ more) (values_of store.old) }
    ensures kinds { store.new.kinds ≡ store.old.kinds }
{
    for at in 0..elements_of(variables, var) {
        let place = Place { var, index: at + 1 };
        undefine_place(store, place);
    }
}

/// An item is undefined. `Unfit`: it is a literal.
fn undefine_item(variables: &Variables, store: &mut Store, item: &Operand) -> Result<(), Lost>
    ensures vars { (values : Values) (n : ℕ) (rest : List Operand) (more : List Cell) → OnOk result (undefined_at (cells_from variables.now values n rest ++ more) (values_of store.new)
        ≡ undefined_at (cells_from variables.now values n (item.now ∷ rest) ++ more) (values_of store.old)) }
    ensures kinds { store.new.kinds ≡ store.old.kinds }
    ensures fits { IsVariable item.now → IsOk result }
{
    match item {
        Operand::Literal { .. } => Err(Lost::Unfit),
        Operand::One(place) => {
            undefine_place(store, *place);
            Ok(())
        }
        Operand::Whole { var } => {
            undefine_variable(variables, store, *var);
            Ok(())
        }
    }
}

/// Items are undefined. `Unfit`: one is a literal.
fn undefine_items(variables: &Variables, store: &mut Store, items: &[Operand]) -> Result<(), Lost>
    ensures vars { (values : Values) (more : List Cell) → OnOk result (undefined_at more (values_of store.new)
        ≡ undefined_at (cells_of variables.now values items.now ++ more) (values_of store.old)) }
    ensures kinds { store.new.kinds ≡ store.old.kinds }
    ensures fits { All IsVariable items.now → IsOk result }
{
    for item in items {
        undefine_item(variables, store, item)?;
    }
    Ok(())
}

/// The variables of a group are undefined.
fn undefine_members(variables: &Variables, store: &mut Store, vars: &[u32])
    ensures vars { (values : Values) (more : List Cell) → undefined_at more (values_of store.new)
        ≡ undefined_at (map (cell_at variables.now values) (flat_map (places_of variables.now) vars.now) ++ more) (values_of store.old) }
    ensures kinds { store.new.kinds ≡ store.old.kinds }
{
    for var in vars {
        undefine_variable(variables, store, *var);
    }
}

fn undefine_group(variables: &Variables, store: &mut Store, control: &Control)
    ensures vars { (values : Values) (more : List Cell) → undefined_at more (values_of store.new)
        ≡ undefined_at (map (cell_at variables.now values) (group_places variables.now control.now) ++ more) (values_of store.old) }
    ensures kinds { store.new.kinds ≡ store.old.kinds }
{
    match control {
        Control::Unformatted => {}
        Control::Explicit(_) => {}
        Control::Listed => {}
        Control::Group { name: _, vars } => undefine_members(variables, store, vars.as_slice()),
    }
}

/// SIZE= is undefined.
pub(crate) fn undefine_size(variables: &Variables, store: &mut Store, size: Option<Place>)
    ensures vars { values_of store.new ≡ with_size variables.now size None (values_of store.old) }
    ensures kinds { store.new.kinds ≡ store.old.kinds }
{
    let _ = variables;
    if let Some(place) = size {
        undefine_place(store, place);
    }
}

/// What a READ that is not carried out leaves: its items and SIZE= are undefined. It takes no memory. `Unfit`: an item is a
/// literal.
pub fn undefine(variables: &Variables, store: &mut Store, t: &Transfer) -> Result<(), Lost>
    requires { store.old.kinds ≡ kinds_of variables.now }
    ensures vars { OnOk result (values_of store.new
        ≡ without_values variables.now t.now (moved_in variables.now (values_of store.old) t.now) (values_of store.old)) }
    ensures kinds { store.new.kinds ≡ store.old.kinds }
    ensures fits { IsAllowed t.now → IsOk result }
{
    if !t.input {
        return Ok(());
    }
    undefine_items(variables, store, t.items.as_slice())?;
    undefine_group(variables, store, &t.control);
    undefine_size(variables, store, t.size);
    Ok(())
}
