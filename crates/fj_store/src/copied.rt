// Values that are copied out of the variables.
ghost use Rattle.std.specs.Prelude.{◌≡◌, ◌+◌, ◌<◌, ◌||◌, ◌==◌, ℕ, false, length, map, unwrap_or, IfOk, OnOk};
ghost use Rattle.std.specs.Option.{option_flatten};
ghost use Rattle.fj_value.specs.declared.value.Value.TheVariants.{Undefined};
ghost use Rattle.fj_store.specs.Pieces.{cells_from, no_variable, own_cell, sizes};
ghost use Rattle.fj_store.specs.Places.{places_of};
ghost use Rattle.fj_store.specs.Storage.{storage};
ghost use Rattle.fj_store.specs.Tables.{element_at};
ghost use Rattle.fj_store.specs.Taking.{AreUnused, HasRoom, IsMarked, IsMarkedAt, cell_read, items_in, value_read, values_in};
ghost use Rattle.fj_store.specs.Variables.{moved_from, with_item};

use crate::kinds::kind_in;
use crate::piece::Piece;
use crate::run::Run;
use crate::slot::Slot;
use crate::slots::Slots;
use crate::taken::{NO_VARIABLE, Taken, add_item, cell_of, position};
use fj_moved::Moved;
use fj_value::{Cell, Items, Kind, Place, Value};
use std::alloc::{AllocError, Global};
use std::collections::VecDeque;

/// The same value once more, where it may be no integer.
#[inline(never)]
fn cloned(value: &Value) -> Result<Value, AllocError>
    ensures { IfOk result (λ copy. copy ≡ value.now) }
{
    value.try_clone()
}

/// The same value once more. Most are integers.
#[inline(always)]
fn copied_value(value: &Value) -> Result<Value, AllocError>
    ensures { IfOk result (λ copy. copy ≡ value.now) }
{
    if let Value::Int(number) = value {
        return Ok(Value::Int(*number));
    }
    cloned(value)
}

/// The same values once more.
pub(crate) fn copy_row(alloc: Global, values: &[Value]) -> Result<Items<Value>, AllocError>
    ensures { IfOk result (λ copies. copies ≡ values.now) }
{
    let mut copies = Vec::new(alloc);
    copies.reserve(values.len())?;
    for value in values {
        let copy = copied_value(value)?;
        copies.push_reserved(copy);
    }
    Ok(Items::from_vec(copies))
}

/// The value of a place once more. The place is marked with the number of its cell, and keeps its value.
fn copied_at(slots: &mut Slots, place: Place, at: u32) -> Result<Value, AllocError>
    ensures value { IfOk result (λ copy. copy ≡ unwrap_or (option_flatten (element_at (values_in slots.old) place)) Undefined) }
    ensures same { values_in slots.new ≡ values_in slots.old }
    ensures marked { IsMarkedAt slots.old slots.new place at }
{
    match slots.replace(place, Slot::Out(at)) {
        Some(Slot::Home(_, value)) => {
            let copy = copied_value(&value);
            slots.put(place, Slot::Home(at, value));
            copy
        }
        Some(Slot::Out(_)) => Ok(Value::Undefined),
        None => Ok(Value::Undefined),
    }
}

/// Copies one place, where it was not copied before.
fn copy_place(
    slots: &mut Slots,
    kind: Kind,
    place: Place,
    taken: &mut Taken,
) -> Result<(), AllocError>
    requires room { HasRoom taken.old 1 }
    requires marked { IsMarked slots.old taken.old.cells.items }
    ensures item { OnOk result (items_in taken.new ≡ with_item (items_in taken.old) (cell_read kind (values_in slots.old) place)) }
    ensures same { values_in slots.new ≡ values_in slots.old }
    ensures marked { OnOk result (IsMarked slots.new taken.new.cells.items) }
    ensures room { (n : ℕ) → HasRoom taken.old (n + 1) → OnOk result (HasRoom taken.new n) }
{
    let at = cell_of(slots, &taken.cells, place);
    let value = copied_at(slots, place, at as u32)?;
    add_item(at, Cell { place, kind, value }, taken);
    Ok(())
}

/// Copies the places of a run, one behind the other.
fn copy_run(slots: &mut Slots, kind: Kind, run: Run, taken: &mut Taken) -> Result<(), AllocError>
    requires room { HasRoom taken.old run.count }
    requires marked { IsMarked slots.old taken.old.cells.items }
    ensures items { OnOk result (items_in taken.new ≡ moved_from (items_in taken.old) (map (cell_read kind (values_in slots.old)) (places_of run))) }
    ensures same { values_in slots.new ≡ values_in slots.old }
    ensures marked { OnOk result (IsMarked slots.new taken.new.cells.items) }
    ensures room { (n : ℕ) → HasRoom taken.old (run.count + n) → OnOk result (HasRoom taken.new n) }
{
    for at in 0..run.count {
        copy_place(slots, kind, run.place_at(at), taken)?;
    }
    Ok(())
}

/// Adds a value of its own, by its number among these. Where items have places of no variable, one of them may be its place.
fn add_own(number: u32, kind: Kind, value: Value, mixed: bool, taken: &mut Taken)
    requires room { HasRoom taken.old 1 }
    requires free { mixed ≡ false → AreUnused number taken.old.cells.items }
    ensures item { items_in taken.new ≡ with_item (items_in taken.old) (own_cell number kind value) }
    ensures room { (n : ℕ) → HasRoom taken.old (n + 1) → HasRoom taken.new n }
{
    let place = Place {
        var: NO_VARIABLE,
        index: number,
    };
    if mixed {
        let at = position(&taken.cells, place);
        add_item(at, Cell { place, kind, value }, taken);
    } else {
        let at = taken.cells.len();
        add_item(at, Cell { place, kind, value }, taken);
    }
}

fn is_mixed(mixed: bool, run: Run) -> bool
    ensures { result ≡ (mixed || (run.var == no_variable)) }
{
    mixed || run.var == NO_VARIABLE
}

/// Copies pieces one behind the other: the values of their places, and their own values.
pub(crate) fn copy_pieces(
    slots: &mut Slots,
    kinds: &[Kind],
    mut pieces: VecDeque<Piece>,
    taken: &mut Taken,
) -> Result<(), AllocError>
    requires room { HasRoom taken.old (sizes pieces.items) }
    requires few { sizes pieces.items < 4294967296 }
    requires marked { IsMarked slots.old taken.old.cells.items }
    requires free { AreUnused 1 taken.old.cells.items }
    ensures items { OnOk result (items_in taken.new ≡ moved_from (items_in taken.old) (cells_from (storage kinds.now slots.old) 1 pieces.items)) }
    ensures same { values_in slots.new ≡ values_in slots.old }
{
    let mut own = 0;
    let mut mixed = false;
    'copying: while let Some(piece) = pieces.pop_front() {
        match piece {
            Piece::Places(run) => {
                mixed = is_mixed(mixed, run);
                copy_run(slots, kind_in(kinds, run.var), run, taken)?;
            }
            Piece::Own(kind, value) => {
                own += 1;
                add_own(own, kind, value, mixed, taken);
            }
        }
    }
    Ok(())
}

impl Taken {
    /// What was taken, as a statement has it.
    pub(crate) fn into_moved(self) -> Moved
        ensures { result ≡ record { cells = self.cells.items; order = self.order.items } }
    {
        Moved {
            cells: Items::from_vec(self.cells),
            order: Items::from_vec(self.order),
        }
    }
}
