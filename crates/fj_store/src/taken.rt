// The items that are taken out of a table: each place has one cell, and each item the number of its cell.
ghost use Rattle.std.specs.Prelude.{◌≡◌, ◌+◌, ◌<◌, ◌≤◌, ℕ, List, [], length, None, slice_get, IfOk, vec_capacity};
ghost use Rattle.std.specs.List.{position_or_len};
ghost use Rattle.fj_store.specs.Places.{same_place, places_of, places_in};
ghost use Rattle.fj_store.specs.Taking.{taking, items_in, HasRoom, IsMarked, MarkTells, take_all, take_runs};
ghost use Rattle.fj_store.specs.Variables.{is_at, with_item};
ghost use Rattle.fj_store.specs.declared.slot.Slot.{Slot as AnySlot};

use crate::kinds::kind_in;
use crate::run::Run;
use crate::slots::Slots;
use fj_value::{Cell, Kind, Place, Value};
use std::alloc::{AllocError, Global};

/// The variable of values that have no place.
pub(crate) const NO_VARIABLE: u32 = 4294967295;

/// Cells, and the number of the cell of each item.
#[derive(Drop)]
pub(crate) struct Taken {
    pub cells: Vec<Cell>,
    pub order: Vec<u32>,
}

/// Nothing, with room for so many items.
pub(crate) fn room_for(alloc: Global, count: usize) -> Result<Taken, AllocError>
    requires { count < 4294967296 }
    ensures room { IfOk result (λ taken. HasRoom taken count) }
    ensures none { IfOk result (λ taken. (taken.cells.items ≡ []) × (taken.order.items ≡ [])) }
{
    let mut cells = Vec::new(alloc);
    cells.reserve(count)?;
    let mut order = Vec::new(alloc);
    order.reserve(count)?;
    Ok(Taken { cells, order })
}

fn same_place(a: Place, b: Place) -> bool
    ensures { result ≡ same_place a b }
{
    a.var == b.var && a.index == b.index
}

/// The number of the cell of a place; where there is none, the number of cells.
pub fn position(cells: &[Cell], place: Place) -> usize
    ensures at { result ≡ position_or_len (is_at place) cells.now }
    ensures low { result ≤ length cells.now }
{
    for at in 0..cells.len() {
        if same_place(place, cells[at].place) {
            return at;
        }
    }
    cells.len()
}

/// The same by the mark of the place, if it has one. One that cannot be marked is looked for.
#[inline(always)]
pub(crate) fn cell_marked(mark: Option<u32>, cells: &[Cell], place: Place) -> usize
    ensures at { MarkTells mark cells.now place → result ≡ position_or_len (is_at place) cells.now }
    ensures low { result ≤ length cells.now }
{
    if place.var == NO_VARIABLE {
        return position(cells, place);
    }
    let Some(mark) = mark else {
        return position(cells, place);
    };
    let at = mark as usize;
    if at >= cells.len() {
        return cells.len();
    }
    if same_place(place, cells[at].place) {
        at
    } else {
        cells.len()
    }
}

/// The same by the mark that the place has among others.
pub(crate) fn cell_of(slots: &Slots, cells: &[Cell], place: Place) -> usize
    requires { IsMarked slots.now cells.now }
    ensures at { result ≡ position_or_len (is_at place) cells.now }
    ensures low { result ≤ length cells.now }
{
    cell_marked(slots.mark(place), cells, place)
}

/// Adds an item whose place has the cell of a number, or, where that is the number of cells, gets one.
#[inline(always)]
pub(crate) fn add_item(at: usize, cell: Cell, taken: &mut Taken)
    requires room { HasRoom taken.old 1 }
    requires low { at ≤ length taken.old.cells.items }
    ensures item { at ≡ position_or_len (is_at cell.place) taken.old.cells.items → items_in taken.new ≡ with_item (items_in taken.old) cell }
    ensures room { (n : ℕ) → HasRoom taken.old (n + 1) → HasRoom taken.new n }
{
    taken.order.push_reserved(at as u32);
    if at == taken.cells.len() {
        taken.cells.push_reserved(cell);
    }
}

/// Takes the places of a run out whose variable there is not: each is undefined.
pub(crate) fn take_missing(kind: Kind, run: Run, taken: &mut Taken)
    requires { HasRoom taken.old run.count }
    ensures taken { (slots : List (List AnySlot)) → slice_get slots run.var ≡ None → IsMarked slots taken.old.cells.items → taking slots taken.new ≡ take_all kind (taking slots taken.old) (places_of run) }
    ensures marked { (slots : List (List AnySlot)) → slice_get slots run.var ≡ None → IsMarked slots taken.old.cells.items → IsMarked slots taken.new.cells.items }
    ensures room { (n : ℕ) → HasRoom taken.old (run.count + n) → HasRoom taken.new n }
{
    for at in 0..run.count {
        let place = run.place_at(at);
        let number = position(&taken.cells, place);
        add_item(
            number,
            Cell {
                place,
                kind,
                value: Value::Undefined,
            },
            taken,
        );
    }
}

/// Takes the places of runs out, in the order of the runs.
pub(crate) fn take_places(slots: &mut Slots, kinds: &[Kind], runs: &[Run], taken: &mut Taken)
    requires room { HasRoom taken.old (length (places_in runs.now)) }
    requires marked { IsMarked slots.old taken.old.cells.items }
    ensures { taking slots.new taken.new ≡ take_runs kinds.now (taking slots.old taken.old) runs.now }
{
    for run in runs {
        slots.take_run(kind_in(kinds, run.var), *run, taken);
    }
}

/// The number of places of runs.
pub(crate) fn count_of(runs: &[Run]) -> usize
    requires { length (places_in runs.now) < 4294967296 }
    ensures { result ≡ length (places_in runs.now) }
{
    let mut count = 0;
    for run in runs {
        count += run.count as usize;
    }
    count
}
