// The marks and the values of one variable, apart from those of the others.
ghost use Rattle.std.specs.Prelude.{◌≡◌, ◌+◌, ◌<◌, ◌≤◌, ◌∷◌, ◌++◌, [], ℕ, length, unwrap_or, IfNone};
ghost use Rattle.std.specs.Option.{option_map, option_to_list};
ghost use Rattle.fj_value.specs.declared.kind.Kind.{Kind as AnyKind};
ghost use Rattle.fj_value.specs.declared.value.Value.TheVariants.{Undefined};
ghost use Rattle.fj_moved.specs.Load.{row_cells};
ghost use Rattle.fj_store.specs.Places.{places_of};
ghost use Rattle.fj_store.specs.Rows.{ArePut, AreTaken, number_of};
ghost use Rattle.fj_store.specs.Tables.{element_in, row_with};
ghost use Rattle.fj_store.specs.Taking.{HasRoom};
ghost use Rattle.fj_store.specs.declared.slot.Mark.TheVariants as marked;

use crate::kinds::of_kind;
use crate::run::Run;
use crate::slot::Mark;
use crate::table::{get_in, position_in, put_in};
use crate::taken::{Taken, add_item, cell_marked};
use fj_moved::Owned;
use fj_value::{Cell, Items, Kind, Place, Value};
use std::collections::VecDeque;

/// The number of the mark at an index, if there is such an index.
#[inline(always)]
fn number_in(marks: &Owned<Mark>, index: u32) -> Option<u32>
    ensures { result ≡ option_map number_of (element_in index marks.now) }
{
    match get_in(marks, index) {
        Some(mark) => Some(mark.number()),
        None => None,
    }
}

/// Moves the value at an index out. Where there is no such index it is undefined.
#[inline(always)]
fn take_in(values: &mut Owned<Value>, index: u32) -> Value
    ensures value { result ≡ unwrap_or (element_in index values.old) Undefined }
    ensures new { values.new ≡ row_with index Undefined values.old }
{
    match position_in(values, index) {
        Some(at) => values.replace(at, Value::Undefined),
        None => Value::Undefined,
    }
}

/// Takes one place of the variable out, where it was not taken before.
#[inline(always)]
fn take_place(
    marks: &mut Owned<Mark>,
    values: &mut Owned<Value>,
    kind: Kind,
    place: Place,
    taken: &mut Taken,
)
    requires { HasRoom taken.old 1 }
    ensures taken { AreTaken kind place.var (place ∷ []) marks.old values.old taken.old [] marks.new values.new taken.new }
    ensures room { (n : ℕ) → HasRoom taken.old (n + 1) → HasRoom taken.new n }
{
    let at = cell_marked(number_in(marks, place.index), &taken.cells, place);
    let value = take_in(values, place.index);
    put_in(marks, place.index, Mark::Out(at as u32));
    add_item(at, Cell { place, kind, value }, taken);
}

/// Takes the places of a run of the variable out, one behind the other.
pub(crate) fn take_run(
    marks: &mut Owned<Mark>,
    values: &mut Owned<Value>,
    kind: Kind,
    run: Run,
    taken: &mut Taken,
)
    requires { HasRoom taken.old run.count }
    ensures taken { AreTaken kind run.var (places_of run) marks.old values.old taken.old [] marks.new values.new taken.new }
    ensures room { (n : ℕ) → HasRoom taken.old (run.count + n) → HasRoom taken.new n }
{
    for at in 0..run.count {
        take_place(marks, values, kind, run.place_at(at), taken);
    }
}

/// Puts a value at an index, at home.
#[inline(always)]
fn put_home(marks: &mut Owned<Mark>, values: &mut Owned<Value>, index: u32, value: Value)
    ensures marks { marks.new ≡ row_with index (marked.Home 0) marks.old }
    ensures values { values.new ≡ row_with index value values.old }
{
    put_in(values, index, value);
    put_in(marks, index, Mark::Home(0));
}

/// Puts the value of a cell of the variable back, and then those of the cells behind it, as long as they are of the same variable.
/// Answers the first one that is not.
pub(crate) fn put_cells(
    marks: &mut Owned<Mark>,
    values: &mut Owned<Value>,
    kind: Kind,
    cell: Cell,
    rest: &mut VecDeque<Cell>,
) -> Option<Cell>
    ensures put { ArePut kind cell.place.var (cell ∷ rest.old.items) marks.old values.old (option_to_list result ++ rest.new.items) marks.new values.new }
    ensures last { IfNone result (rest.new.items ≡ []) }
    ensures fewer { length (option_to_list result) + length rest.new.items ≤ length rest.old.items }
{
    let var = cell.place.var;
    let mut cell = cell;
    'putting: loop {
        let Cell {
            place,
            kind: _,
            value,
        } = cell;
        put_home(marks, values, place.index, of_kind(kind, value));
        let Some(next) = rest.pop_front() else {
            return None;
        };
        if next.place.var != var {
            return Some(next);
        }
        cell = next;
    }
}

/// Puts values of the variable back, one behind the other from a place on.
pub(crate) fn put_values(
    marks: &mut Owned<Mark>,
    values: &mut Owned<Value>,
    kind: Kind,
    first: Place,
    row: Items<Value>,
)
    requires { first.index + length row < 4294967297 }
    ensures { (of : AnyKind) → ArePut kind first.var (row_cells first of row) marks.old values.old [] marks.new values.new }
{
    let mut at = 0;
    for value in row.into_vec() {
        put_home(marks, values, first.index + at as u32, of_kind(kind, value));
        at += 1u64;
    }
}
