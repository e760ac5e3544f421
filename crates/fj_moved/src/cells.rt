// The cells of a statement, by their number.
ghost use Rattle.std.specs.Prelude.{◌≡◌, ◌<◌, length};
ghost use Rattle.fj_moved.specs.Cells.{with_value, places_of};

use fj_value::{Cell, Items, Value};

/// Cells, by their number from 0 on.
pub type Cells = Items<Cell>;

/// Gives a value to a cell.
pub fn define(cells: &mut Cells, at: usize, value: Value)
    requires { at < length cells.old }
    ensures value { cells.new ≡ with_value cells.old at value }
    ensures places { places_of cells.new ≡ places_of cells.old }
    ensures count { length cells.new ≡ length cells.old }
{
    let cell = &cells.as_slice()[at];
    let place = cell.place;
    let kind = cell.kind;
    cells.replace(at, Cell { place, kind, value });
}
