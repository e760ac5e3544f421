// The cells of a statement's items.
ghost use Rattle.std.specs.Prelude.{◌+◌, ◌<◌, length};

use crate::cells::Cells;
use crate::elements::Elements;
use fj_value::{Items, Kind, Place, Text, Value};

/// The cell of each item of a statement, in the order of the items.
pub type Order = Items<u32>;

/// The cells that a statement transfers, and which of them each item has. That their places are distinct is a fact of the transfer that has
/// them.
#[derive(Debug, Drop)]
pub struct Moved {
    pub cells: Cells,
    /// Each number is below the number of cells.
    pub order: Order,
}

/// Elements of a variable, one behind the other, each one item.
#[derive(Debug, Drop)]
pub struct Row {
    /// The place of the first one.
    pub first: Place,
    pub kind: Kind,
    pub values: Elements<Value>,
    ghost fits: { first.index + length values < 4294967297 },
}

/// A variable of a namelist group. Where it is a scalar its count is 1; an array may have the count 1 too.
#[derive(Debug, Drop)]
pub struct GroupMember {
    pub name: Text,
    pub kind: Kind,
    /// Its first cell.
    pub first: u32,
    /// Its number of cells.
    pub count: u32,
    pub scalar: bool,
}
