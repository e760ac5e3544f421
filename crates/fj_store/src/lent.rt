// The values of a run, lent where they stand.
ghost use Rattle.std.specs.Prelude.{◌≡◌, ◌+◌, ◌<◌, length, IfOk};
ghost use Rattle.fj_moved.specs.Items.{items_left, items_of};

use crate::copied::copy_row;
use fj_moved::{Elements, Load, OutputItems, Row};
use fj_value::{Kind, Place, Value};
use std::alloc::{AllocError, Global};
use std::marker::Model;

/// The values of some elements of a variable, one behind the other. Contracts see them as cells with an order, as those of a row.
#[derive(Drop)]
pub struct Lent<'a> {
    pub(crate) first: Place,
    pub(crate) kind: Kind,
    pub(crate) values: &'a [Value],
    ghost fits: { first.index + length values.now < 4294967297 },
}

impl<'a> Model for Lent<'a> {
    ghost use Rattle.std.specs.Prelude.{length};
    ghost use Rattle.std.specs.List.{range_with_len};
    ghost use Rattle.fj_moved.specs.Load.{row_cells};
    ghost use Rattle.fj_moved.specs.declared.moved.Moved.{Moved as MovedCells};

    ghost Value = { MovedCells };

    ghost view = { λ lent. record { cells = row_cells lent.first lent.kind lent.values.now; order = range_with_len 0 (length lent.values.now) } };
}

impl<'a> Lent<'a> {
    /// The number of cells.
    pub fn len(&self) -> usize
        ensures { result ≡ length self.now.cells }
    {
        self.values.len()
    }

    /// The items of an output.
    pub fn items(&self) -> OutputItems<'a>
        ensures { items_left result ≡ items_of self.now }
    {
        OutputItems::of_row(self.kind, self.values)
    }

    /// The same, copied.
    pub(crate) fn copied(&self, alloc: Global) -> Result<Load, AllocError>
        ensures { IfOk result (λ load. load ≡ self.now) }
    {
        let values = Elements::of(copy_row(alloc, self.values)?);
        Ok(Load::of_row(Row {
            first: self.first,
            kind: self.kind,
            values,
        }))
    }
}
