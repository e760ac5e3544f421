// What a statement transfers: cells with an order, or the values of a row.
ghost use Rattle.std.specs.Prelude.{◌≡◌, [], length, replicate, IfOk, OnOk, OnErr};
ghost use Rattle.fj_value.specs.declared.value.Value.TheVariants.{Undefined};
ghost use Rattle.fj_moved.specs.Items.{items_left, items_of};
ghost use Rattle.fj_moved.specs.Cells.{places_of};
ghost use Rattle.fj_moved.specs.Load.{moved_row, moved_by, with_undefined};

use crate::cells::{Cells, define};
use crate::elements::Elements;
use crate::items::OutputItems;
use crate::moved::{Moved, Row};
use fj_value::{Cell, Items, Place, Value};
use std::alloc::{AllocError, Global};
use std::marker::Model;

/// Cells with an order, or a row, which takes half the memory.
#[derive(Debug, Drop)]
pub enum Shape {
    Cells(Moved),
    Row(Row),
}

/// What a statement transfers. Contracts see it as cells with an order.
#[derive(Debug, Drop)]
pub struct Load {
    shape: Shape,
}

impl Model for Load {
    ghost use Rattle.fj_moved.specs.declared.moved.Moved.{Moved as MovedCells};
    ghost use Rattle.fj_moved.specs.Load.{moved_by};

    ghost Value = { MovedCells };

    ghost view = { λ load. moved_by load.shape };
}

/// Makes all values undefined.
pub fn undefine(cells: &mut Cells)
    ensures values { cells.new ≡ with_undefined cells.old }
    ensures places { places_of cells.new ≡ places_of cells.old }
{
    for at in 0..cells.len() {
        define(cells, at, Value::Undefined);
    }
}

/// Makes the values of a row undefined.
fn undefine_row(values: &mut Elements<Value>)
    ensures { values.new ≡ replicate (length values.old) Undefined }
{
    for at in 0..values.len() {
        values.replace(at, Value::Undefined);
    }
}

impl Row {
    /// The same as cells with an order.
    pub fn to_moved(&self, alloc: Global) -> Result<Moved, AllocError>
        ensures { IfOk result (λ moved. moved ≡ moved_row self.now) }
    {
        let mut cells = Items::new(alloc);
        cells.reserve(self.values.len())?;
        let mut order = Items::new(alloc);
        order.reserve(self.values.len())?;
        for (at, value) in self.values.as_slice().iter().enumerate() {
            let place = Place {
                var: self.first.var,
                index: self.first.index + at as u32,
            };
            let value = value.try_clone()?;
            cells.push(Cell {
                place,
                kind: self.kind,
                value,
            })?;
            order.push(at as u32)?;
        }
        Ok(Moved { cells, order })
    }
}

impl Load {
    pub fn of_cells(moved: Moved) -> Load
        ensures { result ≡ moved }
    {
        Load {
            shape: Shape::Cells(moved),
        }
    }

    pub fn of_row(row: Row) -> Load
        ensures { result ≡ moved_row row }
    {
        Load {
            shape: Shape::Row(row),
        }
    }

    pub fn shape(&self) -> &Shape
        ensures { moved_by result.now ≡ self.now }
    {
        &self.shape
    }

    pub fn into_shape(self) -> Shape
        ensures { moved_by result ≡ self }
    {
        self.shape
    }

    /// The number of cells.
    pub fn len(&self) -> usize
        ensures { result ≡ length self.now.cells }
    {
        match &self.shape {
            Shape::Cells(moved) => moved.cells.len(),
            Shape::Row(row) => row.values.len(),
        }
    }

    /// The items of an output.
    pub fn items(&self) -> OutputItems
        ensures { items_left result ≡ items_of self.now }
    {
        match &self.shape {
            Shape::Cells(moved) => {
                OutputItems::of_cells(moved.cells.as_slice(), moved.order.as_slice())
            }
            Shape::Row(row) => OutputItems::of_row(row.kind, row.values.as_slice()),
        }
    }

    /// Takes the values out of all cells. It takes no memory.
    pub fn undefine(&mut self)
        ensures values { self.new ≡ record self.old { cells = with_undefined self.old.cells } }
        ensures places { places_of self.new.cells ≡ places_of self.old.cells }
    {
        match &mut self.shape {
            Shape::Cells(moved) => undefine(&mut moved.cells),
            Shape::Row(row) => undefine_row(&mut row.values),
        }
    }

    /// Moves the cells and their order out, which leaves none. Want of memory changes nothing.
    pub fn take(&mut self, alloc: Global) -> Result<Moved, AllocError>
        ensures ok { OnOk result (self.new ≡ record { cells = []; order = [] }) }
        ensures moved { IfOk result (λ moved. moved ≡ self.old) }
        ensures err { OnErr result (self.new ≡ self.old) }
    {
        let nothing = Load::of_cells(Moved {
            cells: Items::new(alloc),
            order: Items::new(alloc),
        });
        match std::mem::replace(self, nothing).shape {
            Shape::Cells(moved) => Ok(moved),
            Shape::Row(row) => match row.to_moved(alloc) {
                Ok(moved) => Ok(moved),
                Err(error) => {
                    *self = Load::of_row(row);
                    Err(error)
                }
            },
        }
    }
}
