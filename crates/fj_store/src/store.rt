// The variables of a deck: what their places hold, and taking values out and giving them back.
ghost use Rattle.std.specs.Prelude.{◌≡◌, ◌<◌, ◌≤◌, true, length, map, replicate, IfSome, IfNone, IfOk, OnOk, OnErr};
ghost use Rattle.std.specs.List.{list_any};
ghost use Rattle.std.specs.Option.{option_copied};
ghost use Rattle.fj_moved.specs.Load.{moved_row};
ghost use Rattle.fj_store.specs.Places.{places_of, places_in};
ghost use Rattle.fj_store.specs.Tables.{with_element, with_cells};
ghost use Rattle.fj_store.specs.Kinds.{kind_at, of_kind};
ghost use Rattle.fj_store.specs.Storage.{all_undefined, value_at, cell_at, with_value, without, given_back, values_of};
ghost use Rattle.fj_store.specs.Variables.{moved_of, is_undefined, value_at as plain_value};
ghost use Rattle.fj_store.specs.Pieces.{cells_in, sizes};
ghost use Rattle.fj_store.specs.Taking.{home};
ghost use Rattle.fj_store.specs.declared.slot.Slot.TheVariants.{Home};
ghost use Rattle.fj_value.specs.declared.value.Value.TheVariants.{Undefined};

use crate::copied::copy_pieces;
use crate::kinds::{kind_in, of_kind};
use crate::lent::Lent;
use crate::piece::Piece;
use crate::run::Run;
use crate::slot::Slot;
use crate::slots::Slots;
use crate::taken::{count_of, room_for, take_places};
use fj_moved::{Cells, Load, Moved, Row, Shape, any_undefined};
use fj_value::{Cell, Items, Kind, Place, Value};
use std::alloc::{AllocError, Global};
use std::collections::VecDeque;
use std::marker::Model;

/// The fewest elements of a variable that are shared: fewer are copied as fast.
const FEWEST_SHARED: u32 = 64;

/// By variable its kind, and at each of its places a value, or none where it is moved out.
#[derive(Drop)]
pub struct Store {
    kinds: Vec<Kind>,
    slots: Slots,
}

impl Model for Store {
    ghost use Rattle.fj_store.specs.Storage.{Storage, storage};

    ghost Value = { Storage };

    ghost view = { λ store. storage store.kinds.items store.slots };
}

/// Puts the values of cells back, each at its place.
fn put_back(slots: &mut Slots, kinds: &[Kind], cells: Vec<Cell>)
    ensures { slots.new ≡ with_cells (home kinds.now) cells.items slots.old }
{
    let mut rest = VecDeque::from_vec(cells);
    let mut next = rest.pop_front();
    'putting: while let Some(cell) = next {
        next = slots.put_cells(kind_in(kinds, cell.place.var), cell, &mut rest);
    }
}

/// Puts the values of a row back.
fn put_row(slots: &mut Slots, kinds: &[Kind], row: Row)
    ensures { slots.new ≡ with_cells (home kinds.now) (moved_row row).cells slots.old }
{
    let Row {
        first,
        kind: _,
        values,
    } = row;
    slots.put_values(kind_in(kinds, first.var), first, values.into_items());
}

impl Store {
    /// Variables of these kinds, each with so many elements (a scalar has one), all undefined.
    pub fn new(alloc: Global, variables: &[(Kind, u32)]) -> Result<Store, AllocError>
        ensures { IfOk result (λ store. store ≡ all_undefined variables.now) }
    {
        let mut kinds = Vec::new(alloc);
        for (kind, _) in variables {
            kinds.push(*kind)?;
        }
        let slots = Slots::undefined(alloc, variables)?;
        Ok(Store { kinds, slots })
    }

    /// The value at a place; none where it is moved out.
    pub fn read(&self, place: Place) -> Option<&Value>
        ensures { option_copied result ≡ value_at self.now place }
    {
        self.slots.value(place)
    }

    /// Whether a place of a run is undefined. One that is moved out is, and one that is not there.
    pub fn has_undefined(&self, run: Run) -> bool
        ensures { result ≡ list_any (λ place. is_undefined (plain_value (values_of self.now) place)) (places_of run) }
    {
        if run.count == 0 {
            return false;
        }
        match self.slots.at_run(run) {
            Some(values) => !self.slots.is_filled(run.var) && any_undefined(values),
            None => true,
        }
    }

    /// Gives a place a value. One of another kind leaves it undefined.
    pub fn set(&mut self, place: Place, value: Value)
        ensures { self.new ≡ with_value self.old place value }
    {
        let value = of_kind(kind_in(&self.kinds, place.var), value);
        self.slots.put(place, Slot::Home(0, value));
    }

    /// Moves the values of these places out, each place once, in the order of the items. One that is moved out already has an
    /// undefined value. Want of memory changes nothing.
    pub fn take_out(&mut self, alloc: Global, runs: &[Run]) -> Result<Moved, AllocError>
        requires { length (places_in runs.now) < 4294967296 }
        ensures moved { IfOk result (λ moved. moved ≡ moved_of (map (cell_at self.old) (places_in runs.now))) }
        ensures ok { OnOk result (self.new ≡ without (places_in runs.now) self.old) }
        ensures err { OnErr result (self.new ≡ self.old) }
    {
        let mut taken = room_for(alloc, count_of(runs))?;
        take_places(&mut self.slots, &self.kinds, runs, &mut taken);
        Ok(taken.into_moved())
    }

    /// The values of a run, whose places are distinct, where they stand; none where the variable has not all of them. One that is
    /// moved out is undefined.
    pub fn row(&self, run: Run) -> Option<Lent>
        ensures some { IfSome result (λ row. row ≡ moved_of (map (cell_at self.now) (places_of run))) }
        ensures none { IfNone result (0 < run.count → list_any (λ place. is_undefined (plain_value (values_of self.now) place)) (places_of run) ≡ true) }
    {
        match self.slots.at_run(run) {
            Some(values) => Some(Lent {
                first: Place {
                    var: run.var,
                    index: run.first,
                },
                kind: kind_in(&self.kinds, run.var),
                values,
            }),
            None => None,
        }
    }

    /// The values of a run, whose places are distinct, shared with the variable, where it is all of a long one; none where they are not
    /// shared. It changes nothing.
    fn shared_run(&mut self, alloc: Global, run: Run) -> Result<Option<Load>, AllocError>
        ensures same { self.new ≡ self.old }
        ensures moved { IfOk result (λ o. IfSome o (λ load. load ≡ moved_of (map (cell_at self.old) (places_of run)))) }
    {
        if run.count < FEWEST_SHARED {
            return Ok(None);
        }
        match self.slots.share(alloc, run)? {
            Some(values) => Ok(Some(Load::of_row(Row {
                first: Place {
                    var: run.var,
                    index: run.first,
                },
                kind: kind_in(&self.kinds, run.var),
                values,
            }))),
            None => Ok(None),
        }
    }

    /// Copies the values of a run, whose places are distinct, in their order; none where the variable has not all of them.
    fn copied_run(&self, alloc: Global, run: Run) -> Result<Option<Load>, AllocError>
        ensures { IfOk result (λ o. IfSome o (λ load. load ≡ moved_of (map (cell_at self.now) (places_of run)))) }
    {
        let Some(row) = self.row(run) else {
            return Ok(None);
        };
        Ok(Some(row.copied(alloc)?))
    }

    /// Copies the values of so many items, each place once, in the order of the items. One that is moved out has an undefined
    /// value. It changes nothing.
    pub fn copy_of(
        &mut self,
        alloc: Global,
        pieces: VecDeque<Piece>,
        size: u32,
    ) -> Result<Load, AllocError>
        requires { sizes pieces.items ≤ size }
        ensures moved { IfOk result (λ load. load ≡ moved_of (cells_in self.old pieces.items)) }
        ensures same { self.new ≡ self.old }
    {
        let mut taken = room_for(alloc, size as usize)?;
        copy_pieces(&mut self.slots, &self.kinds, pieces, &mut taken)?;
        Ok(Load::of_cells(taken.into_moved()))
    }

    /// The same of one run. Where that is all of a long variable, the variable and the copy share the values.
    pub fn copy_of_run(&mut self, alloc: Global, run: Run) -> Result<Load, AllocError>
        ensures moved { IfOk result (λ load. load ≡ moved_of (map (cell_at self.old) (places_of run))) }
        ensures same { self.new ≡ self.old }
    {
        if let Some(load) = self.shared_run(alloc, run)? {
            return Ok(load);
        }
        if let Some(load) = self.copied_run(alloc, run)? {
            return Ok(load);
        }
        let mut pieces = VecDeque::new(alloc);
        pieces.push_back(Piece::Places(run))?;
        self.copy_of(alloc, pieces, run.count)
    }

    /// Puts the values of cells back to their places. One of another kind than its place leaves that undefined.
    pub fn give_back(&mut self, cells: Cells)
        ensures { self.new ≡ given_back cells self.old }
    {
        put_back(&mut self.slots, &self.kinds, cells.into_vec());
    }

    /// The same of what a statement transfers.
    pub fn give_load(&mut self, load: Load)
        ensures { self.new ≡ given_back load.cells self.old }
    {
        match load.into_shape() {
            Shape::Cells(moved) => self.give_back(moved.cells),
            Shape::Row(row) => put_row(&mut self.slots, &self.kinds, row),
        }
    }
}
