// What stands at the places of the variables: the values of each one behind the other, and apart from them the marks.
ghost use Rattle.std.specs.Prelude.{◌≡◌, ◌+◌, ◌<◌, ◌≤◌, ◌∷◌, ◌++◌, [], ℕ, List, true, false, length, map, is_none, replicate, Some, IfSome, IfNone, IfOk};
ghost use Rattle.std.specs.List.{list_any};
ghost use Rattle.std.specs.Option.{option_copied, option_flatten, option_map, option_to_list};
ghost use Rattle.fj_value.specs.declared.kind.Kind.{Kind as AnyKind};
ghost use Rattle.fj_value.specs.declared.place.Place.{Place as AnyPlace};
ghost use Rattle.fj_value.specs.declared.value.Value.TheVariants.{Undefined};
ghost use Rattle.fj_store.specs.Places.{places_of};
ghost use Rattle.fj_store.specs.Slots.{all_read};
ghost use Rattle.fj_store.specs.Storage.{value_in};
ghost use Rattle.fj_moved.specs.Load.{row_cells};
ghost use Rattle.fj_store.specs.Kinds.{kind_at};
ghost use Rattle.fj_store.specs.Tables.{element_at, with_cells, with_element};
ghost use Rattle.fj_store.specs.Taking.{HasRoom, IsMarked, home, mark_of, take_all, taking};
ghost use Rattle.fj_store.specs.Variables.{is_undefined};
ghost use Rattle.fj_store.specs.declared.slot.Mark.TheVariants as marked;
ghost use Rattle.fj_store.specs.declared.slot.Slot.TheVariants.{Home};

use crate::rows::{put_cells, put_values, take_run};
use crate::run::Run;
use crate::slot::{Mark, Slot};
use crate::table::Table;
use crate::taken::{Taken, take_missing};
use fj_moved::Elements;
use fj_value::{Cell, Items, Kind, Place, Value};
use std::alloc::{AllocError, Global};
use std::collections::VecDeque;
use std::marker::Model;

/// By variable, what stands at each of its places. Contracts see it as a list of lists.
#[derive(Drop)]
pub(crate) struct Slots {
    marks: Table<Mark>,
    values: Table<Value>,
}

impl Model for Slots {
    ghost use Rattle.std.specs.Prelude.{List};
    ghost use Rattle.fj_store.specs.declared.slot.Slot.{Slot as AnySlot};
    ghost use Rattle.fj_store.specs.Slots.{AreMarked, slots_of};

    ghost Value = { List (List AnySlot) };

    ghost view = { λ slots. slots_of slots.marks slots.values };

    ghost invariant = { λ slots. AreMarked slots.marks slots.values };
}

/// So many marks of places at home.
fn home_row(alloc: Global, count: u32) -> Result<Elements<Mark>, AllocError>
    ensures { IfOk result (λ row. row ≡ replicate count (marked.Home 0)) }
{
    let mut row = Vec::new(alloc);
    row.resize(count as usize, Mark::Home(0))?;
    Ok(Elements::of(Items::from_vec(row)))
}

/// So many values that are undefined.
fn undefined_row(alloc: Global, count: u32) -> Result<Elements<Value>, AllocError>
    ensures { IfOk result (λ row. row ≡ replicate count Undefined) }
{
    let mut row = Items::new(alloc);
    row.reserve(count as usize)?;
    for at in 0..count {
        let _ = at;
        row.push(Value::Undefined)?;
    }
    Ok(Elements::to_share(row))
}

impl Slots {
    /// So many places of each variable, all undefined.
    pub(crate) fn undefined(alloc: Global, variables: &[(Kind, u32)]) -> Result<Slots, AllocError>
        ensures { IfOk result (λ slots. slots ≡ map (λ (v : AnyKind × ℕ). replicate v.1 (Home 0 Undefined)) variables.now) }
    {
        let mut marks = Table::new(alloc);
        let mut values = Table::new(alloc);
        for (_, count) in variables {
            marks.push(home_row(alloc, *count)?)?;
            values.push(undefined_row(alloc, *count)?)?;
        }
        Ok(Slots { marks, values })
    }

    /// The value at a place; none where it is moved out.
    pub(crate) fn value(&self, place: Place) -> Option<&Value>
        ensures { option_copied result ≡ option_flatten (option_map value_in (element_at self.now place)) }
    {
        match self.marks.get(place) {
            Some(Mark::Home(_)) => self.values.get(place),
            Some(Mark::Out(_)) | None => None,
        }
    }

    /// The mark of a place, if there is such a place.
    pub(crate) fn mark(&self, place: Place) -> Option<u32>
        ensures { result ≡ option_map mark_of (element_at self.now place) }
    {
        match self.marks.get(place) {
            Some(mark) => Some(mark.number()),
            None => None,
        }
    }

    /// The values of a run, one behind the other, if there are all its places. One that is moved out is undefined.
    pub(crate) fn at_run(&self, run: Run) -> Option<&[Value]>
        ensures some { IfSome result (λ row. map Some row.now ≡ map (element_at (all_read self.now)) (places_of run)) }
        ensures none { IfNone result (0 < run.count → list_any (λ place. is_none (element_at (all_read self.now) place)) (places_of run) ≡ true) }
    {
        self.values.at_run(run)
    }

    /// Whether it is known of a variable that none of its values is undefined. One that is moved out is.
    pub(crate) fn is_filled(&self, var: u32) -> bool
        ensures { result ≡ true → ((place : AnyPlace) → place.var ≡ var → IfSome (element_at (all_read self.now) place) (λ value. is_undefined value ≡ false)) }
    {
        self.values.is_filled(var)
    }

    /// The values of a run, shared with the variable, where these are all of it; none where they are not shared. It changes nothing.
    pub(crate) fn share(
        &mut self,
        alloc: Global,
        run: Run,
    ) -> Result<Option<Elements<Value>>, AllocError>
        ensures same { self.new ≡ self.old }
        ensures shared { IfOk result (λ o. IfSome o (λ row. map Some row ≡ map (element_at (all_read self.old)) (places_of run))) }
    {
        self.values.share(alloc, run)
    }

    /// Puts what stands at a place, and answers what stood there. Where there is no such place nothing changes.
    pub(crate) fn replace(&mut self, place: Place, slot: Slot) -> Option<Slot>
        ensures old { result ≡ element_at self.old place }
        ensures new { self.new ≡ with_element self.old place slot }
    {
        let (mark, value) = slot.apart();
        let value = self.values.replace(place, value)?;
        let mark = self.marks.replace(place, mark)?;
        Some(mark.with(value))
    }

    /// Puts what stands at a place, and drops what stood there. Where there is no such place nothing changes.
    #[inline(always)]
    pub(crate) fn put(&mut self, place: Place, slot: Slot)
        ensures { self.new ≡ with_element self.old place slot }
    {
        let (mark, value) = slot.apart();
        self.values.put(place, value);
        self.marks.put(place, mark);
    }

    /// Takes the places of a run out, one behind the other.
    pub(crate) fn take_run(&mut self, kind: Kind, run: Run, taken: &mut Taken)
        requires room { HasRoom taken.old run.count }
        requires marked { IsMarked self.old taken.old.cells.items }
        ensures taken { taking self.new taken.new ≡ take_all kind (taking self.old taken.old) (places_of run) }
        ensures marked { IsMarked self.new taken.new.cells.items }
        ensures room { (n : ℕ) → HasRoom taken.old (run.count + n) → HasRoom taken.new n }
    {
        if !self.marks.has(run.var) {
            take_missing(kind, run, taken);
            return;
        }
        let marks = self.marks.row_mut(run.var);
        let values = self.values.row_mut(run.var);
        take_run(marks, values, kind, run, taken);
    }

    /// Puts the value of a cell back, and those of cells behind it that are of the same variable; a cell of a variable that is not there
    /// is dropped. Answers the next cell that is due.
    pub(crate) fn put_cells(
        &mut self,
        kind: Kind,
        cell: Cell,
        rest: &mut VecDeque<Cell>,
    ) -> Option<Cell>
        ensures put { (kinds : List AnyKind) → kind ≡ kind_at kinds cell.place.var → with_cells (home kinds) (option_to_list result ++ rest.new.items) self.new ≡ with_cells (home kinds) (cell ∷ rest.old.items) self.old }
        ensures last { IfNone result (rest.new.items ≡ []) }
        ensures fewer { length (option_to_list result) + length rest.new.items ≤ length rest.old.items }
    {
        let var = cell.place.var;
        if !self.marks.has(var) {
            return rest.pop_front();
        }
        let marks = self.marks.row_mut(var);
        let values = self.values.row_mut(var);
        put_cells(marks, values, kind, cell, rest)
    }

    /// Puts values back, one behind the other from a place on.
    pub(crate) fn put_values(&mut self, kind: Kind, first: Place, row: Items<Value>)
        requires { first.index + length row < 4294967297 }
        ensures { (kinds : List AnyKind) (of : AnyKind) → kind ≡ kind_at kinds first.var → self.new ≡ with_cells (home kinds) (row_cells first of row) self.old }
    {
        if !self.marks.has(first.var) {
            return;
        }
        let marks = self.marks.row_mut(first.var);
        let values = self.values.row_mut(first.var);
        put_values(marks, values, kind, first, row);
    }
}
