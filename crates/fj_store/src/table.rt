// Tables with an element at each place of each variable.
ghost use Rattle.std.specs.Prelude.{◌≡◌, ◌<◌, suc, ltb, [], ◌∷◌, ◌++◌, true, false, length, map, is_none, Some, None, IfSome, IfNone, IfOk, OnOk, OnErr, slice_get, slice_set};
ghost use Rattle.std.specs.Borrow.{Lends, sem};
ghost use Rattle.fj_moved.specs.contracts.elements.Owned.{the_row as owned_row};
ghost use Rattle.fj_store.specs.contracts.table.Table.{the_row};
ghost use Rattle.std.specs.List.{list_any};
ghost use Rattle.std.specs.Option.{option_copied};
ghost use Rattle.fj_value.specs.declared.place.Place.{Place as AnyPlace};
ghost use Rattle.fj_store.specs.Places.{places_of};
ghost use Rattle.fj_store.specs.Tables.{element_at, element_in, row_with, with_element};

use crate::run::Run;
use fj_moved::{Element, Elements, Owned};
use fj_value::Place;
use std::alloc::{AllocError, Global};
use std::marker::Model;

/// By variable, what stands at each of its places. Contracts see it as a list of lists.
#[derive(Drop)]
pub struct Table<T: Element> {
    rows: Vec<Elements<T>>,
}

impl<T: Element> Model for Table<T> {
    ghost use Rattle.std.specs.Prelude.{List};
    ghost use Rattle.std.specs.Coded.{coded_list};

    ghost Value = { List (List T) };

    ghost coded = { coded_list (coded_list T.code) };

    ghost view = { λ table. table.rows.items };
}

/// What stands at an index of a row, of which the first is 1.
#[inline(always)]
pub(crate) fn get_in<T: Element>(row: &Owned<T>, index: u32) -> Option<&T>
    ensures { option_copied result ≡ element_in index row.now }
{
    let at = index.checked_sub(1)?;
    row.get(at as usize)
}

/// Where an index is in a row, if there is such an index.
#[inline(always)]
pub(crate) fn position_in<T: Element>(row: &Owned<T>, index: u32) -> Option<usize>
    ensures some { IfSome result (λ at. (at < length row.now) × (index ≡ suc at)) }
    ensures none { IfNone result (element_in index row.now ≡ None) }
{
    let at = index.checked_sub(1)? as usize;
    if at < row.len() { Some(at) } else { None }
}

/// Puts an element at an index of a row, and answers the one that stood there. Where there is no such index nothing changes.
#[inline(always)]
pub(crate) fn replace_in<T: Element + Drop>(row: &mut Owned<T>, index: u32, element: T) -> Option<T>
    ensures old { result ≡ element_in index row.old }
    ensures new { row.new ≡ row_with index element row.old }
{
    match position_in(row, index) {
        Some(at) => Some(row.replace(at, element)),
        None => None,
    }
}

/// Puts an element at an index of a row, and drops the one that stood there. Where there is no such index nothing changes.
#[inline(always)]
pub(crate) fn put_in<T: Element + Drop>(row: &mut Owned<T>, index: u32, element: T)
    ensures { row.new ≡ row_with index element row.old }
{
    let _ = match position_in(row, index) {
        Some(at) => row.replace(at, element),
        None => element,
    };
}

impl<T: Element> Table<T> {
    /// A table of no variables.
    pub fn new(alloc: Global) -> Table<T>
        ensures { result ≡ [] }
    {
        Table {
            rows: Vec::new(alloc),
        }
    }

    /// Whether it has a variable.
    pub(crate) fn has(&self, var: u32) -> bool
        ensures { result ≡ ltb var (length self.now) }
    {
        (var as usize) < self.rows.len()
    }

    /// Whether it is known of a variable that none of its elements is undefined.
    pub(crate) fn is_filled(&self, var: u32) -> bool
        ensures { result ≡ true → ((place : AnyPlace) → place.var ≡ var → IfSome (element_at self.now place) (λ element. T.undefined element ≡ false)) }
    {
        match self.rows.get(var as usize) {
            Some(row) => row.is_filled(),
            None => false,
        }
    }

    /// What stands at a place, if it has such a place.
    pub fn get(&self, place: Place) -> Option<&T>
        ensures { option_copied result ≡ element_at self.now place }
    {
        let at = place.index.checked_sub(1)?;
        let row = self.rows.get(place.var as usize)?;
        row.get(at as usize)
    }

    /// What stands at the places of a run, one behind the other, if it has them all.
    pub fn at_run(&self, run: Run) -> Option<&[T]>
        ensures some { IfSome result (λ row. map Some row.now ≡ map (element_at self.now) (places_of run)) }
        ensures none { IfNone result (0 < run.count → list_any (λ place. is_none (element_at self.now place)) (places_of run) ≡ true) }
    {
        let first = run.first.checked_sub(1)? as usize;
        let row = self.rows.get(run.var as usize)?;
        let end = first + run.count as usize;
        if end > row.len() {
            return None;
        }
        Some(&row.as_slice()[first..end])
    }
}

impl<T: Element + Drop> Table<T> {
    /// Adds a variable, with what stands at its places. Want of memory changes nothing.
    pub fn push(&mut self, row: Elements<T>) -> Result<(), AllocError>
        ensures ok { OnOk result (self.new ≡ self.old ++ row ∷ []) }
        ensures err { OnErr result (self.new ≡ self.old) }
    {
        self.rows.push(row)?;
        Ok(())
    }

    /// What stands at the places of a variable, to be changed. It takes no memory.
    #[inline(always)]
    pub(crate) fn row_mut(&mut self, var: u32) -> &mut Owned<T>
        requires { var < length self.old }
        ensures* writes_back { sem 𝓛 (Lends (the_row T.row T.Element) (owned_row T.row T.Element) self.entry result (slice_set self.old var)) }
        ensures value { slice_get self.old var ≡ Some result.now }
    {
        self.rows[var as usize].owned_mut()
    }

    /// Puts an element at a place, and answers the one that stood there. Where there is no such place nothing changes.
    pub fn replace(&mut self, place: Place, element: T) -> Option<T>
        ensures old { result ≡ element_at self.old place }
        ensures new { self.new ≡ with_element self.old place element }
    {
        if !self.has(place.var) {
            return None;
        }
        replace_in(self.row_mut(place.var), place.index, element)
    }

    /// Puts an element at a place, and drops the one that stood there. Where there is no such place nothing changes.
    pub fn put(&mut self, place: Place, element: T)
        ensures { self.new ≡ with_element self.old place element }
    {
        let _ = self.replace(place, element);
    }

    /// What stands at the places of a run, shared with the table, where these are all of a variable; none where it is not shared. It
    /// changes nothing.
    pub fn share(&mut self, alloc: Global, run: Run) -> Result<Option<Elements<T>>, AllocError>
        ensures same { self.new ≡ self.old }
        ensures shared { IfOk result (λ o. IfSome o (λ row. map Some row ≡ map (element_at self.old) (places_of run))) }
    {
        let var = run.var as usize;
        if var >= self.rows.len() {
            return Ok(None);
        }
        if run.first != 1 {
            return Ok(None);
        }
        if run.count as usize != self.rows[var].len() {
            return Ok(None);
        }
        self.rows[var].share(alloc)
    }
}
