// What a statement needs, and what it may not do beside pending transfers (ISO/IEC 1539-1:2004, 9.5.1.4, 9.6).
ghost use Rattle.std.specs.Prelude.{◌≡◌, ℕ, ◌++◌, ◌||◌, List, Option, if◌then◌else◌};
ghost use Rattle.std.specs.List.{list_any};
ghost use Rattle.fj_store.specs.Storage.{values_of};
ghost use Rattle.fj_store.specs.Places.{same_place, is_among, has_twice, places_of};
ghost use Rattle.fj_book.specs.Prohibitions.{prohibited};
ghost use Rattle.fj_meaning.specs.Needs.{need_by, if_given, internal_places, subject_places, transfer_need, transfer_places, unit_places, wanted_places};
ghost use Rattle.fj_run_pending.specs.Plain.{holders};
ghost use Rattle.fj_run_pending.specs.Asks.{IsUnitAsked, unit_in};
ghost use Rattle.fj_run_pending.specs.Parts.{need_in};

use crate::pendings::Pendings;
use crate::places::{
    any_given, any_if_given, any_in_operand, any_in_transfer, any_wanted, file_run,
};
use crate::whose::number_given;
use fj_book::{Needs, RunTest};
use fj_modes::Wanted;
use fj_statement::{Statement, Subject, Transfer, UnitRef, Variable};
use fj_store::{Run, Store};
use fj_value::{Place, Rule};

/// The unit that INQUIRE asks about.
fn unit_in(about: &Subject, named: Option<u32>) -> Option<u32>
    ensures { result ≡ unit_in named about.now }
{
    match about {
        Subject::Unit(unit) => unit.number(),
        Subject::File(_) => named,
    }
}

/// Whether the place of a unit passes.
fn any_of_unit<T: RunTest>(unit: UnitRef, test: &T) -> bool
    ensures { result ≡ list_any (T.passes test.now) (unit_places unit) }
{
    any_if_given(unit.place_held(), test)
}

/// Whether the place of the unit that INQUIRE asks about passes.
fn any_of_subject<T: RunTest>(about: &Subject, test: &T) -> bool
    ensures { result ≡ list_any (T.passes test.now) (subject_places about.now) }
{
    match about {
        Subject::Unit(unit) => any_of_unit(*unit, test),
        Subject::File(_) => false,
    }
}

/// Is it this place?
#[derive(Clone, Copy)]
struct Is {
    place: Place,
}

impl RunTest for Is {
    ghost passes = { λ is place. same_place is.place place };

    fn test(&self, run: Run) -> bool {
        run.holds(self.place)
    }
}

/// Whether the place of a specifier is that of another one.
fn are_same(one: Option<Place>, other: Option<Place>) -> bool
    ensures { result ≡ list_any (is_among (if_given other)) (if_given one) }
{
    match one {
        Some(place) => any_if_given(other, &Is { place }),
        None => false,
    }
}

/// Whether two specifiers of READ or WRITE define the same place.
fn specifies_twice(transfer: &Transfer) -> bool
    ensures { result ≡ has_twice (if_given transfer.now.id ++ if_given transfer.now.size ++ if_given transfer.now.iostat) }
{
    are_same(transfer.id, transfer.size)
        || are_same(transfer.id, transfer.iostat)
        || are_same(transfer.size, transfer.iostat)
}

/// Whether a place that INQUIRE defines passes.
fn any_asked<T: RunTest>(asked: &[Wanted], iostat: Option<Place>, test: &T) -> bool
    ensures { result ≡ list_any (T.passes test.now) (wanted_places asked.now ++ if_given iostat) }
{
    any_wanted(asked, test) || any_if_given(iostat, test)
}

/// Whether two specifiers of INQUIRE define the same place.
fn asks_twice(asked: &[Wanted], iostat: Option<Place>) -> bool
    ensures { result ≡ has_twice (wanted_places asked.now ++ if_given iostat) }
{
    for at in 0..asked.len() {
        let is = Is {
            place: asked[at].place,
        };
        if any_asked(&asked[at + 1..], iostat, &is) {
            return true;
        }
    }
    false
}

/// Whether the place of a specifier is one of the items or of the group.
fn is_item(variables: &[Variable], transfer: &Transfer, place: Option<Place>) -> bool
    ensures { result ≡ list_any (is_among (transfer_places variables.now transfer.now)) (if_given place) }
{
    match place {
        Some(place) => any_in_transfer(variables, transfer, &Is { place }),
        None => false,
    }
}

/// Whether a specifier of READ or WRITE defines a place of the items or of the group.
fn specifies_item(variables: &[Variable], transfer: &Transfer) -> bool
    ensures { result ≡ list_any (is_among (transfer_places variables.now transfer.now)) (if_given transfer.now.id ++ if_given transfer.now.size ++ if_given transfer.now.iostat) }
{
    is_item(variables, transfer, transfer.id)
        || is_item(variables, transfer, transfer.size)
        || is_item(variables, transfer, transfer.iostat)
}

/// Is it an element of the internal file?
#[derive(Clone, Copy)]
struct Inside {
    run: Run,
}

impl RunTest for Inside {
    ghost passes = { λ inside place. is_among (places_of inside.run) place };

    fn test(&self, run: Run) -> bool {
        run.meets(self.run)
    }
}

/// Whether a place that READ or WRITE defines by a specifier passes.
fn any_specified<T: RunTest>(transfer: &Transfer, test: &T) -> bool
    ensures { result ≡ list_any (T.passes test.now) (if_given transfer.now.id ++ if_given transfer.now.size ++ if_given transfer.now.iostat) }
{
    any_if_given(transfer.id, test)
        || any_if_given(transfer.size, test)
        || any_if_given(transfer.iostat, test)
}

/// Whether an element of the internal file passes.
fn any_of_file<T: RunTest>(variables: &[Variable], unit: UnitRef, test: &T) -> bool
    ensures { result ≡ list_any (T.passes test.now) (internal_places variables.now unit) }
{
    match unit.internal() {
        Some(file) => test.test(file_run(variables, file)),
        None => false,
    }
}

/// Whether a place passes from which READ or WRITE moves values: an element of an internal file that it reads, or an item that it writes.
fn any_source<T: RunTest>(variables: &[Variable], transfer: &Transfer, test: &T) -> bool
    ensures { result ≡ list_any (T.passes test.now)
        (if transfer.now.input then internal_places variables.now transfer.now.unit else transfer_places variables.now transfer.now) }
{
    if transfer.input {
        any_of_file(variables, transfer.unit, test)
    } else {
        any_in_transfer(variables, transfer, test)
    }
}

/// Whether a place passes to which it moves them: an item that it reads, or an element of an internal file that it writes.
fn any_target<T: RunTest>(variables: &[Variable], transfer: &Transfer, test: &T) -> bool
    ensures { result ≡ list_any (T.passes test.now)
        (if transfer.now.input then transfer_places variables.now transfer.now else internal_places variables.now transfer.now.unit) }
{
    if transfer.input {
        any_in_transfer(variables, transfer, test)
    } else {
        any_of_file(variables, transfer.unit, test)
    }
}

/// Whether a place that READ or WRITE references passes.
fn any_taken<T: RunTest>(variables: &[Variable], transfer: &Transfer, test: &T) -> bool
    ensures { result ≡ list_any (T.passes test.now) (transfer_need variables.now transfer.now).references }
{
    any_of_unit(transfer.unit, test)
        || any_given(variables, &transfer.rec, test)
        || any_given(variables, &transfer.pos, test)
        || any_source(variables, transfer, test)
}

/// Whether a place that READ or WRITE defines passes.
fn any_got<T: RunTest>(variables: &[Variable], transfer: &Transfer, test: &T) -> bool
    ensures { result ≡ list_any (T.passes test.now) (transfer_need variables.now transfer.now).defines }
{
    any_specified(transfer, test) || any_target(variables, transfer, test)
}

/// Whether a place that a specifier of READ or WRITE defines, or an item, is an element of its internal file.
fn stands_inside(variables: &[Variable], transfer: &Transfer) -> bool
    ensures { result ≡ (list_any (is_among (internal_places variables.now transfer.now.unit)) (if_given transfer.now.id ++ if_given transfer.now.size ++ if_given transfer.now.iostat)
        || list_any (is_among (internal_places variables.now transfer.now.unit)) (transfer_places variables.now transfer.now)) }
{
    match transfer.unit.internal() {
        Some(file) => {
            let inside = Inside {
                run: file_run(variables, file),
            };
            any_specified(transfer, &inside) || any_in_transfer(variables, transfer, &inside)
        }
        None => false,
    }
}

/// A statement, with what its places and its unit come of. `named` is the unit that the file is connected to that INQUIRE asks about.
#[derive(Clone, Copy)]
pub(crate) struct Parts<'a> {
    variables: &'a [Variable],
    store: &'a Store,
    named: Option<u32>,
    statement: &'a Statement,
}

impl<'a> Needs for Parts<'a> {
    ghost need = { λ parts. need_in parts };

    fn unit(&self) -> Option<u32> {
        match self.statement {
            Statement::WaitFor {
                unit,
                id: _,
                iostat: _,
            } => unit.number(),
            Statement::Inquire {
                about,
                asked: _,
                id: _,
                iostat: _,
                done: _,
            } => unit_in(about, self.named),
            Statement::Transfer(transfer) => transfer.unit.number(),
            _ => None,
        }
    }

    fn id(&self) -> Option<i64> {
        match self.statement {
            Statement::WaitFor { id, .. } | Statement::Inquire { id, .. } => {
                number_given(self.store, id)
            }
            _ => None,
        }
    }

    fn any_referenced<T: RunTest>(&self, test: &T) -> bool {
        match self.statement {
            Statement::Assign { to: _, from } => any_in_operand(self.variables, from, test),
            Statement::OpenUnit { unit, .. }
            | Statement::CloseUnit { unit, .. }
            | Statement::Move { unit, .. } => any_of_unit(*unit, test),
            Statement::WaitFor { unit, id, .. } => {
                any_of_unit(*unit, test) || any_given(self.variables, id, test)
            }
            Statement::Inquire { about, id, .. } => {
                any_of_subject(about, test) || any_given(self.variables, id, test)
            }
            Statement::Transfer(transfer) => any_taken(self.variables, transfer, test),
            Statement::End => false,
        }
    }

    fn any_defined<T: RunTest>(&self, test: &T) -> bool {
        match self.statement {
            Statement::Assign { to, from: _ } => any_in_operand(self.variables, to, test),
            Statement::OpenUnit { unit, iostat, .. } => {
                any_if_given(unit.place_new(), test) || any_if_given(*iostat, test)
            }
            Statement::CloseUnit { iostat, .. }
            | Statement::WaitFor { iostat, .. }
            | Statement::Move { iostat, .. } => any_if_given(*iostat, test),
            Statement::Inquire {
                about: _,
                asked,
                id: _,
                iostat,
                done: _,
            } => any_asked(asked.as_slice(), *iostat, test),
            Statement::Transfer(transfer) => any_got(self.variables, transfer, test),
            Statement::End => false,
        }
    }

    fn defines_twice(&self) -> bool {
        match self.statement {
            Statement::OpenUnit { unit, iostat, .. } => are_same(unit.place_new(), *iostat),
            Statement::Inquire {
                about: _,
                asked,
                id: _,
                iostat,
                done: _,
            } => asks_twice(asked.as_slice(), *iostat),
            Statement::Transfer(transfer) => {
                specifies_twice(transfer)
                    || specifies_item(self.variables, transfer)
                    || stands_inside(self.variables, transfer)
            }
            _ => false,
        }
    }
}

/// The lowest rule that a statement breaks. `named` is the unit that the file is connected to that INQUIRE asks about. It takes no
/// memory.
pub fn check(
    variables: &[Variable],
    store: &Store,
    pendings: &Pendings,
    named: Option<u32>,
    statement: &Statement,
) -> Option<Rule>
    ensures { (unit_named : List ℕ → Option ℕ) → IsUnitAsked named unit_named statement.now
        → result ≡ prohibited (values_of store.now) (holders pendings.now) (need_by variables.now (values_of store.now) unit_named statement.now) }
{
    pendings.rule_for(
        store,
        &Parts {
            variables,
            store,
            named,
            statement,
        },
    )
}
