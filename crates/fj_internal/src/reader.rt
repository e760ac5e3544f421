// Format control carried out on the items of a READ, over elements as records (ISO/IEC 1539-1:2004, 10.3).
ghost use Rattle.std.specs.Prelude.{◌≡◌, ◌≢◌, ◌+◌, ◌<◌, ◌≤◌, ◌^◌, ◌∷◌, List, ℕ, length, IfOk, Ok, Some, None};
ghost use Rattle.fj_value.specs.declared.value.Cell.{Cell};
ghost use Rattle.fj_line.specs.Line.{position_behind};
ghost use Rattle.fj_format.specs.Unfolding as elementary;
ghost use Rattle.fj_control.specs.Steps.{Given, gives, no_data};
ghost use Rattle.fj_control.specs.Walk.{given, due, items_behind};
ghost use Rattle.fj_moved.specs.Cells.{kind_at, places_of};
ghost use Rattle.fj_transfer.specs.Input.{Progress, Ended, field_read, stopped};
ghost use Rattle.fj_transfer.specs.Reader.{comes};
ghost use Rattle.fj_internal.specs.Records.{progress_of, records_behind, items_left, parts_left, taken_out, IsReady};

use crate::elements::characters;
use crate::fields::{characters_for, field_value, width_for};
use fj_control::{Cursor, Move, Step, modes_behind};
use fj_modes::LONGEST_FORMATTED;
use fj_moved::{Cells, define};
use fj_value::{Cell, Condition, Edit, EditModes, Kind, Value};
use std::alloc::{AllocError, Global};

/// A READ under an explicit format.
#[derive(Drop)]
pub struct Reader<'a> {
    /// The characters of the element at hand.
    pub text: &'a [u8],
    /// The elements behind it.
    pub behind: &'a [Cell],
    /// The position, which is 0 before the first character.
    pub at: u64,
    /// How many characters data edit descriptors took.
    pub count: u64,
    pub modes: EditModes,
    pub advance: bool,
    /// The cell of each item, and how many items have their values.
    pub order: &'a [u32],
    pub next: usize,
}

fn kind_at(cells: &[Cell], at: u32) -> Kind
    requires { at < length cells.now }
    ensures { result ≡ kind_at cells.now at }
{
    cells[at as usize].kind
}

impl<'a> Reader<'a> {
    /// Gives a cell the value of a field of which so many characters were there, or tells that the record ended before.
    fn serve(
        &mut self,
        cells: &mut Cells,
        at: u32,
        taken: usize,
        width: u32,
        value: Value,
    ) -> Option<Condition>
        requires there { at < length cells.old }
        requires near { self.old.at ≤ 2 ^ 63 }
        requires count { self.old.count + taken < 2 ^ 64 }
        ensures served { (chars : List ℕ) (next : Progress → Ended) → length chars ≡ taken →
            field_read self.old.advance self.old.modes.pad width chars at (Ok value) (progress_of self.old cells.old) next
            ≡ comes result next (progress_of self.new cells.new) }
        ensures rest { self.new ≡ record self.old { at = self.new.at; count = self.new.count } }
        ensures near { self.new.at ≤ 2 ^ 63 }
        ensures count { self.new.count ≤ self.old.count + taken }
        ensures places { places_of cells.new ≡ places_of cells.old }
        ensures length { length cells.new ≡ length cells.old }
    {
        let whole = taken == width as usize;
        if !whole && !self.modes.pad {
            if self.advance {
                return Some(Condition::SHORT_RECORD);
            }
            define(cells, at as usize, Value::Undefined);
            return Some(Condition::EndOfRecord);
        }
        define(cells, at as usize, value);
        self.at = Move::Ahead(width).from(self.at);
        self.count += taken as u64;
        if whole || self.advance {
            return None;
        }
        Some(Condition::EndOfRecord)
    }

    /// Reads the next item's field.
    fn read_item(
        &mut self,
        alloc: Global,
        cells: &mut Cells,
        edit: Edit,
    ) -> Result<Option<Condition>, AllocError>
        requires { IsReady self.old (length cells.old) }
        ensures done { (more : List Given) (records : List (List ℕ)) → IfOk result (λ end.
            taken_out self.old.advance (parts_left self.old (gives (elementary.edit edit) ∷ more)) records (progress_of self.old cells.old)
            ≡ comes end (taken_out self.old.advance (parts_left self.new more) records) (progress_of self.new cells.new)) }
        ensures left { result ≡ Ok None → length (items_left self.new) ≡ items_behind (gives (elementary.edit edit)) (length (items_left self.old)) }
        ensures rest { self.new ≡ record self.old { at = self.new.at; count = self.new.count; next = self.new.next } }
        ensures ready { IsReady self.new (length cells.new) }
        ensures places { places_of cells.new ≡ places_of cells.old }
    {
        if self.next >= self.order.len() {
            return Ok(None);
        }
        let at = self.order[self.next];
        let kind = kind_at(cells.as_slice(), at);
        let width = width_for(edit, kind);
        let chars = characters_for(self.text, self.at, width);
        let taken = chars.len();
        match field_value(alloc, edit, kind, self.modes, chars, width)? {
            Err(condition) => Ok(Some(condition)),
            Ok(value) => {
                self.next += 1;
                Ok(self.serve(cells, at, taken, width, value))
            }
        }
    }

    /// Goes to the next element.
    fn read_next(&mut self) -> Option<Condition>
        requires near { self.old.at ≤ 2 ^ 63 }
        ensures done { (cells : List Cell) (more : List Given) →
            taken_out self.old.advance (parts_left self.old (gives elementary.slash ∷ more)) (records_behind self.old) (progress_of self.old cells)
            ≡ comes result (taken_out self.old.advance (parts_left self.new more) (records_behind self.new)) (progress_of self.new cells) }
        ensures reader { self.new ≡ record self.old { text = self.new.text; behind = self.new.behind; at = self.new.at } }
        ensures near { self.new.at ≤ 2 ^ 63 }
    {
        let Some((element, behind)) = self.behind.split_first() else {
            return Some(Condition::EndOfFile);
        };
        let text = characters(element);
        if text.len() > LONGEST_FORMATTED as usize {
            return Some(Condition::RECORD_TOO_LONG);
        }
        self.text = text;
        self.behind = behind;
        self.at = 0;
        None
    }

    /// Moves the position.
    fn go(&mut self, how: Move) -> Option<Condition>
        requires { self.old.at ≤ 2 ^ 63 }
        ensures at { self.new ≡ record self.old { at = position_behind how self.old.at } }
        ensures near { self.new.at ≤ 2 ^ 63 }
        ensures none { result ≡ None }
    {
        self.at = how.from(self.at);
        None
    }

    /// Carries out a step of format control. Answers the condition in which the input ends, or none where it goes on.
    fn carry_out(
        &mut self,
        alloc: Global,
        cells: &mut Cells,
        step: Step,
    ) -> Result<Option<Condition>, AllocError>
        requires { IsReady self.old (length cells.old) }
        ensures done { (more : List Given) → IfOk result (λ end.
            taken_out self.old.advance (parts_left self.old (given step.entry ∷ more)) (records_behind self.old) (progress_of self.old cells.old)
            ≡ comes end (taken_out self.old.advance (parts_left self.new more) (records_behind self.new)) (progress_of self.new cells.new)) }
        ensures left { result ≡ Ok None → length (items_left self.new) ≡ items_behind (given step.entry) (length (items_left self.old)) }
        ensures some { result ≡ Ok None → given step.entry ≢ no_data }
        ensures ready { IsReady self.new (length cells.new) }
        ensures same_items { (self.new.order ≡ self.old.order) × (self.new.advance ≡ self.old.advance) }
        ensures places { places_of cells.new ≡ places_of cells.old }
    {
        match step {
            Step::Edit(edit) => self.read_item(alloc, cells, edit),
            Step::Slash => Ok(self.read_next()),
            Step::Str(_) => Ok(Some(Condition::STRING_READ)),
            Step::Tab(n) => Ok(self.go(Move::To(n))),
            Step::Left(n) => Ok(self.go(Move::Back(n))),
            Step::Right(n) => Ok(self.go(Move::Ahead(n))),
            Step::Mode(mode) => {
                self.modes = modes_behind(mode, self.modes);
                Ok(None)
            }
            Step::Done => Ok(None),
            Step::NoData => Ok(Some(Condition::NO_DESCRIPTOR)),
        }
    }

    /// Takes the next step of format control and carries it out. Answers the condition in which the input ends, or none
    /// where it goes on.
    fn step_on(
        &mut self,
        alloc: Global,
        cells: &mut Cells,
        cursor: &mut Cursor,
    ) -> Result<Option<Condition>, AllocError>
        requires { IsReady self.old (length cells.old) }
        ensures done { IfOk result (λ end.
            taken_out self.old.advance (parts_left self.old (due cursor.old (length (items_left self.old)))) (records_behind self.old) (progress_of self.old cells.old)
            ≡ comes end (taken_out self.old.advance (parts_left self.new (due cursor.new (length (items_left self.new)))) (records_behind self.new)) (progress_of self.new cells.new)) }
        ensures smaller { result ≡ Ok None → length (due cursor.new (length (items_left self.new))) < length (due cursor.old (length (items_left self.old))) }
        ensures ready { IsReady self.new (length cells.new) }
        ensures same_items { (self.new.order ≡ self.old.order) × (self.new.advance ≡ self.old.advance) }
        ensures places { places_of cells.new ≡ places_of cells.old }
    {
        match cursor.next(self.next < self.order.len()) {
            Step::Done => Ok(Some(Condition::Fine)),
            step => self.carry_out(alloc, cells, step),
        }
    }

    /// Carries out all steps of format control, and answers the condition in which the input ends.
    pub fn read_steps(
        &mut self,
        alloc: Global,
        cells: &mut Cells,
        cursor: &mut Cursor,
    ) -> Result<Condition, AllocError>
        requires { IsReady self.old (length cells.old) }
        ensures done { IfOk result (λ condition.
            taken_out self.old.advance (parts_left self.old (due cursor.old (length (items_left self.old)))) (records_behind self.old) (progress_of self.old cells.old)
            ≡ stopped condition (progress_of self.new cells.new)) }
        ensures places { places_of cells.new ≡ places_of cells.old }
    {
        loop {
            if let Some(condition) = self.step_on(alloc, cells, cursor)? {
                return Ok(condition);
            }
        }
    }
}
