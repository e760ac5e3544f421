// Format control carried out on the items of an input (ISO/IEC 1539-1:2004, 10.3).
ghost use Rattle.std.specs.Prelude.{◌≡◌, ◌≢◌, ◌+◌, ◌<◌, ◌≤◌, ◌^◌, ◌∷◌, ◌↔◌, List, ℕ, length, IfOk, Ok, Some, None};
ghost use Rattle.fj_outside.specs.Faults.{Rose};
ghost use Rattle.fj_value.specs.declared.value.Cell.{Cell};
ghost use Rattle.fj_line.specs.Line.{position_behind};
ghost use Rattle.fj_connect.specs.Linked.{connection_of};
ghost use Rattle.fj_connect.specs.Positions.{ended};
ghost use Rattle.fj_connect.specs.Spot.{size_ended};
ghost use Rattle.fj_value.specs.declared.condition.Condition.{Condition};
ghost use Rattle.fj_format.specs.Unfolding as elementary;
ghost use Rattle.fj_control.specs.Steps.{Given, gives, no_data};
ghost use Rattle.fj_control.specs.Walk.{given, due, items_behind};
ghost use Rattle.fj_connect.specs.Connection.{Connection as Connected};
ghost use Rattle.fj_moved.specs.Cells.{places_of};
ghost use Rattle.fj_transfer.specs.Input.{Progress, Ended, field_read, carried_out, stopped};
ghost use Rattle.fj_transfer.specs.Reader.{progress_of, items_left, parts_left, comes, IsHand, IsIn, IsReady, StaysTheSame};

use crate::fields::{characters_for, field_value, width_for};
use crate::hand::{Found, Hand, record_behind};
use crate::stored::kind_at;
use fj_connect::Connection;
use fj_control::{Cursor, Move, Step, modes_behind};
use fj_moved::{Cells, define};
use fj_outside::{FileStore, Stop};
use fj_value::{Condition, Edit, EditModes, Text, Value};
use std::alloc::{AllocError, Global};

/// An input under an explicit format.
#[derive(Drop)]
pub struct Reader<'a> {
    pub hand: Hand,
    /// The characters of the record at hand from the left tab limit on.
    pub text: Text,
    /// The position, which is 0 at the left tab limit.
    pub at: u64,
    /// How many characters data edit descriptors took.
    pub count: u64,
    pub modes: EditModes,
    pub advance: bool,
    /// The cell of each item, and how many items have their values.
    pub order: &'a [u32],
    pub next: usize,
}

impl<'a> Reader<'a> {
    /// Gives a cell the value of a field of which so many characters were there, or tells that the record ended before.
    fn serve(
        &mut self,
        cells: &mut Cells,
        at: u32,
        taken: usize,
        width: u32,
        value: Value,
    ) -> Option<Condition>
        requires there { at < length cells.old }
        requires near { self.old.at ≤ 2 ^ 63 }
        requires count { self.old.count + taken < 2 ^ 64 }
        ensures served { (c : Connected) (chars : List ℕ) (next : Progress → Ended) → length chars ≡ taken →
            field_read self.old.advance self.old.modes.pad width chars at (Ok value) (progress_of c self.old cells.old) next
            ≡ comes result next (progress_of c self.new cells.new) }
        ensures rest { self.new ≡ record self.old { at = self.new.at; count = self.new.count } }
        ensures near { self.new.at ≤ 2 ^ 63 }
        ensures count { self.new.count ≤ self.old.count + taken }
        ensures places { places_of cells.new ≡ places_of cells.old }
        ensures length { length cells.new ≡ length cells.old }
    {
        let whole = taken == width as usize;
        if !whole && !self.modes.pad {
            if self.advance {
                return Some(Condition::SHORT_RECORD);
            }
            define(cells, at as usize, Value::Undefined);
            return Some(Condition::EndOfRecord);
        }
        define(cells, at as usize, value);
        self.at = Move::Ahead(width).from(self.at);
        self.count += taken as u64;
        if whole || self.advance {
            return None;
        }
        Some(Condition::EndOfRecord)
    }

    /// Reads the next item's field.
    fn read_item(
        &mut self,
        alloc: Global,
        cells: &mut Cells,
        edit: Edit,
    ) -> Result<Option<Condition>, AllocError>
        requires { IsReady self.old (length cells.old) }
        ensures done { (c : Connected) (more : List Given) → IfOk result (λ end.
            carried_out self.old.advance (parts_left self.old (gives (elementary.edit edit) ∷ more)) (progress_of c self.old cells.old)
            ≡ comes end (carried_out self.old.advance (parts_left self.new more)) (progress_of c self.new cells.new)) }
        ensures left { result ≡ Ok None → length (items_left self.new) ≡ items_behind (gives (elementary.edit edit)) (length (items_left self.old)) }
        ensures rest { self.new ≡ record self.old { at = self.new.at; count = self.new.count; next = self.new.next } }
        ensures ready { IsReady self.new (length cells.new) }
        ensures places { places_of cells.new ≡ places_of cells.old }
    {
        if self.next >= self.order.len() {
            return Ok(None);
        }
        let at = self.order[self.next];
        let width = width_for(edit, kind_at(cells.as_slice(), at));
        let chars = characters_for(self.text.bytes(), self.at, width);
        let taken = chars.len();
        match field_value(
            alloc,
            edit,
            kind_at(cells.as_slice(), at),
            self.modes,
            chars,
            width,
        )? {
            Err(condition) => Ok(Some(condition)),
            Ok(value) => {
                self.next += 1;
                Ok(self.serve(cells, at, taken, width, value))
            }
        }
    }

    /// Goes to the next record.
    fn read_next<F: FileStore>(
        &mut self,
        alloc: Global,
        connection: &mut Connection<F>,
    ) -> Result<Option<Condition>, Stop>
        requires near { self.old.at ≤ 2 ^ 63 }
        requires hand { IsIn connection.old.modes.access (size_ended connection.old.spot (F.size connection.old.file)) self.old.hand self.old.text }
        ensures telling { F.tells connection.old.file ↔ F.tells connection.new.file }
        ensures same { F.tells connection.old.file → F.bytes connection.new.file ≡ F.bytes connection.old.file }
        ensures done { F.tells connection.old.file → let c = ended (connection_of F.bytes connection.old) in IsHand c self.old.hand →
            (cells : List Cell) (more : List Given) → IfOk result (λ end.
            carried_out self.old.advance (parts_left self.old (gives elementary.slash ∷ more)) (progress_of c self.old cells)
            ≡ comes end (carried_out self.old.advance (parts_left self.new more)) (progress_of c self.new cells)) }
        ensures hand { F.tells connection.old.file → IsHand (ended (connection_of F.bytes connection.old)) self.old.hand → IsHand (ended (connection_of F.bytes connection.old)) self.new.hand }

        // Told or not.
        ensures within { IsIn connection.old.modes.access (size_ended connection.old.spot (F.size connection.old.file)) self.new.hand self.new.text }
        ensures reader { self.new ≡ record self.old { hand = self.new.hand; text = self.new.text; at = self.new.at } }
        ensures near { self.new.at ≤ 2 ^ 63 }
        ensures rest { connection.new ≡ record connection.old { file = connection.new.file; hand = connection.new.hand } }
        ensures size { F.size connection.new.file ≡ F.size connection.old.file }
        ensures later { F.count connection.old.file ≤ F.count connection.new.file }
        ensures failed { result ≡ Err Stop.Failed → Rose (F.count connection.old.file) (F.count connection.new.file) }
    {
        match record_behind(alloc, connection, self.hand)? {
            Found::Here { hand, text } => {
                self.hand = hand;
                self.text = text;
                self.at = 0;
                Ok(None)
            }
            Found::Met { condition } => Ok(Some(condition)),
        }
    }

    /// Moves the position.
    fn go(&mut self, how: Move) -> Option<Condition>
        requires { self.old.at ≤ 2 ^ 63 }
        ensures at { self.new ≡ record self.old { at = position_behind how self.old.at } }
        ensures near { self.new.at ≤ 2 ^ 63 }
        ensures none { result ≡ None }
    {
        self.at = how.from(self.at);
        None
    }

    /// Carries out a step of format control. Answers the condition in which the input ends, or none where it goes on.
    fn carry_out<F: FileStore>(
        &mut self,
        alloc: Global,
        connection: &mut Connection<F>,
        cells: &mut Cells,
        step: Step,
    ) -> Result<Option<Condition>, Stop>
        requires ready { IsReady self.old (length cells.old) }
        requires hand { IsIn connection.old.modes.access (size_ended connection.old.spot (F.size connection.old.file)) self.old.hand self.old.text }
        ensures telling { F.tells connection.old.file ↔ F.tells connection.new.file }
        ensures same { F.tells connection.old.file → F.bytes connection.new.file ≡ F.bytes connection.old.file }
        ensures done { F.tells connection.old.file → let c = ended (connection_of F.bytes connection.old) in IsHand c self.old.hand →
            (more : List Given) → IfOk result (λ end.
            carried_out self.old.advance (parts_left self.old (given step.entry ∷ more)) (progress_of c self.old cells.old)
            ≡ comes end (carried_out self.old.advance (parts_left self.new more)) (progress_of c self.new cells.new)) }
        ensures hand { F.tells connection.old.file → IsHand (ended (connection_of F.bytes connection.old)) self.old.hand → IsHand (ended (connection_of F.bytes connection.old)) self.new.hand }

        // Told or not.
        ensures left { result ≡ Ok None → length (items_left self.new) ≡ items_behind (given step.entry) (length (items_left self.old)) }
        ensures some { result ≡ Ok None → given step.entry ≢ no_data }
        ensures ready { IsReady self.new (length cells.new) }
        ensures within { IsIn connection.old.modes.access (size_ended connection.old.spot (F.size connection.old.file)) self.new.hand self.new.text }
        ensures same_items { (self.new.order ≡ self.old.order) × (self.new.advance ≡ self.old.advance) }
        ensures places { places_of cells.new ≡ places_of cells.old }
        ensures rest { connection.new ≡ record connection.old { file = connection.new.file; hand = connection.new.hand } }
        ensures size { F.size connection.new.file ≡ F.size connection.old.file }
        ensures later { F.count connection.old.file ≤ F.count connection.new.file }
        ensures failed { result ≡ Err Stop.Failed → Rose (F.count connection.old.file) (F.count connection.new.file) }
    {
        match step {
            Step::Edit(edit) => Ok(self.read_item(alloc, cells, edit)?),
            Step::Slash => self.read_next(alloc, connection),
            Step::Str(_) => Ok(Some(Condition::STRING_READ)),
            Step::Tab(n) => Ok(self.go(Move::To(n))),
            Step::Left(n) => Ok(self.go(Move::Back(n))),
            Step::Right(n) => Ok(self.go(Move::Ahead(n))),
            Step::Mode(mode) => {
                self.modes = modes_behind(mode, self.modes);
                Ok(None)
            }
            Step::Done => Ok(None),
            Step::NoData => Ok(Some(Condition::NO_DESCRIPTOR)),
        }
    }

    /// Takes the next step of format control and carries it out. Answers the condition in which the input ends, or none
    /// where it goes on.
    fn step_on<F: FileStore>(
        &mut self,
        alloc: Global,
        connection: &mut Connection<F>,
        cells: &mut Cells,
        cursor: &mut Cursor,
    ) -> Result<Option<Condition>, Stop>
        requires ready { IsReady self.old (length cells.old) }
        requires hand { IsIn connection.old.modes.access (size_ended connection.old.spot (F.size connection.old.file)) self.old.hand self.old.text }
        ensures file { StaysTheSame F.tells F.bytes F.size F.count connection.old connection.new }
        ensures done { F.tells connection.old.file → let c = ended (connection_of F.bytes connection.old) in IsHand c self.old.hand → IfOk result (λ end.
            carried_out self.old.advance (parts_left self.old (due cursor.old (length (items_left self.old)))) (progress_of c self.old cells.old)
            ≡ comes end (carried_out self.old.advance (parts_left self.new (due cursor.new (length (items_left self.new))))) (progress_of c self.new cells.new)) }
        ensures hand { F.tells connection.old.file → IsHand (ended (connection_of F.bytes connection.old)) self.old.hand → IsHand (ended (connection_of F.bytes connection.old)) self.new.hand }

        // Told or not.
        ensures smaller { result ≡ Ok None → length (due cursor.new (length (items_left self.new))) < length (due cursor.old (length (items_left self.old))) }
        ensures ready { IsReady self.new (length cells.new) }
        ensures within { IsIn connection.old.modes.access (size_ended connection.old.spot (F.size connection.old.file)) self.new.hand self.new.text }
        ensures same_items { (self.new.order ≡ self.old.order) × (self.new.advance ≡ self.old.advance) }
        ensures places { places_of cells.new ≡ places_of cells.old }
        ensures failed { result ≡ Err Stop.Failed → Rose (F.count connection.old.file) (F.count connection.new.file) }
    {
        match cursor.next(self.next < self.order.len()) {
            Step::Done => Ok(Some(Condition::Fine)),
            step => self.carry_out(alloc, connection, cells, step),
        }
    }

    /// Carries out all steps of format control, and answers the condition in which the input ends.
    pub fn read_steps<F: FileStore>(
        &mut self,
        alloc: Global,
        connection: &mut Connection<F>,
        cells: &mut Cells,
        cursor: &mut Cursor,
    ) -> Result<Condition, Stop>
        requires ready { IsReady self.old (length cells.old) }
        requires hand { IsIn connection.old.modes.access (size_ended connection.old.spot (F.size connection.old.file)) self.old.hand self.old.text }
        ensures file { StaysTheSame F.tells F.bytes F.size F.count connection.old connection.new }
        ensures done { F.tells connection.old.file → let c = ended (connection_of F.bytes connection.old) in IsHand c self.old.hand →
            IfOk result (λ condition.
            carried_out self.old.advance (parts_left self.old (due cursor.old (length (items_left self.old)))) (progress_of c self.old cells.old)
            ≡ stopped condition (progress_of c self.new cells.new)) }
        ensures hand { F.tells connection.old.file → IsHand (ended (connection_of F.bytes connection.old)) self.old.hand → IsHand (ended (connection_of F.bytes connection.old)) self.new.hand }

        // Told or not.
        ensures within { IsIn connection.old.modes.access (size_ended connection.old.spot (F.size connection.old.file)) self.new.hand self.new.text }
        ensures advance { self.new.advance ≡ self.old.advance }
        ensures places { places_of cells.new ≡ places_of cells.old }
        ensures failed { result ≡ Err Stop.Failed → Rose (F.count connection.old.file) (F.count connection.new.file) }
    {
        loop {
            if let Some(condition) = self.step_on(alloc, connection, cells, cursor)? {
                return Ok(condition);
            }
        }
    }
}
