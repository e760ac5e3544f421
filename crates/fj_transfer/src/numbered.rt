// Input under an explicit format of direct access (ISO/IEC 1539-1:2004, 9.2.2.2 and 10.1): records by their numbers.
ghost use Rattle.std.specs.Prelude.{◌≡◌, ◌<◌, ◌≤◌, ◌^◌, ◌↔◌, true, false, length, IfOk};
ghost use Rattle.fj_outside.specs.Faults.{Rose};
ghost use Rattle.fj_modes.specs.Words.{same_access};
ghost use Rattle.fj_moved.specs.Cells.{places_of};
ghost use Rattle.fj_moved.specs.Moved.{IsOrdered};
ghost use Rattle.fj_control.specs.Steps.{steps};
ghost use Rattle.fj_connect.specs.Linked.{connection_of};
ghost use Rattle.fj_connect.specs.Spot.{is_writing, size_ended};
ghost use Rattle.fj_transfer.specs.AtHand.{first_record};
ghost use Rattle.fj_transfer.specs.Input.{explicit_input, stopped};
ghost use Rattle.fj_transfer.specs.Places.{before_number};
ghost use Rattle.fj_transfer.specs.Reader.{begins, progress_of, done_with, IsIn};
ghost use Rattle.fj_transfer.specs.Transfer.{explicit_ended, explicit_read};

use crate::explicit::Performed;
use crate::hand::Hand;
use crate::reader::Reader;
use fj_connect::{Connection, Within};
use fj_control::Cursor;
use fj_format::Format;
use fj_modes::{Access, LONGEST_FILE};
use fj_moved::{Cells, Moved, undefine};
use fj_outside::{FileStore, Stop};
use fj_value::{Condition, EditModes, Text};
use std::alloc::Global;

/// Leaves the connection and the items of an input that began with the record of a number and ended with a condition.
fn leave_numbered<F: FileStore>(
    connection: &mut Connection<F>,
    first: u64,
    reader: &Reader,
    cells: &mut Cells,
    condition: Condition,
) -> Performed
    requires access { same_access connection.old.modes.access Access.Direct ≡ true }
    requires number { 0 < first }
    requires near { first < 2 ^ 63 }
    requires hand { IsIn connection.old.modes.access (size_ended connection.old.spot (F.size connection.old.file)) reader.now.hand reader.now.text }
    ensures done { F.tells connection.old.file → let old = connection_of F.bytes connection.old in let c = before_number old first in
        done_with (connection_of F.bytes connection.new) cells.new result ≡ explicit_ended old c true (stopped condition (progress_of c reader.now cells.old)) }
    ensures places { places_of cells.new ≡ places_of cells.old }
    ensures rest { connection.new ≡ record connection.old { spot = connection.new.spot } }
{
    let Hand::Numbered { number } = reader.hand else {
        unreachable!();
    };
    match condition {
        Condition::Fine | Condition::EndOfRecord => {
            connection.set_number(number);
            return Performed {
                count: Some(reader.count),
                condition,
            };
        }
        Condition::EndOfFile => {
            connection.set_number(first - 1);
            connection.go_past_end();
        }
        Condition::Error(_) => {}
    }
    undefine(cells);
    Performed {
        count: None,
        condition,
    }
}

/// Reads the items from the record of a number, which is at hand.
fn read_hand<F: FileStore>(
    alloc: Global,
    connection: &mut Connection<F>,
    number: u64,
    text: Text,
    format: &Format,
    modes: EditModes,
    moved: &mut Moved,
) -> Result<Performed, Stop>
    requires access { same_access connection.old.modes.access Access.Direct ≡ true }
    requires outside { is_writing connection.old.spot.within ≡ false }
    requires number { 0 < number }
    requires near { number ≤ 268435456 }
    requires ordered { IsOrdered moved.old }
    requires few { length moved.old.order < 2 ^ 32 }
    ensures telling { F.tells connection.old.file ↔ F.tells connection.new.file }
    ensures done { F.tells connection.old.file → let old = connection_of F.bytes connection.old in let c = before_number old number in
        IfOk result (λ performed. done_with (connection_of F.bytes connection.new) moved.new.cells performed
        ≡ explicit_ended old c true (explicit_input true modes (steps format.now (length moved.old.order)) moved.old.order (begins c (Hand.Numbered number) text moved.old.cells))) }
    ensures same { F.tells connection.old.file → F.bytes connection.new.file ≡ F.bytes connection.old.file }

    // Told or not.
    ensures order { moved.new.order ≡ moved.old.order }
    ensures places { places_of moved.new.cells ≡ places_of moved.old.cells }
    ensures modes { connection.new.modes ≡ connection.old.modes }
    ensures name { connection.new.name ≡ connection.old.name }
    ensures later { F.count connection.old.file ≤ F.count connection.new.file }
    ensures failed { result ≡ Err Stop.Failed → Rose (F.count connection.old.file) (F.count connection.new.file) }
{
    let mut reader = Reader {
        hand: Hand::Numbered { number },
        text,
        at: 0,
        count: 0,
        modes,
        advance: true,
        order: moved.order.as_slice(),
        next: 0,
    };
    let mut cursor = Cursor::new(alloc, format)?;
    let condition = reader.read_steps(alloc, connection, &mut moved.cells, &mut cursor)?;
    Ok(leave_numbered(connection, number, &reader, &mut moved.cells, condition))
}

/// Reads the items of an input under an explicit format from the record of a number on, counted from 1 (ISO/IEC 1539-1:2004,
/// 9.2.2.2 and 10.1), and answers the condition and what SIZE= gets. An error leaves the connection and makes the items undefined:
/// one of `read_lines` but `RECORD_TOO_LONG`, or `NO_SUCH_RECORD` (17) where there is no such record, or none for a slash. After a
/// `Stop` nothing is said of the values.
pub fn read_numbered<F: FileStore>(
    alloc: Global,
    connection: &mut Connection<F>,
    number: u64,
    format: &Format,
    modes: EditModes,
    moved: &mut Moved,
) -> Result<Performed, Stop>
    requires access { same_access connection.old.modes.access Access.Direct ≡ true }
    requires number { 0 < number }
    requires near { number < 2 ^ 63 }
    requires ordered { IsOrdered moved.old }
    requires few { length moved.old.order < 2 ^ 32 }
    ensures telling { F.tells connection.old.file ↔ F.tells connection.new.file }
    ensures done { F.tells connection.old.file → let old = connection_of F.bytes connection.old in let c = before_number old number in
        IfOk result (λ performed. done_with (connection_of F.bytes connection.new) moved.new.cells performed
        ≡ explicit_read old c true modes (steps format.now) moved.old (first_record c)) }
    ensures same { F.tells connection.old.file → F.bytes connection.new.file ≡ F.bytes connection.old.file }

    // Told or not.
    ensures order { moved.new.order ≡ moved.old.order }
    ensures places { places_of moved.new.cells ≡ places_of moved.old.cells }
    ensures modes { connection.new.modes ≡ connection.old.modes }
    ensures name { connection.new.name ≡ connection.old.name }
    ensures later { F.count connection.old.file ≤ F.count connection.new.file }
    ensures failed { result ≡ Err Stop.Failed → Rose (F.count connection.old.file) (F.count connection.new.file) }
{
    let outside = connection.spot().within != Within::Writing;
    prove!(outside);
    let recl = connection.modes().recl;
    let size = connection.file_len();
    prove!(recl > 0 && size <= LONGEST_FILE);
    let mut text = Text::new(alloc);
    if connection.read_direct(number, &mut text)? {
        return read_hand(alloc, connection, number, text, format, modes, moved);
    }
    undefine(&mut moved.cells);
    Ok(Performed {
        count: None,
        condition: Condition::NO_SUCH_RECORD,
    })
}
