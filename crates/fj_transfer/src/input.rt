// Input under an explicit format of sequential and stream access (ISO/IEC 1539-1:2004, 9.5.3 and 10.1).
ghost use Rattle.std.specs.Prelude.{◌≡◌, ◌<◌, ◌≤◌, ◌^◌, ◌↔◌, false, length, IfOk, OnErr};
ghost use Rattle.fj_outside.specs.Faults.{Rose};
ghost use Rattle.fj_span.specs.Change.{KeepsUpToChange};
ghost use Rattle.fj_modes.specs.Words.{same_access};
ghost use Rattle.fj_moved.specs.Cells.{places_of};
ghost use Rattle.fj_moved.specs.Moved.{IsOrdered};
ghost use Rattle.fj_control.specs.Steps.{steps};
ghost use Rattle.fj_connect.specs.Linked.{connection_of};
ghost use Rattle.fj_connect.specs.Positions.{ended};
ghost use Rattle.fj_connect.specs.Spot.{size_ended};
ghost use Rattle.fj_transfer.specs.AtHand.{first_record};
ghost use Rattle.fj_transfer.specs.Input.{explicit_input};
ghost use Rattle.fj_transfer.specs.Places.{at_place, IsPlace};
ghost use Rattle.fj_transfer.specs.Reader.{begins, done_with, IsHand, IsIn};
ghost use Rattle.fj_transfer.specs.Transfer.{explicit_ended, explicit_read};

use crate::explicit::{Performed, finish, first_found, refuse};
use crate::hand::{Found, Hand};
use crate::reader::Reader;
use fj_connect::Connection;
use fj_control::Cursor;
use fj_format::Format;
use fj_modes::Access;
use fj_moved::Moved;
use fj_outside::{FileStore, Stop};
use fj_value::{EditModes, Text};
use std::alloc::Global;

/// Reads the items from a record that is at hand.
fn read_from<F: FileStore>(
    alloc: Global,
    connection: &mut Connection<F>,
    hand: Hand,
    text: Text,
    format: &Format,
    advance: bool,
    modes: EditModes,
    moved: &mut Moved,
) -> Result<Performed, Stop>
    requires access { same_access connection.old.modes.access Access.Direct ≡ false }
    requires hand { IsIn connection.old.modes.access (size_ended connection.old.spot (F.size connection.old.file)) hand text }
    requires ordered { IsOrdered moved.old }
    requires few { length moved.old.order < 2 ^ 32 }
    ensures telling { F.tells connection.old.file ↔ F.tells connection.new.file }
    ensures done { F.tells connection.old.file → let old = connection_of F.bytes connection.old in IsHand (ended old) hand →
        IfOk result (λ performed. done_with (connection_of F.bytes connection.new) moved.new.cells performed
        ≡ explicit_ended old (ended old) advance (explicit_input advance modes (steps format.now (length moved.old.order)) moved.old.order (begins (ended old) hand text moved.old.cells))) }
    ensures stopped { F.tells connection.old.file → let old = connection_of F.bytes connection.old in IsHand (ended old) hand →
        OnErr result (KeepsUpToChange (F.bytes connection.old.file)
        (explicit_ended old (ended old) advance (explicit_input advance modes (steps format.now (length moved.old.order)) moved.old.order (begins (ended old) hand text moved.old.cells))).connection.bytes
        (F.bytes connection.new.file)) }

    // Told or not.
    ensures order { moved.new.order ≡ moved.old.order }
    ensures places { places_of moved.new.cells ≡ places_of moved.old.cells }
    ensures modes { connection.new.modes ≡ connection.old.modes }
    ensures name { connection.new.name ≡ connection.old.name }
    ensures later { F.count connection.old.file ≤ F.count connection.new.file }
    ensures failed { result ≡ Err Stop.Failed → Rose (F.count connection.old.file) (F.count connection.new.file) }
{
    let mut reader = Reader {
        hand,
        text,
        at: 0,
        count: 0,
        modes,
        advance,
        order: moved.order.as_slice(),
        next: 0,
    };
    let mut cursor = Cursor::new(alloc, format)?;
    let condition = reader.read_steps(alloc, connection, &mut moved.cells, &mut cursor)?;
    finish(connection, &reader, &mut moved.cells, condition)
}

/// Reads the items of an input under an explicit format (ISO/IEC 1539-1:2004, 9.5.3.4.2 and 10.1), from the record at hand on or
/// from byte `place` of a stream on, counted from 0, and answers the condition and what SIZE= gets. An open record that output left
/// is ended first.
///
/// Errors leave the connection and make the items undefined: `NO_DESCRIPTOR` (11), `WRONG_DESCRIPTOR` (12), `NO_VALUE` (13),
/// `OUT_OF_RANGE` (14), `RECORD_TOO_LONG` (15), `STRING_READ` (29) and `SHORT_RECORD` (30). `EndOfFile` makes the items undefined,
/// and the connection is after the endfile record. `EndOfRecord`, in nonadvancing input alone, leaves the values that were read.
/// After a `Stop` nothing is said of the values.
pub fn read_lines<F: FileStore>(
    alloc: Global,
    connection: &mut Connection<F>,
    place: Option<u64>,
    format: &Format,
    advance: bool,
    modes: EditModes,
    moved: &mut Moved,
) -> Result<Performed, Stop>
    requires access { same_access connection.old.modes.access Access.Direct ≡ false }
    requires place { IsPlace place (size_ended connection.old.spot (F.size connection.old.file)) }
    requires ordered { IsOrdered moved.old }
    requires few { length moved.old.order < 2 ^ 32 }
    ensures telling { F.tells connection.old.file ↔ F.tells connection.new.file }
    ensures done { F.tells connection.old.file → let old = connection_of F.bytes connection.old in let c = at_place place (ended old) in
        IfOk result (λ performed. done_with (connection_of F.bytes connection.new) moved.new.cells performed
        ≡ explicit_read old c advance modes (steps format.now) moved.old (first_record c)) }
    ensures stopped { F.tells connection.old.file → let old = connection_of F.bytes connection.old in let c = at_place place (ended old) in
        OnErr result (KeepsUpToChange (F.bytes connection.old.file)
        (explicit_read old c advance modes (steps format.now) moved.old (first_record c)).connection.bytes (F.bytes connection.new.file)) }

    // Told or not.
    ensures order { moved.new.order ≡ moved.old.order }
    ensures places { places_of moved.new.cells ≡ places_of moved.old.cells }
    ensures modes { connection.new.modes ≡ connection.old.modes }
    ensures name { connection.new.name ≡ connection.old.name }
    ensures later { F.count connection.old.file ≤ F.count connection.new.file }
    ensures failed { result ≡ Err Stop.Failed → Rose (F.count connection.old.file) (F.count connection.new.file) }
{
    match first_found(alloc, connection, place)? {
        Found::Here { hand, text } => read_from(
            alloc, connection, hand, text, format, advance, modes, moved,
        ),
        Found::Met { condition } => refuse(connection, &mut moved.cells, condition),
    }
}
