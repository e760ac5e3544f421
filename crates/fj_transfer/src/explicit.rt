// Input under an explicit format of sequential and stream access (ISO/IEC 1539-1:2004, 9.5.3), and where it leaves the
// connection.
ghost use Rattle.std.specs.Prelude.{◌≡◌, ◌≢◌, ◌+◌, ◌<◌, ◌≤◌, ◌^◌, ◌↔◌, false, length, IfOk, OnOk, OnErr, List, ℕ, Option, None};
ghost use Rattle.fj_value.specs.declared.value.Cell.{Cell};
ghost use Rattle.fj_outside.specs.Faults.{Rose};
ghost use Rattle.fj_span.specs.Change.{KeepsUpToChange};
ghost use Rattle.fj_modes.specs.Words.{same_access};
ghost use Rattle.fj_moved.specs.Cells.{places_of};
ghost use Rattle.fj_connect.specs.Connection.{between, in_record, past_end};
ghost use Rattle.fj_connect.specs.Linked.{connection_of};
ghost use Rattle.fj_connect.specs.Positions.{ended};
ghost use Rattle.fj_connect.specs.Spot.{size_ended};
ghost use Rattle.fj_transfer.specs.AtHand.{behind, rest_at, first_record};
ghost use Rattle.fj_transfer.specs.Input.{left_at, stopped};
ghost use Rattle.fj_transfer.specs.Places.{at_place, IsPlace};
ghost use Rattle.fj_transfer.specs.Reader.{found_of, progress_of, rest_found, done_with, IsHand, IsFound, IsIn, FitsIn};
ghost use Rattle.fj_transfer.specs.Transfer.{unread, input_done, explicit_ended, with_undefined};

use crate::hand::{Found, Hand, line_at};
use crate::reader::Reader;
use fj_connect::{Connection, Spot, Within};
use fj_modes::{Access, LONGEST_FILE};
use fj_moved::{Cells, undefine};
use fj_outside::{FileStore, Stop};
use fj_seqrec::RecordRead;
use fj_value::{Condition, Text};
use std::alloc::{AllocError, Global};

/// Ends the record that output left open, where there is one.
pub fn end_open<F: FileStore>(connection: &mut Connection<F>) -> Result<(), Stop>
    ensures telling { F.tells connection.old.file ↔ F.tells connection.new.file }
    ensures ended { F.tells connection.old.file → OnOk result (connection_of F.bytes connection.new ≡ ended (connection_of F.bytes connection.old)) }
    ensures stopped { F.tells connection.old.file → OnErr result (KeepsUpToChange (F.bytes connection.old.file)
        (ended (connection_of F.bytes connection.old)).bytes (F.bytes connection.new.file)) }

    // Told or not.
    ensures size { OnOk result (size_ended connection.old.spot (F.size connection.old.file) ≤ F.size connection.new.file) }
    ensures number { OnOk result (connection.new.spot.next_number ≡ connection.old.spot.next_number) }
    ensures modes { connection.new.modes ≡ connection.old.modes }
    ensures name { connection.new.name ≡ connection.old.name }
    ensures later { F.count connection.old.file ≤ F.count connection.new.file }
    ensures failed { result ≡ Err Stop.Failed → Rose (F.count connection.old.file) (F.count connection.new.file) }
{
    let before = connection.spot();
    if before.within != Within::Writing {
        return Ok(());
    }
    connection.end_record()?;
    let after = connection.spot();
    prove!(before.at < after.at);
    Ok(())
}

/// Meets the end of the file: the connection stands behind it, and the items are undefined.
fn at_end<F: FileStore>(connection: &mut Connection<F>, cells: &mut Cells) -> Result<(), Stop>
    ensures telling { F.tells connection.old.file ↔ F.tells connection.new.file }
    ensures end { F.tells connection.old.file → OnOk result (connection_of F.bytes connection.new ≡ past_end (ended (connection_of F.bytes connection.old))) }
    ensures stopped { F.tells connection.old.file → OnErr result (KeepsUpToChange (F.bytes connection.old.file)
        (ended (connection_of F.bytes connection.old)).bytes (F.bytes connection.new.file)) }

    // Told or not.
    ensures cells { OnOk result (cells.new ≡ with_undefined cells.old) }
    ensures places { places_of cells.new ≡ places_of cells.old }
    ensures modes { connection.new.modes ≡ connection.old.modes }
    ensures name { connection.new.name ≡ connection.old.name }
    ensures later { F.count connection.old.file ≤ F.count connection.new.file }
    ensures failed { result ≡ Err Stop.Failed → Rose (F.count connection.old.file) (F.count connection.new.file) }
{
    end_open(connection)?;
    connection.go_past_end();
    undefine(cells);
    Ok(())
}

/// Goes behind the record at hand.
pub fn go_behind<F: FileStore>(connection: &mut Connection<F>, next: u64) -> Result<(), Stop>
    requires { next ≤ size_ended connection.old.spot (F.size connection.old.file) }
    ensures telling { F.tells connection.old.file ↔ F.tells connection.new.file }
    ensures behind { F.tells connection.old.file → OnOk result (connection_of F.bytes connection.new ≡ between (ended (connection_of F.bytes connection.old)) next) }
    ensures stopped { F.tells connection.old.file → OnErr result (KeepsUpToChange (F.bytes connection.old.file)
        (ended (connection_of F.bytes connection.old)).bytes (F.bytes connection.new.file)) }

    // Told or not.
    ensures modes { connection.new.modes ≡ connection.old.modes }
    ensures name { connection.new.name ≡ connection.old.name }
    ensures later { F.count connection.old.file ≤ F.count connection.new.file }
    ensures failed { result ≡ Err Stop.Failed → Rose (F.count connection.old.file) (F.count connection.new.file) }
{
    end_open(connection)?;
    connection.go_between(next);
    Ok(())
}

/// Goes into the record at hand, so many characters behind its start.
fn go_inside<F: FileStore>(
    connection: &mut Connection<F>,
    start: u64,
    count: u64,
) -> Result<(), Stop>
    requires { start + count ≤ size_ended connection.old.spot (F.size connection.old.file) }
    ensures telling { F.tells connection.old.file ↔ F.tells connection.new.file }
    ensures inside { F.tells connection.old.file → OnOk result (connection_of F.bytes connection.new ≡ in_record (ended (connection_of F.bytes connection.old)) start count) }
    ensures stopped { F.tells connection.old.file → OnErr result (KeepsUpToChange (F.bytes connection.old.file)
        (ended (connection_of F.bytes connection.old)).bytes (F.bytes connection.new.file)) }

    // Told or not.
    ensures modes { connection.new.modes ≡ connection.old.modes }
    ensures name { connection.new.name ≡ connection.old.name }
    ensures later { F.count connection.old.file ≤ F.count connection.new.file }
    ensures failed { result ≡ Err Stop.Failed → Rose (F.count connection.old.file) (F.count connection.new.file) }
{
    end_open(connection)?;
    connection.go_into_record(start, count);
    Ok(())
}

/// Goes to where an input without a condition leaves the connection: behind the record at hand, or without advancing to
/// the position in it, which is not behind its end.
fn leave<F: FileStore>(connection: &mut Connection<F>, reader: &Reader) -> Result<(), Stop>
    requires access { same_access connection.old.modes.access Access.Direct ≡ false }
    requires hand { IsIn connection.old.modes.access (size_ended connection.old.spot (F.size connection.old.file)) reader.now.hand reader.now.text }
    ensures telling { F.tells connection.old.file ↔ F.tells connection.new.file }
    ensures left { F.tells connection.old.file → let c = ended (connection_of F.bytes connection.old) in IsHand c reader.now.hand → (cells : List Cell) →
        OnOk result (connection_of F.bytes connection.new ≡ left_at reader.now.advance (progress_of c reader.now cells)) }
    ensures stopped { F.tells connection.old.file → OnErr result (KeepsUpToChange (F.bytes connection.old.file)
        (ended (connection_of F.bytes connection.old)).bytes (F.bytes connection.new.file)) }

    // Told or not.
    ensures modes { connection.new.modes ≡ connection.old.modes }
    ensures name { connection.new.name ≡ connection.old.name }
    ensures later { F.count connection.old.file ≤ F.count connection.new.file }
    ensures failed { result ≡ Err Stop.Failed → Rose (F.count connection.old.file) (F.count connection.new.file) }
{
    let Hand::Line { start, skip, next } = reader.hand else {
        unreachable!();
    };
    if reader.advance {
        return go_behind(connection, next);
    }
    let size = connection.file_len();
    prove!(size <= LONGEST_FILE);
    let inside = reader.at.min(reader.text.len() as u64);
    go_inside(connection, start, skip + inside)
}

/// Goes behind the record at hand, as the end of the record leaves the connection.
fn leave_behind<F: FileStore>(connection: &mut Connection<F>, reader: &Reader) -> Result<(), Stop>
    requires access { same_access connection.old.modes.access Access.Direct ≡ false }
    requires hand { IsIn connection.old.modes.access (size_ended connection.old.spot (F.size connection.old.file)) reader.now.hand reader.now.text }
    ensures telling { F.tells connection.old.file ↔ F.tells connection.new.file }
    ensures left { F.tells connection.old.file → let c = ended (connection_of F.bytes connection.old) in IsHand c reader.now.hand → (cells : List Cell) →
        OnOk result (connection_of F.bytes connection.new ≡ behind (progress_of c reader.now cells).hand) }
    ensures stopped { F.tells connection.old.file → OnErr result (KeepsUpToChange (F.bytes connection.old.file)
        (ended (connection_of F.bytes connection.old)).bytes (F.bytes connection.new.file)) }

    // Told or not.
    ensures modes { connection.new.modes ≡ connection.old.modes }
    ensures name { connection.new.name ≡ connection.old.name }
    ensures later { F.count connection.old.file ≤ F.count connection.new.file }
    ensures failed { result ≡ Err Stop.Failed → Rose (F.count connection.old.file) (F.count connection.new.file) }
{
    let Hand::Line { next, .. } = reader.hand else {
        unreachable!();
    };
    go_behind(connection, next)
}

/// What a transfer comes to (ISO/IEC 1539-1:2004, 9.5.1.14 and 9.10).
#[derive(Clone, Copy, Debug, PartialEq, Eq)]
pub struct Performed {
    /// What SIZE= gets: how many characters data edit descriptors took. There is none after an error and at the end of
    /// the file.
    pub count: Option<u64>,
    pub condition: Condition,
}

/// Leaves the connection and the items of an input that ended with a condition.
pub fn finish<F: FileStore>(
    connection: &mut Connection<F>,
    reader: &Reader,
    cells: &mut Cells,
    condition: Condition,
) -> Result<Performed, Stop>
    requires access { same_access connection.old.modes.access Access.Direct ≡ false }
    requires hand { IsIn connection.old.modes.access (size_ended connection.old.spot (F.size connection.old.file)) reader.now.hand reader.now.text }
    ensures telling { F.tells connection.old.file ↔ F.tells connection.new.file }
    ensures done { F.tells connection.old.file → let old = connection_of F.bytes connection.old in IsHand (ended old) reader.now.hand →
        IfOk result (λ performed. done_with (connection_of F.bytes connection.new) cells.new performed
        ≡ explicit_ended old (ended old) reader.now.advance (stopped condition (progress_of (ended old) reader.now cells.old))) }
    ensures stopped { F.tells connection.old.file → let old = connection_of F.bytes connection.old in IsHand (ended old) reader.now.hand →
        OnErr result (KeepsUpToChange (F.bytes connection.old.file)
        (explicit_ended old (ended old) reader.now.advance (stopped condition (progress_of (ended old) reader.now cells.old))).connection.bytes
        (F.bytes connection.new.file)) }

    // Told or not.
    ensures places { places_of cells.new ≡ places_of cells.old }
    ensures modes { connection.new.modes ≡ connection.old.modes }
    ensures name { connection.new.name ≡ connection.old.name }
    ensures later { F.count connection.old.file ≤ F.count connection.new.file }
    ensures failed { result ≡ Err Stop.Failed → Rose (F.count connection.old.file) (F.count connection.new.file) }
{
    match condition {
        Condition::Fine => {
            leave(connection, reader)?;
            Ok(Performed {
                count: Some(reader.count),
                condition,
            })
        }
        Condition::EndOfRecord => {
            leave_behind(connection, reader)?;
            Ok(Performed {
                count: Some(reader.count),
                condition,
            })
        }
        Condition::EndOfFile => {
            at_end(connection, cells)?;
            Ok(Performed {
                count: None,
                condition,
            })
        }
        Condition::Error(_) => {
            undefine(cells);
            Ok(Performed {
                count: None,
                condition,
            })
        }
    }
}

/// Leaves the connection and the items of an input that found no record to begin in.
pub fn refuse<F: FileStore>(
    connection: &mut Connection<F>,
    cells: &mut Cells,
    condition: Condition,
) -> Result<Performed, Stop>
    ensures telling { F.tells connection.old.file ↔ F.tells connection.new.file }
    ensures done { F.tells connection.old.file → let old = connection_of F.bytes connection.old in
        IfOk result (λ performed. done_with (connection_of F.bytes connection.new) cells.new performed
        ≡ input_done (unread old (ended old)) cells.old None condition) }
    ensures stopped { F.tells connection.old.file → let old = connection_of F.bytes connection.old in
        OnErr result (KeepsUpToChange (F.bytes connection.old.file)
        (input_done (unread old (ended old)) cells.old None condition).connection.bytes (F.bytes connection.new.file)) }

    // Told or not.
    ensures places { places_of cells.new ≡ places_of cells.old }
    ensures modes { connection.new.modes ≡ connection.old.modes }
    ensures name { connection.new.name ≡ connection.old.name }
    ensures later { F.count connection.old.file ≤ F.count connection.new.file }
    ensures failed { result ≡ Err Stop.Failed → Rose (F.count connection.old.file) (F.count connection.new.file) }
{
    match condition {
        Condition::EndOfFile => at_end(connection, cells)?,
        Condition::Error(_) => undefine(cells),
        Condition::Fine | Condition::EndOfRecord => {}
    }
    Ok(Performed {
        count: None,
        condition,
    })
}

/// The rest of a record, where it is not longer than the limit with what was read of it.
fn rest_with(
    alloc: Global,
    text: &[u8],
    spot: Spot,
    next: u64,
    recl: u32,
) -> Result<Found, AllocError>
    requires { spot.start ≤ spot.at }
    ensures { IfOk result (λ found. found ≡ rest_found recl spot next text.now) }
{
    let skip = spot.at - spot.start;
    if skip > u64::from(recl) || text.len() as u64 > u64::from(recl) - skip {
        return Ok(Found::Met {
            condition: Condition::RECORD_TOO_LONG,
        });
    }
    let start = spot.start;
    Ok(Found::Here {
        hand: Hand::Line { start, skip, next },
        text: Text::from_bytes(alloc, text)?,
    })
}

/// The rest of the record at hand, of which some characters were read.
fn rest_at<F: FileStore>(alloc: Global, connection: &mut Connection<F>) -> Result<Found, Stop>
    requires access { same_access connection.old.modes.access Access.Direct ≡ false }
    requires within { connection.old.spot.within ≡ Within.Reading }
    ensures telling { F.tells connection.old.file ↔ F.tells connection.new.file }
    ensures same { F.tells connection.old.file → F.bytes connection.new.file ≡ F.bytes connection.old.file }
    ensures found { F.tells connection.old.file → let c = connection_of F.bytes connection.old in IfOk result (λ found. found_of c found ≡ rest_at c) }
    ensures hand { F.tells connection.old.file → IfOk result (λ found. IsFound (connection_of F.bytes connection.old) found) }

    // Told or not.
    ensures fits { IfOk result (λ found. FitsIn connection.old.modes.access (F.size connection.old.file) found) }
    ensures rest { connection.new ≡ record connection.old { file = connection.new.file; hand = connection.new.hand } }
    ensures size { F.size connection.new.file ≡ F.size connection.old.file }
    ensures later { F.count connection.old.file ≤ F.count connection.new.file }
    ensures failed { result ≡ Err Stop.Failed → Rose (F.count connection.old.file) (F.count connection.new.file) }
{
    let spot = connection.spot();
    let size = connection.file_len();
    let recl = connection.modes().recl;
    match connection.look_at_record(spot.at)? {
        RecordRead::Line { next } => Ok(rest_with(alloc, connection.hand(), spot, next, recl)?),
        RecordRead::End => Ok(rest_with(alloc, connection.hand(), spot, size, recl)?),
        RecordRead::TooLong => Ok(Found::Met {
            condition: Condition::RECORD_TOO_LONG,
        }),
    }
}

/// The record that an input begins in at the position.
fn first_here<F: FileStore>(alloc: Global, connection: &mut Connection<F>) -> Result<Found, Stop>
    requires { same_access connection.old.modes.access Access.Direct ≡ false }
    ensures telling { F.tells connection.old.file ↔ F.tells connection.new.file }
    ensures same { F.tells connection.old.file → F.bytes connection.new.file ≡ F.bytes connection.old.file }
    ensures found { F.tells connection.old.file → let c = ended (connection_of F.bytes connection.old) in IfOk result (λ found. found_of c found ≡ first_record c) }
    ensures hand { F.tells connection.old.file → IfOk result (λ found. IsFound (ended (connection_of F.bytes connection.old)) found) }

    // Told or not.
    ensures fits { IfOk result (λ found. FitsIn connection.old.modes.access (size_ended connection.old.spot (F.size connection.old.file)) found) }
    ensures rest { connection.new ≡ record connection.old { file = connection.new.file; hand = connection.new.hand } }
    ensures size { F.size connection.new.file ≡ F.size connection.old.file }
    ensures later { F.count connection.old.file ≤ F.count connection.new.file }
    ensures failed { result ≡ Err Stop.Failed → Rose (F.count connection.old.file) (F.count connection.new.file) }
{
    let spot = connection.spot();
    match spot.within {
        Within::Reading => rest_at(alloc, connection),
        Within::Outside => line_at(alloc, connection, spot.at),
        Within::Writing => line_at(alloc, connection, spot.at + 1),
    }
}

/// The record that an input begins in, at the position or at a place of a stream.
pub fn first_found<F: FileStore>(
    alloc: Global,
    connection: &mut Connection<F>,
    place: Option<u64>,
) -> Result<Found, Stop>
    requires access { same_access connection.old.modes.access Access.Direct ≡ false }
    requires place { IsPlace place (size_ended connection.old.spot (F.size connection.old.file)) }
    ensures telling { F.tells connection.old.file ↔ F.tells connection.new.file }
    ensures same { F.tells connection.old.file → F.bytes connection.new.file ≡ F.bytes connection.old.file }
    ensures found { F.tells connection.old.file → let c = ended (connection_of F.bytes connection.old) in IfOk result (λ found. found_of c found ≡ first_record (at_place place c)) }
    ensures hand { F.tells connection.old.file → IfOk result (λ found. IsFound (ended (connection_of F.bytes connection.old)) found) }

    // Told or not.
    ensures fits { IfOk result (λ found. FitsIn connection.old.modes.access (size_ended connection.old.spot (F.size connection.old.file)) found) }
    ensures rest { connection.new ≡ record connection.old { file = connection.new.file; hand = connection.new.hand } }
    ensures size { F.size connection.new.file ≡ F.size connection.old.file }
    ensures later { F.count connection.old.file ≤ F.count connection.new.file }
    ensures failed { result ≡ Err Stop.Failed → Rose (F.count connection.old.file) (F.count connection.new.file) }
{
    match place {
        Some(place) => line_at(alloc, connection, place),
        None => first_here(alloc, connection),
    }
}
