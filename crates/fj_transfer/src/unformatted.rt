// Unformatted transfers (ISO/IEC 1539-1:2004, 9.5.3.4.1): a record of sequential access, a direct record, bytes of a stream.
ghost use Rattle.std.specs.Prelude.{◌≡◌, ◌+◌, ◌<◌, ◌≤◌, ◌^◌, ◌↔◌, length, if◌then◌else◌, IsTrue, IfOk, OnErr, List, ℕ};
ghost use Rattle.fj_value.specs.declared.value.Cell.{Cell};
ghost use Rattle.fj_outside.specs.Faults.{Rose};
ghost use Rattle.fj_span.specs.Change.{KeepsUpToChange};
ghost use Rattle.fj_unfrec.specs.Frames.{framed};
ghost use Rattle.fj_moved.specs.Cells.{places_of};
ghost use Rattle.fj_moved.specs.Moved.{IsOrdered};
ghost use Rattle.fj_connect.specs.Connection.{between};
ghost use Rattle.fj_connect.specs.Linked.{connection_of};
ghost use Rattle.fj_transfer.specs.Transfer.{told_with, with_undefined, values_from, bytes_needed, sequential_read, direct_read, stream_read, sequential_written, direct_written, stream_written};

use crate::stored::{get_items, needed};
use fj_connect::Connection;
use fj_modes::{Access, LONGEST_FILE};
use fj_moved::{Moved, undefine};
use fj_outside::{FileStore, Stop};
use fj_unfrec::FrameRead;
use fj_value::{Condition, Text};
use std::alloc::{AllocError, Global};

/// Writes a frame, which is a record of sequential access with its lengths (ISO/IEC 1539-1:2004, 9.5.3.4.1), as the last of the
/// file, by one write. An error leaves the connection: `RECORD_TOO_LONG` (15) where the body is longer than a record may be, and
/// `FILE_TOO_LONG` (25) where the frame would take the file past its limit.
pub fn write_sequential<F: FileStore>(
    connection: &mut Connection<F>,
    frame: &[u8],
) -> Result<Condition, Stop>
    ensures telling { F.tells connection.old.file ↔ F.tells connection.new.file }
    ensures written { F.tells connection.old.file → (cells : List Cell) → (body : List ℕ) → frame.now ≡ framed body → IfOk result (λ condition.
        told_with (connection_of F.bytes connection.new) cells condition
        ≡ sequential_written (connection_of F.bytes connection.old) (connection_of F.bytes connection.old) cells body) }
    ensures stopped { F.tells connection.old.file → (cells : List Cell) → (body : List ℕ) → frame.now ≡ framed body → OnErr result (KeepsUpToChange (F.bytes connection.old.file)
        (sequential_written (connection_of F.bytes connection.old) (connection_of F.bytes connection.old) cells body).connection.bytes
        (F.bytes connection.new.file)) }

    // Told or not.
    ensures modes { connection.new.modes ≡ connection.old.modes }
    ensures name { connection.new.name ≡ connection.old.name }
    ensures later { F.count connection.old.file ≤ F.count connection.new.file }
    ensures failed { result ≡ Err Stop.Failed → Rose (F.count connection.old.file) (F.count connection.new.file) }
{
    if frame.len() > connection.modes().recl as usize + 8 {
        return Ok(Condition::RECORD_TOO_LONG);
    }
    let at = connection.spot().at.min(connection.file_len());
    if at + frame.len() as u64 > LONGEST_FILE {
        return Ok(Condition::FILE_TOO_LONG);
    }
    connection.put_records(frame)?;
    Ok(Condition::Fine)
}

/// Writes the direct record of a number, counted from 1, filled up with zeros (ISO/IEC 1539-1:2004, 9.2.2.2), by one write after
/// the gap where there is one. An error leaves the connection: `RECORD_TOO_LONG` (15) where the bytes are more than a record has,
/// and `FILE_TOO_LONG` (25) where the record would end past the limit of the file.
pub fn write_direct<F: FileStore>(
    connection: &mut Connection<F>,
    number: u64,
    mut body: Text,
) -> Result<Condition, Stop>
    requires access { connection.old.modes.access ≡ Access.Direct }
    requires number { 0 < number }
    ensures telling { F.tells connection.old.file ↔ F.tells connection.new.file }
    ensures written { F.tells connection.old.file → (cells : List Cell) → IfOk result (λ condition.
        told_with (connection_of F.bytes connection.new) cells condition
        ≡ direct_written (connection_of F.bytes connection.old) (connection_of F.bytes connection.old) number cells body) }
    ensures stopped { F.tells connection.old.file → (cells : List Cell) → OnErr result (KeepsUpToChange (F.bytes connection.old.file)
        (direct_written (connection_of F.bytes connection.old) (connection_of F.bytes connection.old) number cells body).connection.bytes
        (F.bytes connection.new.file)) }

    // Told or not.
    ensures modes { connection.new.modes ≡ connection.old.modes }
    ensures name { connection.new.name ≡ connection.old.name }
    ensures later { F.count connection.old.file ≤ F.count connection.new.file }
    ensures failed { result ≡ Err Stop.Failed → Rose (F.count connection.old.file) (F.count connection.new.file) }
{
    let recl = connection.modes().recl;
    if body.len() > recl as usize {
        return Ok(Condition::RECORD_TOO_LONG);
    }
    let size = connection.file_len();
    if number > LONGEST_FILE || size.max(number * u64::from(recl)) > LONGEST_FILE {
        return Ok(Condition::FILE_TOO_LONG);
    }
    body.fill_to(recl as usize, 0)?;
    let start = (number - 1) * u64::from(recl);
    connection.put_direct_run(start, body.bytes(), number, 0)?;
    Ok(Condition::Fine)
}

/// Writes bytes of a stream from a place on, counted from 0, over those that stand there (ISO/IEC 1539-1:2004, 9.2.2.3).
/// `FILE_TOO_LONG` (25), where they would take the file past its limit, leaves the connection.
pub fn write_stream<F: FileStore>(
    connection: &mut Connection<F>,
    place: u64,
    body: &[u8],
) -> Result<Condition, Stop>
    requires { place ≤ F.size connection.old.file }
    ensures telling { F.tells connection.old.file ↔ F.tells connection.new.file }
    ensures written { F.tells connection.old.file → (cells : List Cell) → IfOk result (λ condition.
        told_with (connection_of F.bytes connection.new) cells condition
        ≡ stream_written (connection_of F.bytes connection.old) (between (connection_of F.bytes connection.old) place) cells body.now) }
    ensures stopped { F.tells connection.old.file → (cells : List Cell) → OnErr result (KeepsUpToChange (F.bytes connection.old.file)
        (stream_written (connection_of F.bytes connection.old) (between (connection_of F.bytes connection.old) place) cells body.now).connection.bytes
        (F.bytes connection.new.file)) }

    // Told or not.
    ensures modes { connection.new.modes ≡ connection.old.modes }
    ensures name { connection.new.name ≡ connection.old.name }
    ensures later { F.count connection.old.file ≤ F.count connection.new.file }
    ensures failed { result ≡ Err Stop.Failed → Rose (F.count connection.old.file) (F.count connection.new.file) }
{
    let size = connection.file_len();
    if size.max(place + body.len() as u64) > LONGEST_FILE {
        return Ok(Condition::FILE_TOO_LONG);
    }
    connection.go_between(place);
    connection.put_bytes(body)?;
    Ok(Condition::Fine)
}

/// Gives the items their values out of the bytes of a record. False is told where they need more than it has, and then
/// they are undefined.
fn take_body(alloc: Global, moved: &mut Moved, body: &[u8]) -> Result<bool, AllocError>
    requires { IsOrdered moved.old }
    ensures enough { IfOk result (λ enough. IsTrue enough ↔ (bytes_needed moved.old ≤ length body.now)) }
    ensures cells { IfOk result (λ enough. moved.new.cells
        ≡ (if enough then values_from moved.old.cells moved.old.order body.now else with_undefined moved.old.cells)) }
    ensures order { moved.new.order ≡ moved.old.order }
    ensures places { places_of moved.new.cells ≡ places_of moved.old.cells }
{
    let enough = needed(
        moved.cells.as_slice(),
        moved.order.as_slice(),
        body.len() as u64,
    );
    if enough.is_none() {
        undefine(&mut moved.cells);
        return Ok(false);
    }
    get_items(alloc, &mut moved.cells, moved.order.as_slice(), body)?;
    Ok(true)
}

/// Reads the record of sequential access at the position (ISO/IEC 1539-1:2004, 9.5.3.4.1). An error leaves the connection:
/// `BROKEN_RECORD` (18) where there is no whole frame, `RECORD_TOO_LONG` (15) where it is longer than a record may be,
/// `RECORD_ENDS` (19) where the items need more than it has. `EndOfFile` leaves the connection after the endfile record. The items
/// are undefined then.
pub fn read_sequential<F: FileStore>(
    alloc: Global,
    connection: &mut Connection<F>,
    moved: &mut Moved,
) -> Result<Condition, Stop>
    requires { IsOrdered moved.old }
    ensures telling { F.tells connection.old.file ↔ F.tells connection.new.file }
    ensures read { F.tells connection.old.file → IfOk result (λ condition.
        told_with (connection_of F.bytes connection.new) moved.new.cells condition
        ≡ sequential_read (connection_of F.bytes connection.old) (connection_of F.bytes connection.old) moved.old) }
    ensures same { F.tells connection.old.file → F.bytes connection.new.file ≡ F.bytes connection.old.file }

    // Told or not.
    ensures order { moved.new.order ≡ moved.old.order }
    ensures places { places_of moved.new.cells ≡ places_of moved.old.cells }
    ensures modes { connection.new.modes ≡ connection.old.modes }
    ensures name { connection.new.name ≡ connection.old.name }
    ensures later { F.count connection.old.file ≤ F.count connection.new.file }
    ensures failed { result ≡ Err Stop.Failed → Rose (F.count connection.old.file) (F.count connection.new.file) }
{
    let mut body = Text::new(alloc);
    let condition = match connection.read_frame(&mut body)? {
        FrameRead::Frame { next } => {
            if take_body(alloc, moved, body.bytes())? {
                connection.go_between(next);
                return Ok(Condition::Fine);
            }
            return Ok(Condition::RECORD_ENDS);
        }
        FrameRead::End => {
            connection.go_past_end();
            Condition::EndOfFile
        }
        FrameRead::Broken => Condition::BROKEN_RECORD,
        FrameRead::TooLong => Condition::RECORD_TOO_LONG,
    };
    undefine(&mut moved.cells);
    Ok(condition)
}

/// Reads the direct record of a number, counted from 1 (ISO/IEC 1539-1:2004, 9.2.2.2). An error leaves the connection and makes the
/// items undefined: `NO_SUCH_RECORD` (17) where there is none, `RECORD_ENDS` (19) where the items need more than a record has.
pub fn read_direct<F: FileStore>(
    alloc: Global,
    connection: &mut Connection<F>,
    number: u64,
    moved: &mut Moved,
) -> Result<Condition, Stop>
    requires ordered { IsOrdered moved.old }
    requires number { 0 < number }
    requires next { number + 1 < 2 ^ 64 }
    ensures telling { F.tells connection.old.file ↔ F.tells connection.new.file }
    ensures read { F.tells connection.old.file → IfOk result (λ condition.
        told_with (connection_of F.bytes connection.new) moved.new.cells condition
        ≡ direct_read (connection_of F.bytes connection.old) (connection_of F.bytes connection.old) number moved.old) }
    ensures same { F.tells connection.old.file → F.bytes connection.new.file ≡ F.bytes connection.old.file }

    // Told or not.
    ensures order { moved.new.order ≡ moved.old.order }
    ensures places { places_of moved.new.cells ≡ places_of moved.old.cells }
    ensures modes { connection.new.modes ≡ connection.old.modes }
    ensures name { connection.new.name ≡ connection.old.name }
    ensures later { F.count connection.old.file ≤ F.count connection.new.file }
    ensures failed { result ≡ Err Stop.Failed → Rose (F.count connection.old.file) (F.count connection.new.file) }
{
    let mut body = Text::new(alloc);
    if !connection.read_direct(number, &mut body)? {
        undefine(&mut moved.cells);
        return Ok(Condition::NO_SUCH_RECORD);
    }
    if !take_body(alloc, moved, body.bytes())? {
        return Ok(Condition::RECORD_ENDS);
    }
    connection.set_number(number);
    Ok(Condition::Fine)
}

/// Reads bytes of a stream from a place on, counted from 0 (ISO/IEC 1539-1:2004, 9.2.2.3). Where fewer are left than the items
/// need, that is `EndOfFile`: the connection stays, and the items are undefined.
pub fn read_stream<F: FileStore>(
    alloc: Global,
    connection: &mut Connection<F>,
    place: u64,
    moved: &mut Moved,
) -> Result<Condition, Stop>
    requires ordered { IsOrdered moved.old }
    requires place { place ≤ F.size connection.old.file }
    ensures telling { F.tells connection.old.file ↔ F.tells connection.new.file }
    ensures read { F.tells connection.old.file → IfOk result (λ condition.
        told_with (connection_of F.bytes connection.new) moved.new.cells condition
        ≡ stream_read (connection_of F.bytes connection.old) (connection_of F.bytes connection.old) place moved.old) }
    ensures same { F.tells connection.old.file → F.bytes connection.new.file ≡ F.bytes connection.old.file }

    // Told or not.
    ensures order { moved.new.order ≡ moved.old.order }
    ensures places { places_of moved.new.cells ≡ places_of moved.old.cells }
    ensures modes { connection.new.modes ≡ connection.old.modes }
    ensures name { connection.new.name ≡ connection.old.name }
    ensures later { F.count connection.old.file ≤ F.count connection.new.file }
    ensures failed { result ≡ Err Stop.Failed → Rose (F.count connection.old.file) (F.count connection.new.file) }
{
    let size = connection.file_len();
    let Some(want) = needed(moved.cells.as_slice(), moved.order.as_slice(), size) else {
        undefine(&mut moved.cells);
        return Ok(Condition::EndOfFile);
    };
    let mut bytes = Text::new(alloc);
    if !connection.read_bytes(place, want as u32, &mut bytes)? {
        undefine(&mut moved.cells);
        return Ok(Condition::EndOfFile);
    }
    get_items(
        alloc,
        &mut moved.cells,
        moved.order.as_slice(),
        bytes.bytes(),
    )?;
    connection.go_between(place + want);
    Ok(Condition::Fine)
}
