// Formatted output of sequential and stream access (ISO/IEC 1539-1:2004, 9.5.3): records as the last of the file.
ghost use Rattle.std.specs.Prelude.{◌≡◌, ◌≢◌, ◌+◌, ◌≤◌, ◌||◌, ◌↔◌, true, not, length, IfOk, OnErr, All, List, ℕ};
ghost use Rattle.fj_value.specs.declared.value.Cell.{Cell};
ghost use Rattle.fj_outside.specs.Faults.{Rose};
ghost use Rattle.fj_span.specs.Change.{KeepsUpToChange};
ghost use Rattle.fj_connect.specs.Connection.{begun};
ghost use Rattle.fj_connect.specs.Linked.{connection_of};
ghost use Rattle.fj_namelist.specs.GroupText.{IsWithin};
ghost use Rattle.fj_transfer.specs.Moving.{members_of};
ghost use Rattle.fj_transfer.specs.Places.{spot_at, at_place, feed_at, IsPlace};
ghost use Rattle.fj_transfer.specs.Printing.{IsRecords, actions_by, control_of, printed_by};
ghost use Rattle.fj_transfer.specs.Transfer.{told_with, is_explicit, text_written, lines_written};

use crate::print::print_onto;
use crate::room::record_room;
use crate::transfer::Layout;
use fj_connect::{Connection, Within};
use fj_line::Unwritten;
use fj_modes::{Access, LONGEST_FILE};
use fj_moved::Load;
use fj_outside::{FileStore, Stop};
use fj_value::{Condition, EditModes, Text};
use std::alloc::Global;

/// Goes to a place, where one is named.
fn go_to<F: FileStore>(connection: &mut Connection<F>, place: Option<u64>)
    requires { IsPlace place (F.size connection.old.file) }
    ensures { connection.new ≡ record connection.old { spot = spot_at place connection.old.spot } }
{
    if let Some(place) = place {
        connection.go_between(place);
    }
}

/// Where a transfer begins.
fn position<F: FileStore>(connection: &Connection<F>, place: Option<u64>) -> u64
    requires { IsPlace place (F.size connection.now.file) }
    ensures at { result ≡ (spot_at place connection.now.spot).at }
    ensures within { result ≤ 268435456 }
    ensures bytes { F.tells connection.now.file → result ≤ length (F.bytes connection.now.file) }
{
    let size = connection.file_len();
    match place {
        Some(place) => place.min(size),
        None => connection.spot().at.min(size),
    }
}

/// How many characters the record has that a transfer begins in.
pub fn begun_at<F: FileStore>(connection: &Connection<F>, place: Option<u64>) -> u32
    ensures begun { result ≡ begun (at_place place (connection_of F.bytes connection.now)) }
    ensures within { result ≤ (spot_at place connection.now.spot).at }
{
    let spot = connection.spot();
    if place.is_some() {
        return 0;
    }
    (spot.at - spot.start) as u32
}

/// Puts records as the last of the file, and leaves the last one open, with so many characters, where it does not end.
/// Error 25, where they would take the file past its limit, leaves the connection.
fn put_text<F: FileStore>(
    connection: &mut Connection<F>,
    place: Option<u64>,
    text: &[u8],
    ends: bool,
    count: u64,
) -> Result<Condition, Stop>
    requires formatted { connection.old.modes.formatted ≡ true }
    requires access { connection.old.modes.access ≢ Access.Direct }
    requires place { IsPlace place (F.size connection.old.file) }
    requires count { count ≤ (spot_at place connection.old.spot).at + length text.now }
    ensures telling { F.tells connection.old.file ↔ F.tells connection.new.file }
    ensures written { F.tells connection.old.file → (cells : List Cell) → IfOk result (λ condition.
        told_with (connection_of F.bytes connection.new) cells condition
        ≡ text_written (connection_of F.bytes connection.old) (at_place place (connection_of F.bytes connection.old)) ends cells text.now count) }
    ensures stopped { F.tells connection.old.file → (cells : List Cell) → OnErr result (KeepsUpToChange (F.bytes connection.old.file)
        (text_written (connection_of F.bytes connection.old) (at_place place (connection_of F.bytes connection.old)) ends cells text.now count).connection.bytes
        (F.bytes connection.new.file)) }

    // Told or not.
    ensures modes { connection.new.modes ≡ connection.old.modes }
    ensures name { connection.new.name ≡ connection.old.name }
    ensures later { F.count connection.old.file ≤ F.count connection.new.file }
    ensures failed { result ≡ Err Stop.Failed → Rose (F.count connection.old.file) (F.count connection.new.file) }
{
    let behind = position(connection, place) + text.len() as u64;
    let feed = if ends { 0 } else { 1 };
    if behind + feed > LONGEST_FILE {
        return Ok(Condition::FILE_TOO_LONG);
    }
    go_to(connection, place);
    if ends {
        connection.put_records(text)?;
        return Ok(Condition::Fine);
    }
    connection.put_open_record(text, count)?;
    Ok(Condition::Fine)
}

/// The text that an output begins with, which has the line feed that output lacks there, or nothing.
fn feed<F: FileStore>(
    alloc: Global,
    connection: &mut Connection<F>,
    place: Option<u64>,
) -> Result<Text, Stop>
    ensures telling { F.tells connection.old.file ↔ F.tells connection.new.file }
    ensures same { F.tells connection.old.file → F.bytes connection.new.file ≡ F.bytes connection.old.file }
    ensures feed { F.tells connection.old.file → IfOk result (λ out. out ≡ feed_at place (connection_of F.bytes connection.old)) }

    // Told or not.
    ensures rest { connection.new ≡ record connection.old { file = connection.new.file } }
    ensures size { F.size connection.new.file ≡ F.size connection.old.file }
    ensures later { F.count connection.old.file ≤ F.count connection.new.file }
    ensures failed { result ≡ Err Stop.Failed → Rose (F.count connection.old.file) (F.count connection.new.file) }
{
    let mut out = record_room(alloc)?;
    let spot = connection.spot();
    if place.is_some() || spot.within != Within::Outside || spot.at == 0 {
        return Ok(out);
    }
    let there = connection.read_bytes(spot.at - 1, 1, &mut out)?;
    let ended = there && out.bytes()[0] == b'\n';
    out.clear();
    if ended {
        return Ok(out);
    }
    out.push_all(b"\n")?;
    Ok(out)
}

/// Whether the last record of an output ends.
fn ends_record(layout: &Layout, advance: bool) -> bool
    ensures { result ≡ (advance || not (is_explicit layout.now)) }
{
    match layout {
        Layout::Explicit(_) => advance,
        _ => true,
    }
}

/// Writes the records of an output by its layout (ISO/IEC 1539-1:2004, 9.5.3.4.2), the last of the file: at the position, where an
/// open record goes on, or from byte `place` of a stream on, counted from 0. An error is one of `print_records`, or `FILE_TOO_LONG`
/// (25) where the file would pass its limit, and leaves the connection.
pub fn write_lines<F: FileStore>(
    alloc: Global,
    connection: &mut Connection<F>,
    place: Option<u64>,
    layout: &Layout,
    advance: bool,
    modes: EditModes,
    moved: &Load,
) -> Result<Condition, Stop>
    requires formatted { connection.old.modes.formatted ≡ true }
    requires access { connection.old.modes.access ≢ Access.Direct }
    requires place { IsPlace place (F.size connection.old.file) }
    requires records { IsRecords layout.now }
    requires grouped { All (IsWithin (length moved.now.cells)) (members_of layout.now) }
    ensures telling { F.tells connection.old.file ↔ F.tells connection.new.file }
    ensures written { F.tells connection.old.file → let old = connection_of F.bytes connection.old in let c = at_place place old in
        IfOk result (λ condition. told_with (connection_of F.bytes connection.new) moved.now.cells condition
        ≡ lines_written old c (feed_at place old) (advance || not (is_explicit layout.now)) moved.now.cells
        (printed_by c.modes.recl (begun c) (actions_by layout.now (control_of layout.now) modes advance moved.now))) }
    ensures stopped { F.tells connection.old.file → let old = connection_of F.bytes connection.old in let c = at_place place old in
        OnErr result (KeepsUpToChange (F.bytes connection.old.file)
        (lines_written old c (feed_at place old) (advance || not (is_explicit layout.now)) moved.now.cells
        (printed_by c.modes.recl (begun c) (actions_by layout.now (control_of layout.now) modes advance moved.now))).connection.bytes
        (F.bytes connection.new.file)) }

    // Told or not.
    ensures modes { connection.new.modes ≡ connection.old.modes }
    ensures name { connection.new.name ≡ connection.old.name }
    ensures later { F.count connection.old.file ≤ F.count connection.new.file }
    ensures failed { result ≡ Err Stop.Failed → Rose (F.count connection.old.file) (F.count connection.new.file) }
{
    let begun = begun_at(connection, place);
    let recl = connection.modes().recl;
    let ends = ends_record(layout, advance);
    let mut out = feed(alloc, connection, place)?;
    match print_onto(layout, advance, modes, moved, recl, begun, &mut out) {
        Ok(count) => put_text(connection, place, out.bytes(), ends, count),
        Err(Unwritten::Met(condition)) => Ok(condition),
        Err(Unwritten::Memory(error)) => Err(Stop::Memory(error)),
    }
}
