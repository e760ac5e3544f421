// List-directed and namelist input of sequential and stream access (ISO/IEC 1539-1:2004, 9.5.3, 10.9.1 and 10.10.1).
ghost use Rattle.std.specs.Prelude.{◌≡◌, ◌≤◌, ◌↔◌, false, length, All, None, IfOk, OnOk, OnErr};
ghost use Rattle.fj_outside.specs.Faults.{Rose};
ghost use Rattle.fj_span.specs.Change.{KeepsUpToChange};
ghost use Rattle.fj_modes.specs.Words.{same_access};
ghost use Rattle.fj_list.specs.ListInput.{list_input};
ghost use Rattle.fj_moved.specs.Cells.{places_of};
ghost use Rattle.fj_moved.specs.Moved.{IsOrdered};
ghost use Rattle.fj_namelist.specs.GroupInput.{group_input};
ghost use Rattle.fj_namelist.specs.GroupText.{IsWithin};
ghost use Rattle.fj_connect.specs.Linked.{connection_of};
ghost use Rattle.fj_connect.specs.Positions.{ended};
ghost use Rattle.fj_connect.specs.Spot.{size_ended};
ghost use Rattle.fj_transfer.specs.Ahead.{ways_from};
ghost use Rattle.fj_transfer.specs.Places.{at_place, IsPlace};
ghost use Rattle.fj_transfer.specs.Reader.{done_with};
ghost use Rattle.fj_transfer.specs.Transfer.{input_done, records_read, records_to_come, condition_to_come};

use crate::ahead::{group_from, list_from};
use crate::explicit::{Performed, end_open, go_behind, refuse};
use crate::reached::Reached;
use fj_connect::Connection;
use fj_modes::Access;
use fj_moved::{Cells, GroupMember, Moved};
use fj_outside::{FileStore, Stop};
use fj_value::{Condition, EditModes};
use std::alloc::Global;
use std::marker::Brand;

/// Goes to where an input has come.
fn go_to<F: FileStore>(connection: &mut Connection<F>, place: Option<u64>) -> Result<(), Stop>
    requires { IsPlace place (size_ended connection.old.spot (F.size connection.old.file)) }
    ensures telling { F.tells connection.old.file ↔ F.tells connection.new.file }
    ensures there { F.tells connection.old.file → OnOk result (connection_of F.bytes connection.new ≡ at_place place (ended (connection_of F.bytes connection.old))) }
    ensures stopped { F.tells connection.old.file → OnErr result (KeepsUpToChange (F.bytes connection.old.file)
        (at_place place (ended (connection_of F.bytes connection.old))).bytes (F.bytes connection.new.file)) }

    // Told or not.
    ensures modes { connection.new.modes ≡ connection.old.modes }
    ensures name { connection.new.name ≡ connection.old.name }
    ensures later { F.count connection.old.file ≤ F.count connection.new.file }
    ensures failed { result ≡ Err Stop.Failed → Rose (F.count connection.old.file) (F.count connection.new.file) }
{
    match place {
        Some(next) => go_behind(connection, next),
        None => end_open(connection),
    }
}

/// Leaves the connection and the items of an input that has come to a place.
fn leave<F: FileStore>(
    connection: &mut Connection<F>,
    reached: Reached,
    cells: &mut Cells,
) -> Result<Performed, Stop>
    requires { IsPlace reached.place (size_ended connection.old.spot (F.size connection.old.file)) }
    ensures telling { F.tells connection.old.file ↔ F.tells connection.new.file }
    ensures done { F.tells connection.old.file → let old = connection_of F.bytes connection.old in
        IfOk result (λ performed. done_with (connection_of F.bytes connection.new) cells.new performed
        ≡ input_done (ways_from old reached.place) cells.old None reached.condition) }
    ensures stopped { F.tells connection.old.file → let old = connection_of F.bytes connection.old in
        OnErr result (KeepsUpToChange (F.bytes connection.old.file)
        (input_done (ways_from old reached.place) cells.old None reached.condition).connection.bytes (F.bytes connection.new.file)) }

    // Told or not.
    ensures places { places_of cells.new ≡ places_of cells.old }
    ensures modes { connection.new.modes ≡ connection.old.modes }
    ensures name { connection.new.name ≡ connection.old.name }
    ensures later { F.count connection.old.file ≤ F.count connection.new.file }
    ensures failed { result ≡ Err Stop.Failed → Rose (F.count connection.old.file) (F.count connection.new.file) }
{
    if reached.condition == Condition::Fine {
        go_to(connection, reached.place)?;
        return Ok(Performed {
            count: None,
            condition: Condition::Fine,
        });
    }
    refuse(connection, cells, reached.condition)
}

/// Reads the items of a list-directed input (ISO/IEC 1539-1:2004, 9.5.3.5 and 10.9.1), from the position on or from byte `place` of
/// a stream on, counted from 0, and answers the condition: one of `fj_list::read_list`, where the records end with `EndOfFile`, or
/// with `RECORD_TOO_LONG` (15) before one that is too long. The first record is the rest of the one at hand, if there is one; an
/// open record that output left is ended first. The connection is then after the last record that was looked at. An error leaves
/// it, and it and the end of the file make the items undefined. After a `Stop` nothing is said of the values.
pub fn read_listed<F: FileStore>(
    alloc: Global,
    connection: &mut Connection<F>,
    place: Option<u64>,
    modes: EditModes,
    moved: &mut Moved,
) -> Result<Performed, Stop>
    requires access { same_access connection.old.modes.access Access.Direct ≡ false }
    requires place { IsPlace place (size_ended connection.old.spot (F.size connection.old.file)) }
    requires ordered { IsOrdered moved.old }
    ensures telling { F.tells connection.old.file ↔ F.tells connection.new.file }
    ensures done { F.tells connection.old.file → let old = connection_of F.bytes connection.old in let c = at_place place (ended old) in
        IfOk result (λ performed. done_with (connection_of F.bytes connection.new) moved.new.cells performed
        ≡ records_read old c moved.old.cells (list_input modes.comma (records_to_come c) (condition_to_come c) moved.old.cells moved.old.order)) }
    ensures stopped { F.tells connection.old.file → let old = connection_of F.bytes connection.old in let c = at_place place (ended old) in
        OnErr result (KeepsUpToChange (F.bytes connection.old.file)
        (records_read old c moved.old.cells (list_input modes.comma (records_to_come c) (condition_to_come c) moved.old.cells moved.old.order)).connection.bytes
        (F.bytes connection.new.file)) }

    // Told or not.
    ensures order { moved.new.order ≡ moved.old.order }
    ensures places { places_of moved.new.cells ≡ places_of moved.old.cells }
    ensures modes { connection.new.modes ≡ connection.old.modes }
    ensures name { connection.new.name ≡ connection.old.name }
    ensures later { F.count connection.old.file ≤ F.count connection.new.file }
    ensures failed { result ≡ Err Stop.Failed → Rose (F.count connection.old.file) (F.count connection.new.file) }
{
    let reached = list_from::<F, Brand>(alloc, connection, place, modes, moved)?;
    leave(connection, reached, &mut moved.cells)
}

/// Reads a namelist group (ISO/IEC 1539-1:2004, 9.5.3.6 and 10.10.1), from the position on or from byte `place` of a stream on, and
/// answers the condition: one of `fj_namelist::read_group`. The records, how they end, the connection and what errors leave are as
/// in list-directed input. After a `Stop` nothing is said of the values.
pub fn read_grouped<F: FileStore>(
    alloc: Global,
    connection: &mut Connection<F>,
    place: Option<u64>,
    group: &[u8],
    members: &[GroupMember],
    modes: EditModes,
    moved: &mut Moved,
) -> Result<Performed, Stop>
    requires access { same_access connection.old.modes.access Access.Direct ≡ false }
    requires place { IsPlace place (size_ended connection.old.spot (F.size connection.old.file)) }
    requires within { All (IsWithin (length moved.old.cells)) members.now }
    ensures telling { F.tells connection.old.file ↔ F.tells connection.new.file }
    ensures done { F.tells connection.old.file → let old = connection_of F.bytes connection.old in let c = at_place place (ended old) in
        IfOk result (λ performed. done_with (connection_of F.bytes connection.new) moved.new.cells performed
        ≡ records_read old c moved.old.cells (group_input modes.comma (records_to_come c) (condition_to_come c) group.now members.now moved.old.cells)) }
    ensures stopped { F.tells connection.old.file → let old = connection_of F.bytes connection.old in let c = at_place place (ended old) in
        OnErr result (KeepsUpToChange (F.bytes connection.old.file)
        (records_read old c moved.old.cells (group_input modes.comma (records_to_come c) (condition_to_come c) group.now members.now moved.old.cells)).connection.bytes
        (F.bytes connection.new.file)) }

    // Told or not.
    ensures order { moved.new.order ≡ moved.old.order }
    ensures places { places_of moved.new.cells ≡ places_of moved.old.cells }
    ensures modes { connection.new.modes ≡ connection.old.modes }
    ensures name { connection.new.name ≡ connection.old.name }
    ensures later { F.count connection.old.file ≤ F.count connection.new.file }
    ensures failed { result ≡ Err Stop.Failed → Rose (F.count connection.old.file) (F.count connection.new.file) }
{
    let reached = group_from::<F, Brand>(alloc, connection, place, group, members, modes, moved)?;
    leave(connection, reached, &mut moved.cells)
}
