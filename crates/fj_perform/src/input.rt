// A READ from the place where it begins (ISO/IEC 1539-1:2004, 9.5.3), by its layout and the access.
ghost use Rattle.std.specs.Prelude.{◌≡◌, ◌<◌, ◌≤◌, ◌^◌, ◌↔◌, true, false, length, IfOk, OnErr, All, None};
ghost use Rattle.fj_value.specs.declared.condition.Condition.TheVariants.{Fine};
ghost use Rattle.fj_outside.specs.Faults.{Rose};
ghost use Rattle.fj_span.specs.Change.{KeepsUpToChange};
ghost use Rattle.fj_modes.specs.Words.{same_access};
ghost use Rattle.fj_moved.specs.Cells.{places_of};
ghost use Rattle.fj_moved.specs.Moved.{IsOrdered};
ghost use Rattle.fj_namelist.specs.GroupText.{IsWithin};
ghost use Rattle.fj_control.specs.Steps.{steps};
ghost use Rattle.fj_connect.specs.Linked.{connection_of};
ghost use Rattle.fj_connect.specs.Positions.{ended};
ghost use Rattle.fj_connect.specs.Spot.{size_ended};
ghost use Rattle.fj_transfer.specs.AtHand.{first_record};
ghost use Rattle.fj_transfer.specs.Change.{changed};
ghost use Rattle.fj_transfer.specs.Moving.{members_of};
ghost use Rattle.fj_transfer.specs.Printing.{control_of};
ghost use Rattle.fj_transfer.specs.Reader.{done_with};
ghost use Rattle.fj_transfer.specs.Transfer.{told_with, unfit, explicit_read, unformatted_read, read_by};
ghost use Rattle.fj_perform.specs.Front.{started, place_of, IsStart};

use crate::start::{Start, is_open};
use fj_connect::Connection;
use fj_format::Format;
use fj_modes::Access;
use fj_moved::{Load, Moved};
use fj_outside::{FileStore, Stop};
use fj_transfer::{
    Layout, Performed, TransferSpec, read_direct, read_grouped, read_lines, read_listed,
    read_numbered, read_sequential, read_stream,
};
use fj_value::{Condition, EditModes};
use std::alloc::Global;

/// Reads the values of items from bytes at the position.
fn read_here<F: FileStore>(
    alloc: Global,
    connection: &mut Connection<F>,
    moved: &mut Moved,
) -> Result<Condition, Stop>
    requires access { same_access connection.old.modes.access Access.Direct ≡ false }
    requires ordered { IsOrdered moved.old }
    ensures telling { F.tells connection.old.file ↔ F.tells connection.new.file }
    ensures read { F.tells connection.old.file → let old = connection_of F.bytes connection.old in
        IfOk result (λ condition. told_with (connection_of F.bytes connection.new) moved.new.cells condition ≡ unformatted_read connection.old.modes.access old old moved.old) }
    ensures same { F.tells connection.old.file → F.bytes connection.new.file ≡ F.bytes connection.old.file }

    // Told or not.
    ensures order { moved.new.order ≡ moved.old.order }
    ensures places { places_of moved.new.cells ≡ places_of moved.old.cells }
    ensures modes { connection.new.modes ≡ connection.old.modes }
    ensures name { connection.new.name ≡ connection.old.name }
    ensures later { F.count connection.old.file ≤ F.count connection.new.file }
    ensures failed { result ≡ Err Stop.Failed → Rose (F.count connection.old.file) (F.count connection.new.file) }
{
    match connection.modes().access {
        Access::Stream => {
            let size = connection.file_len();
            let at = connection.spot().at;
            prove!(at <= size);
            read_stream(alloc, connection, at, moved)
        }
        Access::Sequential => read_sequential(alloc, connection, moved),
        Access::Direct => unreachable!(),
    }
}

/// Reads the values of items as they are stored.
fn read_unformatted<F: FileStore>(
    alloc: Global,
    connection: &mut Connection<F>,
    start: Start,
    moved: &mut Moved,
) -> Result<Condition, Stop>
    requires start { IsStart connection.old.modes.access (F.size connection.old.file) start }
    requires ordered { IsOrdered moved.old }
    ensures telling { F.tells connection.old.file ↔ F.tells connection.new.file }
    ensures read { F.tells connection.old.file → let old = connection_of F.bytes connection.old in
        IfOk result (λ condition. told_with (connection_of F.bytes connection.new) moved.new.cells condition
        ≡ unformatted_read connection.old.modes.access old (started start old) moved.old) }
    ensures same { F.tells connection.old.file → F.bytes connection.new.file ≡ F.bytes connection.old.file }

    // Told or not.
    ensures order { moved.new.order ≡ moved.old.order }
    ensures places { places_of moved.new.cells ≡ places_of moved.old.cells }
    ensures modes { connection.new.modes ≡ connection.old.modes }
    ensures name { connection.new.name ≡ connection.old.name }
    ensures later { F.count connection.old.file ≤ F.count connection.new.file }
    ensures failed { result ≡ Err Stop.Failed → Rose (F.count connection.old.file) (F.count connection.new.file) }
{
    match start {
        Start::Here => read_here(alloc, connection, moved),
        Start::Byte(place) => read_stream(alloc, connection, place, moved),
        Start::Record(number) => read_direct(alloc, connection, number, moved),
    }
}

/// Reads items under an explicit format.
fn read_explicit<F: FileStore>(
    alloc: Global,
    connection: &mut Connection<F>,
    start: Start,
    format: &Format,
    advance: bool,
    modes: EditModes,
    moved: &mut Moved,
) -> Result<Performed, Stop>
    requires start { IsStart connection.old.modes.access (size_ended connection.old.spot (F.size connection.old.file)) start }
    requires advance { connection.old.modes.access ≡ Access.Direct → advance ≡ true }
    requires ordered { IsOrdered moved.old }
    requires few { length moved.old.order < 2 ^ 32 }
    ensures telling { F.tells connection.old.file ↔ F.tells connection.new.file }
    ensures done { F.tells connection.old.file → let old = connection_of F.bytes connection.old in let c = started start (ended old) in
        IfOk result (λ performed. done_with (connection_of F.bytes connection.new) moved.new.cells performed
        ≡ explicit_read old c advance modes (steps format.now) moved.old (first_record c)) }
    ensures stopped { F.tells connection.old.file → let old = connection_of F.bytes connection.old in let c = started start (ended old) in
        OnErr result (KeepsUpToChange (F.bytes connection.old.file)
        (explicit_read old c advance modes (steps format.now) moved.old (first_record c)).connection.bytes (F.bytes connection.new.file)) }

    // Told or not.
    ensures order { moved.new.order ≡ moved.old.order }
    ensures places { places_of moved.new.cells ≡ places_of moved.old.cells }
    ensures modes { connection.new.modes ≡ connection.old.modes }
    ensures name { connection.new.name ≡ connection.old.name }
    ensures later { F.count connection.old.file ≤ F.count connection.new.file }
    ensures failed { result ≡ Err Stop.Failed → Rose (F.count connection.old.file) (F.count connection.new.file) }
{
    match start {
        Start::Here => read_lines(alloc, connection, None, format, advance, modes, moved),
        Start::Byte(place) => read_lines(
            alloc,
            connection,
            Some(place),
            format,
            advance,
            modes,
            moved,
        ),
        Start::Record(number) => {
            let open = is_open(connection);
            prove!(!open);
            read_numbered(alloc, connection, number, format, modes, moved)
        }
    }
}

/// The byte that a transfer begins behind, where it does not begin at the position.
fn place_of(start: Start) -> Option<u64>
    ensures { result ≡ place_of start }
{
    match start {
        Start::Byte(place) => Some(place),
        Start::Here | Start::Record(_) => None,
    }
}

/// Reads into cells from where a READ begins.
fn read_cells<F: FileStore>(
    alloc: Global,
    connection: &mut Connection<F>,
    start: Start,
    spec: &TransferSpec,
    moved: &mut Moved,
) -> Result<Performed, Stop>
    requires start { IsStart connection.old.modes.access (size_ended connection.old.spot (F.size connection.old.file)) start }
    requires fit { unfit connection.old.modes spec.now ≡ Fine }
    requires ordered { IsOrdered moved.old }
    requires few { length moved.old.order < 2 ^ 32 }
    requires grouped { All (IsWithin (length moved.old.cells)) (members_of spec.now.layout) }
    ensures telling { F.tells connection.old.file ↔ F.tells connection.new.file }
    ensures done { F.tells connection.old.file → let old = connection_of F.bytes connection.old in
        IfOk result (λ performed. done_with (connection_of F.bytes connection.new) moved.new.cells performed
        ≡ read_by spec.now.layout (control_of spec.now.layout) old (started start (ended old)) spec.now (changed spec.now.edit connection.old.modes.edit) moved.old) }
    ensures stopped { F.tells connection.old.file → let old = connection_of F.bytes connection.old in
        OnErr result (KeepsUpToChange (F.bytes connection.old.file)
        (read_by spec.now.layout (control_of spec.now.layout) old (started start (ended old)) spec.now (changed spec.now.edit connection.old.modes.edit) moved.old).connection.bytes
        (F.bytes connection.new.file)) }

    // Told or not.
    ensures order { moved.new.order ≡ moved.old.order }
    ensures places { places_of moved.new.cells ≡ places_of moved.old.cells }
    ensures modes { connection.new.modes ≡ connection.old.modes }
    ensures name { connection.new.name ≡ connection.old.name }
    ensures later { F.count connection.old.file ≤ F.count connection.new.file }
    ensures failed { result ≡ Err Stop.Failed → Rose (F.count connection.old.file) (F.count connection.new.file) }
{
    let modes = spec.edit.change(connection.modes().edit);
    match &spec.layout {
        Layout::Unformatted => {
            let open = is_open(connection);
            prove!(!open);
            let condition = read_unformatted(alloc, connection, start, moved)?;
            Ok(Performed {
                count: None,
                condition,
            })
        }
        Layout::Explicit(format) => read_explicit(
            alloc,
            connection,
            start,
            format,
            spec.advance,
            modes,
            moved,
        ),
        Layout::Listed => read_listed(alloc, connection, place_of(start), modes, moved),
        Layout::Group(name, members) => read_grouped(
            alloc,
            connection,
            place_of(start),
            name.bytes(),
            members.as_slice(),
            modes,
            moved,
        ),
    }
}

/// Carries out a READ from where it begins.
pub fn read_from<F: FileStore>(
    alloc: Global,
    connection: &mut Connection<F>,
    start: Start,
    spec: &TransferSpec,
    moved: &mut Load,
) -> Result<Performed, Stop>
    requires start { IsStart connection.old.modes.access (size_ended connection.old.spot (F.size connection.old.file)) start }
    requires fit { unfit connection.old.modes spec.now ≡ Fine }
    requires ordered { IsOrdered moved.old }
    requires few { length moved.old.order < 2 ^ 32 }
    requires grouped { All (IsWithin (length moved.old.cells)) (members_of spec.now.layout) }
    ensures telling { F.tells connection.old.file ↔ F.tells connection.new.file }
    ensures done { F.tells connection.old.file → let old = connection_of F.bytes connection.old in
        IfOk result (λ performed. done_with (connection_of F.bytes connection.new) moved.new.cells performed
        ≡ read_by spec.now.layout (control_of spec.now.layout) old (started start (ended old)) spec.now (changed spec.now.edit connection.old.modes.edit) moved.old) }
    ensures stopped { F.tells connection.old.file → let old = connection_of F.bytes connection.old in
        OnErr result (KeepsUpToChange (F.bytes connection.old.file)
        (read_by spec.now.layout (control_of spec.now.layout) old (started start (ended old)) spec.now (changed spec.now.edit connection.old.modes.edit) moved.old).connection.bytes
        (F.bytes connection.new.file)) }

    // Told or not.
    ensures order { moved.new.order ≡ moved.old.order }
    ensures places { places_of moved.new.cells ≡ places_of moved.old.cells }
    ensures modes { connection.new.modes ≡ connection.old.modes }
    ensures name { connection.new.name ≡ connection.old.name }
    ensures later { F.count connection.old.file ≤ F.count connection.new.file }
    ensures failed { result ≡ Err Stop.Failed → Rose (F.count connection.old.file) (F.count connection.new.file) }
{
    let mut cells = moved.take(alloc)?;
    let performed = read_cells(alloc, connection, start, spec, &mut cells);
    *moved = Load::of_cells(cells);
    performed
}
