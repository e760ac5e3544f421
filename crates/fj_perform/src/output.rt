// A WRITE from the place where it begins (ISO/IEC 1539-1:2004, 9.5.3), by its layout and the access.
ghost use Rattle.std.specs.Prelude.{◌≡◌, ◌≤◌, ◌↔◌, false, is_some, IfOk, OnErr};
ghost use Rattle.fj_value.specs.declared.condition.Condition.TheVariants.{Fine};
ghost use Rattle.fj_outside.specs.Faults.{Rose};
ghost use Rattle.fj_span.specs.Change.{KeepsUpToChange};
ghost use Rattle.fj_modes.specs.Words.{same_access};
ghost use Rattle.fj_moved.specs.declared.moved.Moved.{Moved as MovedValues};
ghost use Rattle.fj_moved.specs.Moved.{IsOrdered};
ghost use Rattle.fj_connect.specs.Linked.{connection_of};
ghost use Rattle.fj_transfer.specs.Change.{changed};
ghost use Rattle.fj_transfer.specs.Printing.{control_of, IsRecords};
ghost use Rattle.fj_transfer.specs.Transfer.{told_with, body_of, unfit, unformatted_written, written_by};
ghost use Rattle.fj_perform.specs.Front.{started, IsStart, IsNamed};

use crate::start::Start;
use fj_connect::Connection;
use fj_modes::Access;
use fj_moved::Load;
use fj_outside::{FileStore, Stop};
use fj_transfer::{
    Layout, Transfer, body_of, frame_of, write_direct, write_lines, write_numbered,
    write_sequential, write_stream,
};
use fj_value::{Condition, EditModes};
use std::alloc::Global;

/// Writes the values as they are stored at the position.
fn write_here<F: FileStore>(
    alloc: Global,
    connection: &mut Connection<F>,
    moved: &Load,
) -> Result<Condition, Stop>
    requires access { same_access connection.old.modes.access Access.Direct ≡ false }
    requires ordered { IsOrdered moved.now }
    ensures telling { F.tells connection.old.file ↔ F.tells connection.new.file }
    ensures written { F.tells connection.old.file → let old = connection_of F.bytes connection.old in
        IfOk result (λ condition. told_with (connection_of F.bytes connection.new) moved.now.cells condition
        ≡ unformatted_written connection.old.modes.access old old moved.now) }
    ensures stopped { F.tells connection.old.file → let old = connection_of F.bytes connection.old in
        OnErr result (KeepsUpToChange (F.bytes connection.old.file)
        (unformatted_written connection.old.modes.access old old moved.now).connection.bytes (F.bytes connection.new.file)) }

    // Told or not.
    ensures modes { connection.new.modes ≡ connection.old.modes }
    ensures name { connection.new.name ≡ connection.old.name }
    ensures later { F.count connection.old.file ≤ F.count connection.new.file }
    ensures failed { result ≡ Err Stop.Failed → Rose (F.count connection.old.file) (F.count connection.new.file) }
{
    match connection.modes().access {
        Access::Stream => {
            let body = body_of(alloc, moved)?;
            let size = connection.file_len();
            let at = connection.spot().at;
            prove!(at <= size);
            write_stream(connection, at, body.bytes())
        }
        Access::Sequential => {
            let frame = frame_of(alloc, moved)?;
            write_sequential(connection, frame.bytes())
        }
        Access::Direct => unreachable!(),
    }
}

/// Writes the values as they are stored.
fn write_unformatted<F: FileStore>(
    alloc: Global,
    connection: &mut Connection<F>,
    start: Start,
    moved: &Load,
) -> Result<Condition, Stop>
    requires start { IsStart connection.old.modes.access (F.size connection.old.file) start }
    requires ordered { IsOrdered moved.now }
    ensures telling { F.tells connection.old.file ↔ F.tells connection.new.file }
    ensures written { F.tells connection.old.file → let old = connection_of F.bytes connection.old in
        IfOk result (λ condition. told_with (connection_of F.bytes connection.new) moved.now.cells condition
        ≡ unformatted_written connection.old.modes.access old (started start old) moved.now) }
    ensures stopped { F.tells connection.old.file → let old = connection_of F.bytes connection.old in
        OnErr result (KeepsUpToChange (F.bytes connection.old.file)
        (unformatted_written connection.old.modes.access old (started start old) moved.now).connection.bytes (F.bytes connection.new.file)) }

    // Told or not.
    ensures modes { connection.new.modes ≡ connection.old.modes }
    ensures name { connection.new.name ≡ connection.old.name }
    ensures later { F.count connection.old.file ≤ F.count connection.new.file }
    ensures failed { result ≡ Err Stop.Failed → Rose (F.count connection.old.file) (F.count connection.new.file) }
{
    match start {
        Start::Here => write_here(alloc, connection, moved),
        Start::Byte(place) => {
            let body = body_of(alloc, moved)?;
            write_stream(connection, place, body.bytes())
        }
        Start::Record(number) => {
            let body = body_of(alloc, moved)?;
            write_direct(connection, number, body)
        }
    }
}

/// Writes the records of a formatted output.
fn write_formatted<F: FileStore>(
    alloc: Global,
    connection: &mut Connection<F>,
    start: Start,
    modes: EditModes,
    job: &Transfer,
) -> Result<Condition, Stop>
    requires start { IsStart connection.old.modes.access (F.size connection.old.file) start }
    requires named { IsNamed start (is_some job.now.spec.pos) }
    requires records { IsRecords job.now.spec.layout }
    requires fit { unfit connection.old.modes job.now.spec ≡ Fine }
    ensures telling { F.tells connection.old.file ↔ F.tells connection.new.file }
    ensures written { F.tells connection.old.file → let old = connection_of F.bytes connection.old in
        IfOk result (λ condition. told_with (connection_of F.bytes connection.new) job.now.moved.cells condition
        ≡ written_by job.now.spec.layout (control_of job.now.spec.layout) old (started start old) job.now.spec modes job.now.moved) }
    ensures stopped { F.tells connection.old.file → let old = connection_of F.bytes connection.old in
        OnErr result (KeepsUpToChange (F.bytes connection.old.file)
        (written_by job.now.spec.layout (control_of job.now.spec.layout) old (started start old) job.now.spec modes job.now.moved).connection.bytes
        (F.bytes connection.new.file)) }

    // Told or not.
    ensures modes { connection.new.modes ≡ connection.old.modes }
    ensures name { connection.new.name ≡ connection.old.name }
    ensures later { F.count connection.old.file ≤ F.count connection.new.file }
    ensures failed { result ≡ Err Stop.Failed → Rose (F.count connection.old.file) (F.count connection.new.file) }
{
    let layout = &job.spec.layout;
    let advance = job.spec.advance;
    match start {
        Start::Here => write_lines(alloc, connection, None, layout, advance, modes, &job.moved),
        Start::Byte(place) => write_lines(
            alloc,
            connection,
            Some(place),
            layout,
            advance,
            modes,
            &job.moved,
        ),
        Start::Record(number) => match layout {
            Layout::Explicit(format) => {
                write_numbered(alloc, connection, number, format, modes, &job.moved)
            }
            Layout::Unformatted | Layout::Listed | Layout::Group(..) => unreachable!(),
        },
    }
}

/// Carries out a WRITE from where it begins.
pub fn write_from<F: FileStore>(
    alloc: Global,
    connection: &mut Connection<F>,
    start: Start,
    job: &Transfer,
) -> Result<Condition, Stop>
    requires start { IsStart connection.old.modes.access (F.size connection.old.file) start }
    requires named { IsNamed start (is_some job.now.spec.pos) }
    requires fit { unfit connection.old.modes job.now.spec ≡ Fine }
    ensures telling { F.tells connection.old.file ↔ F.tells connection.new.file }
    ensures written { F.tells connection.old.file → let old = connection_of F.bytes connection.old in
        IfOk result (λ condition. told_with (connection_of F.bytes connection.new) job.now.moved.cells condition
        ≡ written_by job.now.spec.layout (control_of job.now.spec.layout) old (started start old) job.now.spec (changed job.now.spec.edit connection.old.modes.edit) job.now.moved) }
    ensures stopped { F.tells connection.old.file → let old = connection_of F.bytes connection.old in
        OnErr result (KeepsUpToChange (F.bytes connection.old.file)
        (written_by job.now.spec.layout (control_of job.now.spec.layout) old (started start old) job.now.spec (changed job.now.spec.edit connection.old.modes.edit) job.now.moved).connection.bytes
        (F.bytes connection.new.file)) }

    // Told or not.
    ensures modes { connection.new.modes ≡ connection.old.modes }
    ensures name { connection.new.name ≡ connection.old.name }
    ensures later { F.count connection.old.file ≤ F.count connection.new.file }
    ensures failed { result ≡ Err Stop.Failed → Rose (F.count connection.old.file) (F.count connection.new.file) }
{
    let modes = job.spec.edit.change(connection.modes().edit);
    match &job.spec.layout {
        Layout::Unformatted => write_unformatted(alloc, connection, start, &job.moved),
        Layout::Explicit(_) | Layout::Listed | Layout::Group(..) => {
            write_formatted(alloc, connection, start, modes, job)
        }
    }
}
