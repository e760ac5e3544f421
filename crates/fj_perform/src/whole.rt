// A READ or WRITE on a connection, whole (ISO/IEC 1539-1:2004, 9.5).
ghost use Rattle.std.specs.Prelude.{◌≡◌, ◌≤◌, ◌↔◌, true, IfOk, OnErr};
ghost use Rattle.fj_value.specs.declared.condition.Condition.TheVariants.{Fine};
ghost use Rattle.fj_outside.specs.Faults.{Rose};
ghost use Rattle.fj_span.specs.Change.{KeepsUpToChange};
ghost use Rattle.fj_connect.specs.Connection.{Connection as Connected};
ghost use Rattle.fj_connect.specs.Linked.{connection_of};
ghost use Rattle.fj_connect.specs.Positions.{ended};
ghost use Rattle.fj_connect.specs.Spot.{size_ended};
ghost use Rattle.fj_transfer.specs.Change.{changed};
ghost use Rattle.fj_transfer.specs.Printing.{control_of};
ghost use Rattle.fj_transfer.specs.Transfer.{unfit, begins_at, in_error, read_by, from_place, transfer};
ghost use Rattle.fj_perform.specs.Front.{started, follows, IsStart};
ghost use Rattle.fj_transfer.specs.Performing.{comes_to, LeavesStatement};

use crate::input::read_from;
use crate::output::write_from;
use crate::start::{Start, begins_at, unfit};
use fj_connect::Connection;
use fj_outside::{FileStore, Stop};
use fj_transfer::Transfer;
use fj_value::Condition;
use std::alloc::Global;

/// Leaves the values of a transfer that is in error before it begins.
fn refuse(job: &mut Transfer, condition: Condition) -> Condition
    ensures same { result ≡ condition }
    ensures done { (c : Connected) → comes_to c job.new condition ≡ in_error c job.old.spec.input job.old.moved.cells condition }
    ensures statement { LeavesStatement job.old job.new }
{
    job.count = None;
    if job.spec.input {
        job.moved.undefine();
    }
    condition
}

/// Carries out a READ from where it begins.
fn read_job<F: FileStore>(
    alloc: Global,
    connection: &mut Connection<F>,
    start: Start,
    job: &mut Transfer,
) -> Result<Condition, Stop>
    requires start { IsStart connection.old.modes.access (size_ended connection.old.spot (F.size connection.old.file)) start }
    requires input { job.old.spec.input ≡ true }
    requires fit { unfit connection.old.modes job.old.spec ≡ Fine }
    ensures telling { F.tells connection.old.file ↔ F.tells connection.new.file }
    ensures done { F.tells connection.old.file → let old = connection_of F.bytes connection.old in
        IfOk result (λ condition. comes_to (connection_of F.bytes connection.new) job.new condition
        ≡ read_by job.old.spec.layout (control_of job.old.spec.layout) old (started start (ended old)) job.old.spec (changed job.old.spec.edit connection.old.modes.edit) job.old.moved) }
    ensures stopped { F.tells connection.old.file → let old = connection_of F.bytes connection.old in
        OnErr result (KeepsUpToChange (F.bytes connection.old.file)
        (read_by job.old.spec.layout (control_of job.old.spec.layout) old (started start (ended old)) job.old.spec (changed job.old.spec.edit connection.old.modes.edit) job.old.moved).connection.bytes
        (F.bytes connection.new.file)) }

    // Told or not.
    ensures statement { LeavesStatement job.old job.new }
    ensures modes { connection.new.modes ≡ connection.old.modes }
    ensures name { connection.new.name ≡ connection.old.name }
    ensures later { F.count connection.old.file ≤ F.count connection.new.file }
    ensures failed { result ≡ Err Stop.Failed → Rose (F.count connection.old.file) (F.count connection.new.file) }
{
    let performed = read_from(alloc, connection, start, &job.spec, &mut job.moved)?;
    job.count = performed.count;
    Ok(performed.condition)
}

/// Carries out a transfer that goes together with its connection.
fn perform_fit<F: FileStore>(
    alloc: Global,
    connection: &mut Connection<F>,
    job: &mut Transfer,
) -> Result<Condition, Stop>
    requires fit { unfit connection.old.modes job.old.spec ≡ Fine }
    ensures telling { F.tells connection.old.file ↔ F.tells connection.new.file }
    ensures done { F.tells connection.old.file → let old = connection_of F.bytes connection.old in IfOk result (λ condition. comes_to (connection_of F.bytes connection.new) job.new condition
        ≡ from_place (control_of job.old.spec.layout) old job.old.spec job.old.moved (begins_at job.old.spec (follows job.old.spec.input old))) }
    ensures stopped { F.tells connection.old.file → let old = connection_of F.bytes connection.old in OnErr result (KeepsUpToChange (F.bytes connection.old.file)
        (from_place (control_of job.old.spec.layout) old job.old.spec job.old.moved (begins_at job.old.spec (follows job.old.spec.input old))).connection.bytes (F.bytes connection.new.file)) }

    // Told or not.
    ensures statement { LeavesStatement job.old job.new }
    ensures modes { connection.new.modes ≡ connection.old.modes }
    ensures name { connection.new.name ≡ connection.old.name }
    ensures later { F.count connection.old.file ≤ F.count connection.new.file }
    ensures failed { result ≡ Err Stop.Failed → Rose (F.count connection.old.file) (F.count connection.new.file) }
{
    let start = match begins_at(connection, &job.spec) {
        Ok(start) => start,
        Err(condition) => return Ok(refuse(job, condition)),
    };
    if job.spec.input {
        return read_job(alloc, connection, start, job);
    }
    let condition = write_from(alloc, connection, start, job)?;
    job.count = None;
    Ok(condition)
}

/// Carries out a READ or WRITE (ISO/IEC 1539-1:2004, 9.5). The condition, the values, what SIZE= gets and the connection are those
/// of the transfer: `UNFIT` (16) where it does not go together with the connection, then `FORBIDDEN_ACTION` (10), `AFTER_ENDFILE`
/// (20), `NO_SUCH_PLACE` (21), then what comes of its layout (`read_lines`, `write_lines` and the others of `fj_transfer`). After a
/// `Stop` nothing is said of the values, of what SIZE= gets and of the position, and the file's bytes are as before up to the first
/// that was to change.
pub fn perform<F: FileStore>(
    alloc: Global,
    connection: &mut Connection<F>,
    job: &mut Transfer,
) -> Result<Condition, Stop>
    ensures telling { F.tells connection.old.file ↔ F.tells connection.new.file }
    ensures done { F.tells connection.old.file → IfOk result (λ condition. comes_to (connection_of F.bytes connection.new) job.new condition
        ≡ transfer (connection_of F.bytes connection.old) job.old.spec job.old.moved) }
    ensures stopped { F.tells connection.old.file → OnErr result (KeepsUpToChange (F.bytes connection.old.file)
        (transfer (connection_of F.bytes connection.old) job.old.spec job.old.moved).connection.bytes (F.bytes connection.new.file)) }

    // Told or not.
    ensures statement { LeavesStatement job.old job.new }
    ensures modes { connection.new.modes ≡ connection.old.modes }
    ensures name { connection.new.name ≡ connection.old.name }
    ensures later { F.count connection.old.file ≤ F.count connection.new.file }
    ensures failed { result ≡ Err Stop.Failed → Rose (F.count connection.old.file) (F.count connection.new.file) }
{
    let condition = unfit(connection.modes(), &job.spec);
    match condition {
        Condition::Fine => perform_fit(alloc, connection, job),
        _ => Ok(refuse(job, condition)),
    }
}
