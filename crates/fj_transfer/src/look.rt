// A look at the next record of a connection, for list-directed and namelist input (ISO/IEC 1539-1:2004, 10.9.1 and 10.10.1).
ghost use Rattle.std.specs.Prelude.{◌≡◌, ◌+◌, ◌-◌, ◌<◌, ◌≤◌, ◌↔◌, None, unwrap_or, IfOk};
ghost use Rattle.fj_outside.specs.Faults.{Rose};
ghost use Rattle.fj_connect.specs.Linked.{connection_of};
ghost use Rattle.fj_connect.specs.Positions.{ended};
ghost use Rattle.fj_connect.specs.Spot.{size_ended};
ghost use Rattle.fj_transfer.specs.Ahead.{rest_read, IsNextRecord, GoesOn};

use fj_connect::{Connection, Spot, Within};
use fj_outside::{FileStore, Stop};
use fj_seqrec::RecordRead;

/// The answer for the rest of a record, by that for the record that would begin there.
fn rest_read(read: RecordRead, spot: Spot, size: u64, text: &[u8], recl: u32) -> RecordRead
    requires { spot.start ≤ spot.at }
    ensures { result ≡ rest_read recl (spot.at - spot.start) size text.now read }
{
    let next = match read {
        RecordRead::TooLong => return RecordRead::TooLong,
        RecordRead::End => size,
        RecordRead::Line { next } => next,
    };
    let begun = spot.at - spot.start;
    let limit = u64::from(recl);
    if begun > limit || text.len() as u64 > limit - begun {
        return RecordRead::TooLong;
    }
    RecordRead::Line { next }
}

/// Looks at the rest of the record at hand, of which some characters were read.
fn look_at_rest<F: FileStore>(connection: &mut Connection<F>) -> Result<RecordRead, Stop>
    requires within { connection.old.spot.within ≡ Within.Reading }
    ensures telling { F.tells connection.old.file ↔ F.tells connection.new.file }
    ensures same { F.tells connection.old.file → F.bytes connection.new.file ≡ F.bytes connection.old.file }
    ensures next { F.tells connection.old.file → IfOk result (λ read.
        IsNextRecord None (ended (connection_of F.bytes connection.old)) read connection.new.hand) }

    // Told or not.
    ensures goes_on { IfOk result (λ read. GoesOn None (size_ended connection.old.spot (F.size connection.old.file)) read) }
    ensures rest { connection.new ≡ record connection.old { file = connection.new.file; hand = connection.new.hand } }
    ensures size { F.size connection.new.file ≡ F.size connection.old.file }
    ensures later { F.count connection.old.file ≤ F.count connection.new.file }
    ensures failed { result ≡ Err Stop.Failed → Rose (F.count connection.old.file) (F.count connection.new.file) }
{
    let spot = connection.spot();
    let size = connection.file_len();
    let recl = connection.modes().recl;
    let read = connection.look_at_record(spot.at)?;
    Ok(rest_read(read, spot, size, connection.hand(), recl))
}

/// Looks at the record at the position, or at the rest of the one at hand.
fn look_here<F: FileStore>(connection: &mut Connection<F>) -> Result<RecordRead, Stop>
    ensures telling { F.tells connection.old.file ↔ F.tells connection.new.file }
    ensures same { F.tells connection.old.file → F.bytes connection.new.file ≡ F.bytes connection.old.file }
    ensures next { F.tells connection.old.file → IfOk result (λ read.
        IsNextRecord None (ended (connection_of F.bytes connection.old)) read connection.new.hand) }

    // Told or not.
    ensures goes_on { IfOk result (λ read. GoesOn None (size_ended connection.old.spot (F.size connection.old.file)) read) }
    ensures rest { connection.new ≡ record connection.old { file = connection.new.file; hand = connection.new.hand } }
    ensures size { F.size connection.new.file ≡ F.size connection.old.file }
    ensures later { F.count connection.old.file ≤ F.count connection.new.file }
    ensures failed { result ≡ Err Stop.Failed → Rose (F.count connection.old.file) (F.count connection.new.file) }
{
    let spot = connection.spot();
    match spot.within {
        Within::Reading => look_at_rest(connection),
        Within::Outside => connection.look_as_ended(spot.at),
        Within::Writing => connection.look_as_ended(spot.at + 1),
    }
}

/// Looks at the record at a place between records, or at the position, of the file as it is once its open record is ended. Its
/// characters are at hand from then on. The connection stays.
pub fn look_on<F: FileStore>(
    connection: &mut Connection<F>,
    place: Option<u64>,
) -> Result<RecordRead, Stop>
    requires { unwrap_or place 0 ≤ size_ended connection.old.spot (F.size connection.old.file) }
    ensures telling { F.tells connection.old.file ↔ F.tells connection.new.file }
    ensures same { F.tells connection.old.file → F.bytes connection.new.file ≡ F.bytes connection.old.file }
    ensures next { F.tells connection.old.file → IfOk result (λ read.
        IsNextRecord place (ended (connection_of F.bytes connection.old)) read connection.new.hand) }

    // Told or not.
    ensures goes_on { IfOk result (λ read. GoesOn place (size_ended connection.old.spot (F.size connection.old.file)) read) }
    ensures rest { connection.new ≡ record connection.old { file = connection.new.file; hand = connection.new.hand } }
    ensures size { F.size connection.new.file ≡ F.size connection.old.file }
    ensures later { F.count connection.old.file ≤ F.count connection.new.file }
    ensures failed { result ≡ Err Stop.Failed → Rose (F.count connection.old.file) (F.count connection.new.file) }
{
    match place {
        Some(at) => connection.look_as_ended(at),
        None => look_here(connection),
    }
}
