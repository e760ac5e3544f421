// Direct access to files.
ghost use Rattle.std.specs.Prelude.{◌≡◌, ◌+◌, ◌*◌, ◌<◌, ◌≤◌, ◌↔◌, IsTrue, IfOk, OnOk, OnErr, Some, None, length, max, if◌then◌else◌};
ghost use Rattle.fj_outside.specs.Faults.{Rose};
ghost use Rattle.fj_span.specs.Change.{KeepsUpToChange};
ghost use Rattle.fj_byterec.specs.Pieces.{piece, with_record};

use crate::fill::write_copies;
use fj_outside::{FileStore, Stop};
use fj_span::{GATHERED, put, read_span, write_span};
use fj_value::Text;

/// Reads the record of a number, counted from 1, of `recl` bytes (ISO/IEC 1539-1:2004, 9.2.2.2). False where the file does not
/// reach its end. `into` gets the record, and after a `Stop` is of no account.
pub fn read_direct<F: FileStore>(
    file: &mut F,
    recl: u32,
    number: u64,
    into: &mut Text,
) -> Result<bool, Stop>
    requires recl { 0 < recl }
    requires number { 0 < number }
    ensures telling { F.tells file.old ↔ F.tells file.new }
    ensures same { F.tells file.old → F.bytes file.new ≡ F.bytes file.old }
    ensures record { F.tells file.old →
        IfOk result (λ there. (if there then Some into.new else None) ≡ piece (F.bytes file.old) recl number) }

    // Told or not.
    ensures there { IfOk result (λ there. IsTrue there ↔ (number * recl ≤ F.size file.old)) }
    ensures length { IfOk result (λ there. length into.new ≡ (if there then recl else 0)) }
    ensures size { F.size file.new ≡ F.size file.old }
    ensures later { F.count file.old ≤ F.count file.new }
    ensures failed { result ≡ Err Stop.Failed → Rose (F.count file.old) (F.count file.new) }
{
    into.clear();
    let len = file.len();
    let size = u64::from(recl);
    match number.checked_mul(size) {
        Some(end) => {
            if len < end {
                return Ok(false);
            }
            read_span(file, end - size, size, into)?;
            Ok(true)
        }
        None => Ok(false),
    }
}

/// Writes the record of a number, counted from 1, of `recl` bytes (ISO/IEC 1539-1:2004, 9.2.2.2). A shorter piece is filled up, and
/// so is the gap before the record where the file ends before it. The bytes after the record stay.
pub fn write_direct<F: FileStore>(
    file: &mut F,
    recl: u32,
    number: u64,
    piece: &[u8],
    fill: u8,
) -> Result<(), Stop>
    requires recl { 0 < recl }
    requires number { 0 < number }
    requires piece { length piece.now ≤ recl }
    requires limit { number * recl ≤ 268435456 }
    ensures telling { F.tells file.old ↔ F.tells file.new }
    ensures bytes { F.tells file.old → OnOk result (F.bytes file.new ≡ with_record (F.bytes file.old) recl number piece.now fill) }
    ensures stopped { F.tells file.old → OnErr result
        (KeepsUpToChange (F.bytes file.old) (with_record (F.bytes file.old) recl number piece.now fill) (F.bytes file.new)) }

    // The length, told or not.
    ensures size { OnOk result (F.size file.new ≡ max (F.size file.old) (number * recl)) }
    ensures no_shorter { F.size file.old ≤ F.size file.new }
    ensures no_longer { F.size file.new ≤ max (F.size file.old) (number * recl) }
    ensures later { F.count file.old ≤ F.count file.new }
    ensures failed { result ≡ Err Stop.Failed → Rose (F.count file.old) (F.count file.new) }
{
    let len = file.len();
    let size = u64::from(recl);
    let end = number * size;
    let start = end - size;
    if recl as usize <= GATHERED && start <= len {
        let mut record = [fill; GATHERED];
        put(&mut record, 0, piece);
        return write_span(file, start, &record[..recl as usize], false);
    }
    write_copies(file, start.min(len), start, fill)?;
    write_span(file, start, piece, false)?;
    write_copies(file, start + piece.len() as u64, end, fill)
}
