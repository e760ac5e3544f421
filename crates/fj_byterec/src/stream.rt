// Stream access to files.
ghost use Rattle.std.specs.Prelude.{◌≡◌, ◌+◌, ◌≤◌, ◌↔◌, IsTrue, IfOk, OnOk, OnErr, Some, None, length, max, if◌then◌else◌};
ghost use Rattle.fj_outside.specs.Faults.{Rose};
ghost use Rattle.fj_outside.specs.Bytes.{written};
ghost use Rattle.fj_span.specs.Change.{KeepsUpToChange};
ghost use Rattle.fj_byterec.specs.Pieces.{bytes_from};

use fj_outside::{FileStore, Stop};
use fj_span::{read_span, write_span};
use fj_value::Text;

/// Reads so many bytes from a place on, counted from 0, which is at most the length (ISO/IEC 1539-1:2004, 9.2.2.3). False where
/// fewer are left. `into` gets the bytes, and after a `Stop` is of no account.
pub fn read_stream<F: FileStore>(
    file: &mut F,
    at: u64,
    want: u32,
    into: &mut Text,
) -> Result<bool, Stop>
    requires { at ≤ F.size file.old }
    ensures telling { F.tells file.old ↔ F.tells file.new }
    ensures same { F.tells file.old → F.bytes file.new ≡ F.bytes file.old }
    ensures bytes { F.tells file.old →
        IfOk result (λ there. (if there then Some into.new else None) ≡ bytes_from (F.bytes file.old) at want) }

    // Told or not.
    ensures enough { IfOk result (λ there. IsTrue there ↔ (at + want ≤ F.size file.old)) }
    ensures length { IfOk result (λ there. length into.new ≡ (if there then want else 0)) }
    ensures size { F.size file.new ≡ F.size file.old }
    ensures later { F.count file.old ≤ F.count file.new }
    ensures failed { result ≡ Err Stop.Failed → Rose (F.count file.old) (F.count file.new) }
{
    into.clear();
    let count = u64::from(want);
    if file.len() - at < count {
        return Ok(false);
    }
    read_span(file, at, count, into)?;
    Ok(true)
}

/// Puts bytes at a place, counted from 0, which is at most the length, over what stands there (ISO/IEC 1539-1:2004, 9.2.2.3), and
/// answers the place after them.
pub fn write_stream<F: FileStore>(file: &mut F, at: u64, piece: &[u8]) -> Result<u64, Stop>
    requires place { at ≤ F.size file.old }
    requires limit { at + length piece.now ≤ 268435456 }
    ensures behind { IfOk result (λ behind. behind ≡ at + length piece.now) }
    ensures telling { F.tells file.old ↔ F.tells file.new }
    ensures bytes { F.tells file.old → OnOk result (F.bytes file.new ≡ written (F.bytes file.old) at piece.now) }
    ensures stopped { F.tells file.old → OnErr result
        (KeepsUpToChange (F.bytes file.old) (written (F.bytes file.old) at piece.now) (F.bytes file.new)) }

    // The length, told or not.
    ensures size { OnOk result (F.size file.new ≡ max (F.size file.old) (at + length piece.now)) }
    ensures no_shorter { F.size file.old ≤ F.size file.new }
    ensures no_longer { F.size file.new ≤ max (F.size file.old) (at + length piece.now) }
    ensures later { F.count file.old ≤ F.count file.new }
    ensures failed { result ≡ Err Stop.Failed → Rose (F.count file.old) (F.count file.new) }
{
    write_span(file, at, piece, false)?;
    Ok(at + piece.len() as u64)
}
