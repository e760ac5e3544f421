// Formatted records put into a file.
ghost use Rattle.std.specs.Prelude.{◌≡◌, ◌+◌, ◌≤◌, length, min, max, IfOk, OnOk, OnErr, if◌then◌else◌, ◌↔◌};
ghost use Rattle.fj_outside.specs.Faults.{Rose};
ghost use Rattle.fj_span.specs.Change.{with_piece, KeepsUpToChange};

use fj_outside::{FileStore, Stop};
use fj_span::write_span;

/// Puts formatted records (ISO/IEC 1539-1:2004, 9.1.1), with their line feeds, at a place that is at most the length, and answers
/// the place after them. Places are counted in bytes from 0. Where `shorten` holds, they are the last of the file: the bytes after
/// them are cut.
pub fn append_records<F: FileStore>(
    file: &mut F,
    at: u64,
    bytes: &[u8],
    shorten: bool,
) -> Result<u64, Stop>
    requires place { at ≤ F.size file.old }
    requires limit { at + length bytes.now ≤ 268435456 }
    ensures behind { IfOk result (λ behind. behind ≡ at + length bytes.now) }
    ensures telling { F.tells file.old ↔ F.tells file.new }
    ensures bytes { F.tells file.old →
        OnOk result (F.bytes file.new ≡ with_piece (F.bytes file.old) at bytes.now shorten) }
    ensures stopped { F.tells file.old → OnErr result
        (KeepsUpToChange (F.bytes file.old) (with_piece (F.bytes file.old) at bytes.now shorten) (F.bytes file.new)) }

    // The length, told or not.
    ensures size { OnOk result (F.size file.new ≡
        (if shorten then at + length bytes.now else max (F.size file.old) (at + length bytes.now))) }
    ensures no_shorter { (if shorten then min (F.size file.old) (at + length bytes.now) else F.size file.old) ≤ F.size file.new }
    ensures no_longer { F.size file.new ≤ max (F.size file.old) (at + length bytes.now) }
    ensures later { F.count file.old ≤ F.count file.new }
    ensures failed { result ≡ Err Stop.Failed → Rose (F.count file.old) (F.count file.new) }
{
    write_span(file, at, bytes, shorten)?;
    Ok(at + bytes.len() as u64)
}
