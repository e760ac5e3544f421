// A run of bytes put into a file.
ghost use Rattle.std.specs.Prelude.{◌≡◌, ◌+◌, ◌<◌, ◌≤◌, ◌^◌, length, min, max, false, IsOk, OnOk, OnErr, if◌then◌else◌, ◌↔◌};
ghost use Rattle.fj_outside.specs.Faults.{Rose};
ghost use Rattle.fj_outside.specs.Bytes.{written, IsPartlyWritten};
ghost use Rattle.fj_span.specs.Change.{with_piece, KeepsUpToChange};

use fj_outside::{FileStore, Stop};

/// What is written in parts is gathered up to so many bytes, and written at once.
pub const GATHERED: usize = 1024;

/// Puts a piece at a place that is at most the length, over what stands there. Where `shorten` holds, the bytes behind
/// the piece are cut. An empty piece is not written.
#[inline(always)]
pub fn write_span<F: FileStore>(
    file: &mut F,
    at: u64,
    piece: &[u8],
    shorten: bool,
) -> Result<(), Stop>
    requires place { at ≤ F.size file.old }
    requires fits { at + length piece.now < 2 ^ 64 }
    ensures none { length piece.now ≡ 0 → shorten ≡ false → IsOk result × (file.new ≡ file.old) }
    ensures telling { F.tells file.old ↔ F.tells file.new }
    ensures bytes { F.tells file.old →
        OnOk result (F.bytes file.new ≡ with_piece (F.bytes file.old) at piece.now shorten) }
    ensures stopped { F.tells file.old →
        OnErr result (KeepsUpToChange (F.bytes file.old) (with_piece (F.bytes file.old) at piece.now shorten) (F.bytes file.new)) }

    // The length, told or not.
    ensures size { OnOk result (F.size file.new ≡
        (if shorten then at + length piece.now else max (F.size file.old) (at + length piece.now))) }
    ensures no_shorter { (if shorten then min (F.size file.old) (at + length piece.now) else F.size file.old) ≤ F.size file.new }
    ensures no_longer { F.size file.new ≤ max (F.size file.old) (at + length piece.now) }
    ensures later { F.count file.old ≤ F.count file.new }
    ensures failed { result ≡ Err Stop.Failed → Rose (F.count file.old) (F.count file.new) }
{
    let behind = at + piece.len() as u64;
    let len = file.len();
    write_piece(file, at, piece)?;
    if shorten && behind < len {
        file.cut(behind)?;
    }
    Ok(())
}

/// Puts a piece at a place that is at most the length, over what stands there. An empty piece is not written.
#[inline(always)]
fn write_piece<F: FileStore>(file: &mut F, at: u64, piece: &[u8]) -> Result<(), Stop>
    requires { at ≤ F.size file.old }
    ensures none { length piece.now ≡ 0 → IsOk result × (file.new ≡ file.old) }
    ensures telling { F.tells file.old ↔ F.tells file.new }
    ensures bytes { F.tells file.old → OnOk result (F.bytes file.new ≡ written (F.bytes file.old) at piece.now) }
    ensures err { F.tells file.old → OnErr result (IsPartlyWritten (F.bytes file.old) at piece.now (F.bytes file.new)) }
    ensures size { OnOk result (F.size file.new ≡ max (F.size file.old) (at + length piece.now)) }
    ensures no_shorter { F.size file.old ≤ F.size file.new }
    ensures no_longer { F.size file.new ≤ max (F.size file.old) (at + length piece.now) }
    ensures later { F.count file.old ≤ F.count file.new }
    ensures failed { result ≡ Err Stop.Failed → Rose (F.count file.old) (F.count file.new) }
{
    if piece.is_empty() {
        return Ok(());
    }
    file.write_at(at, piece)
}
