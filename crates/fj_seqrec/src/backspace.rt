// The formatted record before a place.
ghost use Rattle.std.specs.Prelude.{◌≡◌, ◌+◌, ◌-◌, ◌<◌, ◌≤◌, length, take, IfOk, OnErr, ◌↔◌};
ghost use Rattle.fj_outside.specs.Faults.{Rose};
ghost use Rattle.fj_seqrec.specs.Lines.{last_line_start};

use fj_outside::{Failed, FileStore, WINDOW};
use memchr::memrchr;

/// Answers where the formatted record begins that ends at a place, or 0 where none does (ISO/IEC 1539-1:2004, 9.7.1).
/// The place is at most the file's length; where it lies inside a record, the record's bytes before it count as one.
pub fn backspace_line<F: FileStore>(file: &mut F, at: u64) -> Result<u64, Failed>
    requires { at ≤ F.size file.old }
    ensures telling { F.tells file.old ↔ F.tells file.new }
    ensures same { F.tells file.old → F.bytes file.new ≡ F.bytes file.old }
    ensures start { F.tells file.old → IfOk result (λ start. start ≡ last_line_start (take at (F.bytes file.old))) }

    // Told or not.
    ensures before { IfOk result (λ start. (start ≤ at) × (0 < at → start < at)) }
    ensures size { F.size file.new ≡ F.size file.old }
    ensures later { F.count file.old ≤ F.count file.new }
    ensures failed { OnErr result (Rose (F.count file.old) (F.count file.new)) }
{
    let within = at <= file.len();
    prove!(within);
    let mut piece = [0u8; WINDOW];
    let mut end = at.saturating_sub(1);
    'looking: while 0 < end {
        let from = (end - 1) / WINDOW as u64 * WINDOW as u64;
        let width = (end - from) as usize;
        let part = &mut piece[..width];
        file.read_at(from, part)?;
        match memrchr(b'\n', part) {
            Some(place) => return Ok(from + place as u64 + 1),
            None => end = from,
        }
    }
    Ok(0)
}
