// An unformatted record put into a file.
ghost use Rattle.std.specs.Prelude.{◌≡◌, ◌+◌, ◌≤◌, ◌++◌, length, take, max, IfOk, OnOk, OnErr, ◌↔◌};
ghost use Rattle.fj_outside.specs.Faults.{Rose};
ghost use Rattle.fj_span.specs.Change.{KeepsUpToChange};
ghost use Rattle.fj_unfrec.specs.Frames.{framed};

use fj_outside::{FileStore, Stop};
use fj_span::{GATHERED, put, write_span};

/// The bytes of a frame that is written at once.
const FRAME: usize = GATHERED + 8;

/// Puts an unformatted record (ISO/IEC 1539-1:2004, 9.1.2) as a frame, its length in four bytes before and after it, at a place
/// that is at most the length, as the last of the file: the bytes after it are cut. Places are counted in bytes from 0. Answers the
/// place after it.
pub fn append_frame<F: FileStore>(file: &mut F, at: u64, body: &[u8]) -> Result<u64, Stop>
    requires place { at ≤ F.size file.old }
    requires body { length body.now ≤ 16777216 }
    requires limit { at + length body.now + 8 ≤ 268435456 }
    ensures behind { IfOk result (λ behind. behind ≡ at + length body.now + 8) }
    ensures telling { F.tells file.old ↔ F.tells file.new }
    ensures bytes { F.tells file.old → OnOk result (F.bytes file.new ≡ take at (F.bytes file.old) ++ framed body.now) }
    ensures stopped { F.tells file.old → OnErr result
        (KeepsUpToChange (F.bytes file.old) (take at (F.bytes file.old) ++ framed body.now) (F.bytes file.new)) }

    // The length, told or not.
    ensures size { OnOk result (F.size file.new ≡ at + length body.now + 8) }
    ensures no_shorter { at ≤ F.size file.new }
    ensures no_longer { F.size file.new ≤ max (F.size file.old) (at + length body.now + 8) }
    ensures later { F.count file.old ≤ F.count file.new }
    ensures failed { result ≡ Err Stop.Failed → Rose (F.count file.old) (F.count file.new) }
{
    let within = at <= file.len();
    prove!(within);
    let behind = at + body.len() as u64 + 8;
    if body.len() <= GATHERED {
        let frame = gathered(body);
        write_span(file, at, &frame[..body.len() + 8], true)?;
        return Ok(behind);
    }
    let width = (body.len() as u32).to_le_bytes();
    write_span(file, at, &width, false)?;
    write_span(file, at + 4, body, false)?;
    write_span(file, behind - 4, &width, true)?;
    Ok(behind)
}

/// A frame in the front of a buffer.
fn gathered(body: &[u8]) -> [u8; FRAME]
    requires { length body.now ≤ 1024 }
    ensures { take (length body.now + 8) result ≡ framed body.now }
{
    let mut frame = [0u8; FRAME];
    let width = (body.len() as u32).to_le_bytes();
    put(&mut frame, 0, &width);
    put(&mut frame, 4, body);
    put(&mut frame, body.len() + 4, &width);
    frame
}
