// An unformatted record read from a file.
ghost use Rattle.std.specs.Prelude.{◌≡◌, ◌≤◌, IfOk, ◌↔◌};
ghost use Rattle.fj_outside.specs.Faults.{Rose};
ghost use Rattle.fj_unfrec.specs.Reading.{frame_at, HoldsFrame, IsWithin};

use crate::length::read_length;
use fj_outside::{FileStore, Stop};
use fj_span::read_span;
use fj_value::Text;

/// What a read of an unformatted record found.
#[derive(Clone, Copy, Debug, PartialEq, Eq)]
pub enum FrameRead {
    /// A record; the next one begins at this place.
    Frame { next: u64 },
    /// The end of the file.
    End,
    /// Bytes that do not begin with a frame.
    Broken,
    /// A whole frame of more bytes than the limit.
    TooLong,
}

/// Reads the frame that begins at a place (ISO/IEC 1539-1:2004, 9.1.2), counted in bytes from 0, which is at most the file's
/// length. `limit` counts bytes. `into` gets its body, and after a `Stop` is of no account.
pub fn read_frame<F: FileStore>(
    file: &mut F,
    at: u64,
    limit: u32,
    into: &mut Text,
) -> Result<FrameRead, Stop>
    requires { at ≤ F.size file.old }
    ensures telling { F.tells file.old ↔ F.tells file.new }
    ensures same { F.tells file.old → F.bytes file.new ≡ F.bytes file.old }
    ensures answer { F.tells file.old → IfOk result (λ read. read ≡ frame_at (F.bytes file.old) at limit) }
    ensures text { F.tells file.old → IfOk result (λ read. HoldsFrame (F.bytes file.old) at read into.new) }

    // Told or not.
    ensures within { IfOk result (λ read. IsWithin (F.size file.old) at limit read into.new) }
    ensures size { F.size file.new ≡ F.size file.old }
    ensures later { F.count file.old ≤ F.count file.new }
    ensures failed { result ≡ Err Stop.Failed → Rose (F.count file.old) (F.count file.new) }
{
    into.clear();
    let left = file.len() - at;
    if left == 0 {
        return Ok(FrameRead::End);
    }
    if left < 8 {
        return Ok(FrameRead::Broken);
    }
    let width = read_length(file, at)?;
    let long = u64::from(width);
    if left - 8 < long {
        return Ok(FrameRead::Broken);
    }
    let again = read_length(file, at + 4 + long)?;
    if again != width {
        return Ok(FrameRead::Broken);
    }
    if width > limit {
        return Ok(FrameRead::TooLong);
    }
    read_span(file, at + 4, long, into)?;
    Ok(FrameRead::Frame {
        next: at + 8 + long,
    })
}
