// Whole texts from a source.
ghost use Rattle.std.specs.Prelude.{◌≡◌, ◌≤◌, IfOk, Err, ◌↔◌};
ghost use Rattle.fj_outside.specs.Faults.{Rose};
ghost use Rattle.fj_job.specs.Taken.{IsReadOf};

use fj_outside::{Source, Stop};
use std::alloc::Global;

/// The greatest length of a deck's text, in bytes.
pub const MAX_TEXT: usize = 4_194_304;

/// Reads a source to its end, or past 4,194,304 bytes, the greatest deck text.
pub fn read_text<R: Source>(alloc: Global, source: &mut R) -> Result<Vec<u8>, Stop>
    ensures telling { R.tells source.old ↔ R.tells source.new }
    ensures text { R.tells source.old → IfOk result (λ text. IsReadOf MAX_TEXT (R.left source.old) text.items) }
    ensures later { R.count source.old ≤ R.count source.new }
    ensures failed { result ≡ Err Stop.Failed → Rose (R.count source.old) (R.count source.new) }
{
    let mut text = Vec::new(alloc);
    let mut buf = [0u8; 4096];
    'reading: while text.len() <= MAX_TEXT {
        match source.read(&mut buf) {
            Ok(0) => return Ok(text),
            Ok(count) => match text.extend_from_slice(&buf[..count]) {
                Ok(()) => (),
                Err(e) => return Err(Stop::Memory(e)),
            },
            Err(_) => return Err(Stop::Failed),
        }
    }
    Ok(text)
}
