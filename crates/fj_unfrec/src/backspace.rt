// The unformatted record before a place.
ghost use Rattle.std.specs.Prelude.{◌≡◌, ◌+◌, ◌<◌, ◌≤◌, take, IfOk, IfSome, IfNone, OnErr, ◌↔◌};
ghost use Rattle.fj_outside.specs.Faults.{Rose};
ghost use Rattle.fj_unfrec.specs.Reading.{frame_start};

use crate::length::read_length;
use fj_outside::{Failed, FileStore};

/// Answers where the frame begins that ends at a place, which is at most the file's length, and 0 at the start of the file (ISO/IEC
/// 1539-1:2004, 9.7.1). `None` where no whole frame ends there.
pub fn backspace_frame<F: FileStore>(file: &mut F, at: u64) -> Result<Option<u64>, Failed>
    requires { at ≤ F.size file.old }
    ensures telling { F.tells file.old ↔ F.tells file.new }
    ensures same { F.tells file.old → F.bytes file.new ≡ F.bytes file.old }
    ensures start { F.tells file.old → IfOk result (λ start. start ≡ frame_start (take at (F.bytes file.old))) }

    // Told or not.
    ensures before { IfOk result (λ start. IfSome start (λ place. (at ≡ 0 → place ≡ 0) × (0 < at → place + 8 ≤ at))) }
    ensures none { IfOk result (λ start. IfNone start (0 < at)) }
    ensures size { F.size file.new ≡ F.size file.old }
    ensures later { F.count file.old ≤ F.count file.new }
    ensures failed { OnErr result (Rose (F.count file.old) (F.count file.new)) }
{
    let within = at <= file.len();
    prove!(within);
    if at == 0 {
        return Ok(Some(0));
    }
    if at < 8 {
        return Ok(None);
    }
    let width = read_length(file, at - 4)?;
    let long = u64::from(width);
    if at - 8 < long {
        return Ok(None);
    }
    let start = at - 8 - long;
    let again = read_length(file, start)?;
    if again != width {
        return Ok(None);
    }
    Ok(Some(start))
}
