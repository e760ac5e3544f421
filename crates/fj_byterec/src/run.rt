// Records of direct access, several at once.
ghost use Rattle.std.specs.Prelude.{◌≡◌, ◌+◌, ◌≤◌, ◌↔◌, OnOk, OnErr, length, max};
ghost use Rattle.fj_outside.specs.Faults.{Rose};
ghost use Rattle.fj_span.specs.Change.{KeepsUpToChange};
ghost use Rattle.fj_byterec.specs.Runs.{with_run};

use crate::fill::write_copies;
use fj_outside::{FileStore, Stop};
use fj_span::write_span;

/// Writes the bytes of whole records, one after another, from a place on, counted in bytes from 0 (ISO/IEC 1539-1:2004, 9.2.2.2).
/// The gap before them is filled up where the file ends before it. The bytes after them stay.
pub fn write_run<F: FileStore>(file: &mut F, start: u64, run: &[u8], fill: u8) -> Result<(), Stop>
    requires { start + length run.now ≤ 268435456 }
    ensures telling { F.tells file.old ↔ F.tells file.new }
    ensures bytes { F.tells file.old → OnOk result (F.bytes file.new ≡ with_run (F.bytes file.old) start run.now fill) }
    ensures stopped { F.tells file.old → OnErr result
        (KeepsUpToChange (F.bytes file.old) (with_run (F.bytes file.old) start run.now fill) (F.bytes file.new)) }

    // The length, told or not.
    ensures size { OnOk result (F.size file.new ≡ max (F.size file.old) (start + length run.now)) }
    ensures no_shorter { F.size file.old ≤ F.size file.new }
    ensures no_longer { F.size file.new ≤ max (F.size file.old) (start + length run.now) }
    ensures later { F.count file.old ≤ F.count file.new }
    ensures failed { result ≡ Err Stop.Failed → Rose (F.count file.old) (F.count file.new) }
{
    let len = file.len();
    write_copies(file, start.min(len), start, fill)?;
    write_span(file, start, run, false)
}
