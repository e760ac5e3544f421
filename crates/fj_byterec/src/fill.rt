// Copies of one byte put into a file.
ghost use Rattle.std.specs.Prelude.{◌≡◌, ◌-◌, ◌≤◌, ◌↔◌, OnOk, OnErr, max, replicate};
ghost use Rattle.fj_outside.specs.Faults.{Rose};
ghost use Rattle.fj_outside.specs.Bytes.{written};
ghost use Rattle.fj_span.specs.Change.{KeepsUpToChange};

use fj_outside::{FileStore, Stop};
use fj_span::{GATHERED, write_span};

/// Puts copies of a byte from a place, which is at most the length, up to another.
pub fn write_copies<F: FileStore>(file: &mut F, from: u64, to: u64, fill: u8) -> Result<(), Stop>
    requires place { from ≤ F.size file.old }
    requires order { from ≤ to }
    ensures telling { F.tells file.old ↔ F.tells file.new }
    ensures bytes { F.tells file.old →
        OnOk result (F.bytes file.new ≡ written (F.bytes file.old) from (replicate (to - from) fill)) }
    ensures stopped { F.tells file.old → OnErr result
        (KeepsUpToChange (F.bytes file.old) (written (F.bytes file.old) from (replicate (to - from) fill)) (F.bytes file.new)) }
    ensures size { OnOk result (F.size file.new ≡ max (F.size file.old) to) }
    ensures no_shorter { F.size file.old ≤ F.size file.new }
    ensures no_longer { F.size file.new ≤ max (F.size file.old) to }
    ensures later { F.count file.old ≤ F.count file.new }
    ensures failed { result ≡ Err Stop.Failed → Rose (F.count file.old) (F.count file.new) }
{
    let within = from <= file.len();
    prove!(within);
    let copies = [fill; GATHERED];
    let mut place = from;
    'filling: while place < to {
        let width = (to - place).min(GATHERED as u64);
        write_span(file, place, &copies[..width as usize], false)?;
        place += width;
    }
    Ok(())
}
