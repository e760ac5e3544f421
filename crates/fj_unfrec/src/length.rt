// The length that a frame begins and ends with.
ghost use Rattle.std.specs.Prelude.{◌≡◌, ◌+◌, ◌≤◌, take, drop, IfOk, OnErr, ◌↔◌};
ghost use Rattle.std.specs.Int.{w32, to_le_bytes};
ghost use Rattle.fj_outside.specs.Faults.{Rose};

use fj_outside::{Failed, FileStore};

/// Reads the four bytes at a place as a length, the least first.
pub fn read_length<F: FileStore>(file: &mut F, at: u64) -> Result<u32, Failed>
    requires { at + 4 ≤ F.size file.old }
    ensures telling { F.tells file.old ↔ F.tells file.new }
    ensures same { F.tells file.old → F.bytes file.new ≡ F.bytes file.old }
    ensures length { F.tells file.old → IfOk result (λ width. to_le_bytes w32 width ≡ take 4 (drop at (F.bytes file.old))) }
    ensures size { F.size file.new ≡ F.size file.old }
    ensures later { F.count file.old ≤ F.count file.new }
    ensures failed { OnErr result (Rose (F.count file.old) (F.count file.new)) }
{
    let within = at <= file.len();
    prove!(within);
    let mut bytes = [0u8; 4];
    file.read_at(at, &mut bytes)?;
    Ok(number_of(bytes))
}

/// The number that four bytes are, the least first.
fn number_of(bytes: [u8; 4]) -> u32
    ensures { to_le_bytes w32 result ≡ bytes }
{
    u32::from_le_bytes(bytes)
}
