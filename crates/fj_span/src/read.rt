// A run of bytes read from a file.
ghost use Rattle.std.specs.Prelude.{◌≡◌, ◌+◌, ◌-◌, ◌<◌, ◌≤◌, ◌++◌, length, min, take, drop, IfOk, OnOk, ◌↔◌};
ghost use Rattle.fj_outside.specs.Faults.{Rose};

use fj_outside::{FileStore, Stop, WINDOW};
use fj_value::Text;

/// Adds the bytes from a place on to a text, `count` of them or as many as there are. After a `Stop` the text is of no
/// account.
pub fn read_span<F: FileStore>(
    file: &mut F,
    at: u64,
    count: u64,
    into: &mut Text,
) -> Result<(), Stop>
    requires { at ≤ F.size file.old }
    ensures telling { F.tells file.old ↔ F.tells file.new }
    ensures same { F.tells file.old → F.bytes file.new ≡ F.bytes file.old }
    ensures bytes { F.tells file.old → OnOk result (into.new ≡ into.old ++ take count (drop at (F.bytes file.old))) }
    ensures length { OnOk result (length into.new ≡ length into.old + min count (F.size file.old - at)) }
    ensures size { F.size file.new ≡ F.size file.old }
    ensures later { F.count file.old ≤ F.count file.new }
    ensures failed { result ≡ Err Stop.Failed → Rose (F.count file.old) (F.count file.new) }
{
    let due = count.min(file.len() - at);
    let mut taken = 0;
    'taking: while taken < due {
        taken += read_part(file, at + taken, due - taken, into)?;
    }
    Ok(())
}

/// Adds the first bytes from a place on to a text, `most` at most, and answers how many: those that the file has at hand,
/// or those that it reads at once.
fn read_part<F: FileStore>(file: &mut F, at: u64, most: u64, into: &mut Text) -> Result<u64, Stop>
    requires some { 0 < most }
    requires place { at + most ≤ F.size file.old }
    ensures amount { IfOk result (λ part. (0 < part) × (part ≤ most)) }
    ensures telling { F.tells file.old ↔ F.tells file.new }
    ensures same { F.tells file.old → F.bytes file.new ≡ F.bytes file.old }
    ensures bytes { F.tells file.old → IfOk result (λ part. into.new ≡ into.old ++ take part (drop at (F.bytes file.old))) }
    ensures length { IfOk result (λ part. length into.new ≡ length into.old + part) }
    ensures size { F.size file.new ≡ F.size file.old }
    ensures later { F.count file.old ≤ F.count file.new }
    ensures failed { result ≡ Err Stop.Failed → Rose (F.count file.old) (F.count file.new) }
{
    file.fill(at)?;
    let hand = file.at_hand(at);
    if hand.is_empty() {
        return read_piece(file, at, most, into);
    }
    let part = most.min(hand.len() as u64);
    into.push_all(&hand[..part as usize])?;
    Ok(part)
}

/// The same, of a file that has nothing at hand.
fn read_piece<F: FileStore>(file: &mut F, at: u64, most: u64, into: &mut Text) -> Result<u64, Stop>
    requires some { 0 < most }
    requires place { at + most ≤ F.size file.old }
    ensures amount { IfOk result (λ part. (0 < part) × (part ≤ most)) }
    ensures telling { F.tells file.old ↔ F.tells file.new }
    ensures same { F.tells file.old → F.bytes file.new ≡ F.bytes file.old }
    ensures bytes { F.tells file.old → IfOk result (λ part. into.new ≡ into.old ++ take part (drop at (F.bytes file.old))) }
    ensures length { IfOk result (λ part. length into.new ≡ length into.old + part) }
    ensures size { F.size file.new ≡ F.size file.old }
    ensures later { F.count file.old ≤ F.count file.new }
    ensures failed { result ≡ Err Stop.Failed → Rose (F.count file.old) (F.count file.new) }
{
    let within = at <= file.len();
    prove!(within);
    let mut piece = [0u8; WINDOW];
    let width = most.min(WINDOW as u64) as usize;
    let part = file.read_at(at, &mut piece[..width])?;
    into.push_all(&piece[..part])?;
    Ok(part as u64)
}
