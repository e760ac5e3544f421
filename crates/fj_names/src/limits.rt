// Sums that are held against limits, and lengths.
ghost use Rattle.std.specs.Prelude.{◌≡◌, ◌≤◌, ◌+◌, ◌*◌, min, IfOk};
ghost use Rattle.fj_names.specs.Transfer.{size_of};

use fj_value::Kind;
use std::alloc::AllocError;

/// A sum with so many values of a size more, up to one more than the most that is allowed.
pub fn capped(sum: u64, count: u32, size: u32, most: u64) -> u64
    requires sum { sum ≤ most + 1 }
    requires most { most ≤ 16777216 }
    ensures { result ≡ min (sum + count * size) (most + 1) }
{
    (sum + u64::from(count) * u64::from(size)).min(most + 1)
}

/// The bytes of a value of a kind.
pub fn size_of(kind: Kind) -> u32
    ensures { result ≡ size_of kind }
{
    match kind {
        Kind::Int4 | Kind::Logical => 4,
        Kind::Int8 => 8,
        Kind::Chars(len) => len,
    }
}

/// A length as the number that kinds and faults hold. There is no memory for what is longer than that.
pub fn narrow(len: usize) -> Result<u32, AllocError>
    ensures { IfOk result (λ n. n ≡ len) }
{
    match u32::try_from(len) {
        Ok(n) => Ok(n),
        Err(_) => Err(AllocError),
    }
}
