// The sum of bytes as numbers.
ghost use Rattle.std.specs.Prelude.{◌≡◌, ◌≤◌, length, sum};

/// The sum of bytes as numbers.
pub fn byte_sum(bytes: &[u8]) -> u64
    requires { length bytes.now ≤ 4294967296 }
    ensures { result ≡ sum bytes.now }
{
    let mut total: u64 = 0;
    for byte in bytes {
        total += u64::from(*byte);
    }
    total
}
