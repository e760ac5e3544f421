// What characters stand for.
ghost use Rattle.std.specs.Prelude.{◌≡◌, ◌≤◌};
ghost use Rattle.fj_value.specs.Reading.{with_sign, in_range, truth_read};

/// The number of an amount and a sign, where it is one of so many bits.
pub fn signed(bits: u32, negative: bool, amount: u64) -> Option<i64>
    requires { (1 ≤ bits) × (bits ≤ 64) }
    ensures { result ≡ in_range bits (with_sign negative amount) }
{
    let limit = 1 << (bits - 1);
    if negative && amount == limit {
        return Some(-((limit - 1) as i64) - 1);
    }
    if amount >= limit {
        return None;
    }
    let amount = amount as i64;
    Some(if negative { -amount } else { amount })
}

/// The truth value that characters begin with: `T` or `F` of either case behind an optional period
/// (ISO/IEC 1539-1:2004, 10.6.2).
pub fn truth_of(chars: &[u8]) -> Option<bool>
    ensures { result ≡ truth_read chars.now }
{
    match chars {
        [b'T' | b't', ..] | [b'.', b'T' | b't', ..] => Some(true),
        [b'F' | b'f', ..] | [b'.', b'F' | b'f', ..] => Some(false),
        _ => None,
    }
}
