// Integers in base 2, 8 or 16: B, O and Z.
ghost use Rattle.std.specs.Prelude.{◌≡◌, ◌≤◌, IsOkAnd};
ghost use Rattle.fj_edit_in.specs.InputField.{bits_input, unsigned_number, trimmed, Reads};
ghost use Rattle.fj_edit_in.specs.Scan.{amount_or_condition, bits_or_condition, from_bits};

use crate::number::number;
use crate::trim::skip_blanks;
use fj_value::{Condition, Edit, EditModes, Kind, Value};
use std::alloc::{AllocError, Global};

/// The number of a field without blanks in front.
fn amount_of(base: u8, blank_zero: bool, field: &[u8]) -> Result<u64, Condition>
    requires { (2 ≤ base) × (base ≤ 36) }
    ensures { result ≡ amount_or_condition (unsigned_number base blank_zero field.now) }
{
    if field.is_empty() {
        Ok(0)
    } else {
        number(base, blank_zero, field)
    }
}

/// The number that so many bits stand for in two's complement.
fn signed_of(bits: u32, amount: u64) -> Option<i64>
    requires { (1 ≤ bits) × (bits ≤ 64) }
    ensures { result ≡ from_bits bits amount }
{
    let half = 1 << (bits - 1);
    if amount < half {
        return Some(amount as i64);
    }
    let above = amount - half;
    if above >= half {
        return None;
    }
    Some(above as i64 - (half - 1) as i64 - 1)
}

#[tactic(auto, using(crate::proofs::Halves::whole_small))]
fn integer_of(bits: u32, base: u8, blank_zero: bool, field: &[u8]) -> Result<i64, Condition>
    requires bits { (1 ≤ bits) × (bits ≤ 64) }
    requires base { (2 ≤ base) × (base ≤ 36) }
    ensures { result ≡ bits_or_condition bits (unsigned_number base blank_zero field.now) }
{
    let amount = amount_of(base, blank_zero, field)?;
    signed_of(bits, amount).ok_or(Condition::OUT_OF_RANGE)
}

/// Reads an integer under B, O or Z (ISO/IEC 1539-1:2004, 10.6.1.1), of which INTEGER(4) has 32 bits and INTEGER(8) 64. Blanks
/// alone are 0. `WRONG_DESCRIPTOR` (12) comes for another descriptor or kind, `NO_VALUE` (13) for other characters, `OUT_OF_RANGE`
/// (14) for more bits; each leaves the variable. It takes no memory.
pub fn read_bits(
    _alloc: Global,
    edit: Edit,
    kind: Kind,
    modes: EditModes,
    chars: &[u8],
    out: &mut Value,
) -> Result<Condition, AllocError>
    ensures { IsOkAnd result (Reads (bits_input edit kind modes.blank_zero chars.now) out.old out.new) }
{
    let (Some((base, _, _)), Some(bits)) = (edit.bits_widths(), kind.integer_bits()) else {
        return Ok(Condition::WRONG_DESCRIPTOR);
    };
    match integer_of(bits, base, modes.blank_zero, skip_blanks(chars)) {
        Ok(n) => {
            *out = Value::Int(n);
            Ok(Condition::Fine)
        }
        Err(condition) => Ok(condition),
    }
}
