// Integers in decimal: I, and G at integers.
ghost use Rattle.std.specs.Prelude.{◌≡◌, ◌≤◌, IsOkAnd};
ghost use Rattle.fj_value.specs.Kind.{fits_bits};
ghost use Rattle.fj_value.specs.Reading.{with_sign, in_range};
ghost use Rattle.fj_edit_in.specs.InputField.{integer_input, signed_number, signed_digits, trimmed, Reads};
ghost use Rattle.fj_edit_in.specs.Scan.{integer_or_condition};

use crate::number::number;
use crate::trim::skip_blanks;
use fj_value::{Condition, Edit, EditModes, Kind, Value, signed};
use std::alloc::{AllocError, Global};

/// The number of digits behind a sign.
#[tactic(auto, using(crate::proofs::Halves::half_small))]
fn signed_digits(
    bits: u32,
    negative: bool,
    blank_zero: bool,
    digits: &[u8],
) -> Result<i64, Condition>
    requires { (1 ≤ bits) × (bits ≤ 64) }
    ensures { result ≡ integer_or_condition bits (signed_digits negative blank_zero digits.now) }
{
    let amount = number(10, blank_zero, digits)?;
    signed(bits, negative, amount).ok_or(Condition::OUT_OF_RANGE)
}

/// The number of a field without blanks in front.
fn integer_of(bits: u32, blank_zero: bool, field: &[u8]) -> Result<i64, Condition>
    requires { (1 ≤ bits) × (bits ≤ 64) }
    ensures { result ≡ integer_or_condition bits (signed_number blank_zero field.now) }
{
    match field {
        [] => Ok(0),
        [b'-', digits @ ..] => signed_digits(bits, true, blank_zero, digits),
        [b'+', digits @ ..] => signed_digits(bits, false, blank_zero, digits),
        _ => signed_digits(bits, false, blank_zero, field),
    }
}

/// Reads an integer under I or G (ISO/IEC 1539-1:2004, 10.6.1.1 and 10.6.4). Blanks alone are 0. `WRONG_DESCRIPTOR` (12) comes for
/// another descriptor or kind, `NO_VALUE` (13) for other characters, `OUT_OF_RANGE` (14) past the kind's range; each leaves the
/// variable. It takes no memory.
pub fn read_int(
    _alloc: Global,
    edit: Edit,
    kind: Kind,
    modes: EditModes,
    chars: &[u8],
    out: &mut Value,
) -> Result<Condition, AllocError>
    ensures { IsOkAnd result (Reads (integer_input edit kind modes.blank_zero chars.now) out.old out.new) }
{
    let (Some(_), Some(bits)) = (edit.integer_widths(), kind.integer_bits()) else {
        return Ok(Condition::WRONG_DESCRIPTOR);
    };
    match integer_of(bits, modes.blank_zero, skip_blanks(chars)) {
        Ok(n) => {
            *out = Value::Int(n);
            Ok(Condition::Fine)
        }
        Err(condition) => Ok(condition),
    }
}
