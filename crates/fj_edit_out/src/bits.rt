// Integers in base 2, 8 or 16: B, O and Z.
ghost use Rattle.std.specs.Prelude.{◌≡◌, ◌++◌, ◌%◌, ◌<◌, ◌≤◌, ◌^◌, length, drop, IfOk, IsTrue, true, OnOk, OnErr};
ghost use Rattle.std.specs.Fmt.{digit_glyph};
ghost use Rattle.fj_value.specs.Digits.{numeral, twos_complement};
ghost use Rattle.fj_value.specs.Edit.{is_bits_base};
ghost use Rattle.fj_edit_out.specs.Item.{bits_in};
ghost use Rattle.fj_edit_out.specs.OutputField.{zero_filled, adjusted, bits_field, bits_output, Appends};

use crate::adjust::{push_adjusted, zeros_before};
use fj_value::{Condition, Edit, EditModes, Kind, Text, Value};
use std::alloc::AllocError;

fn in_64_bits(n: i64) -> u64
    ensures { result ≡ twos_complement 64 n }
{
    n.cast_unsigned()
}

fn in_32_bits(n: i64) -> u64
    ensures { result ≡ twos_complement 32 n }
{
    n.cast_unsigned() % (1 << 32)
}

/// The bits of a defined item of an integer kind, in two's complement.
fn bits_of(kind: Kind, value: &Value) -> Option<u64>
    ensures { result ≡ bits_in kind value.now }
{
    match (kind, value) {
        (Kind::Int4, Value::Int(n)) => Some(in_32_bits(*n)),
        (Kind::Int8, Value::Int(n)) => Some(in_64_bits(*n)),
        _ => None,
    }
}

fn last_digit(n: u64, shift: u32) -> u8
    requires { shift ≤ 4 }
    ensures { result ≡ n % 2 ^ shift }
{
    (n & ((1 << shift) - 1)) as u8
}

fn character_of(digit: u8) -> u8
    requires { digit < 16 }
    ensures { result ≡ digit_glyph true digit }
{
    if digit < 10 {
        b'0' + digit
    } else {
        b'A' - 10 + digit
    }
}

/// How many bits a digit of base 2, 8 or 16 stands for.
fn shift_of(base: u8) -> u32
    requires { IsTrue (is_bits_base base) }
    ensures shift { base ≡ 2 ^ result }
    ensures some { 1 ≤ result }
    ensures few { result ≤ 4 }
{
    match base {
        2 => 1,
        8 => 3,
        _ => 4,
    }
}

/// Writes the digits of a number so that they end with the buffer, and answers where they begin. 0 has none.
fn write_digits(shift: u32, n: u64, buffer: &mut [u8; 64]) -> usize
    requires some { 1 ≤ shift }
    requires few { shift ≤ 4 }
    ensures within { result ≤ 64 }
    ensures written { drop result buffer.new ≡ numeral (2 ^ shift) n }
{
    let mut rest = n;
    let mut at = 64;
    while rest > 0 {
        at -= 1;
        buffer[at] = character_of(last_digit(rest, shift));
        rest >>= shift;
    }
    at
}

fn push_bits(out: &mut Text, base: u8, w: u32, m: Option<u32>, bits: u64) -> Result<(), AllocError>
    requires { IsTrue (is_bits_base base) }
    ensures ok { OnOk result (out.new ≡ out.old ++ adjusted w (zero_filled m (numeral base bits))) }
    ensures err { OnErr result (out.new ≡ out.old) }
{
    let mut buffer = [0; 64];
    let start = write_digits(shift_of(base), bits, &mut buffer);
    let digits = &buffer[start..];
    push_adjusted(out, w, b"", zeros_before(m, digits.len()), digits)
}

/// Appends the field of an integer under B, O or Z (ISO/IEC 1539-1:2004, 10.6.1.1), of which INTEGER(4) shows 32 bits and
/// INTEGER(8) 64. `WRONG_DESCRIPTOR` (12) appends nothing: it comes for another descriptor, kind or value, and for a base that is
/// not 2, 8 or 16.
pub fn bits_field(
    edit: Edit,
    value: &Value,
    kind: Kind,
    _modes: EditModes,
    out: &mut Text,
) -> Result<Condition, AllocError>
    ensures ok { IfOk result (Appends (bits_output edit value.now kind) out.old out.new) }
    ensures err { OnErr result (out.new ≡ out.old) }
{
    let Some((base, w, m)) = edit.bits_widths() else {
        return Ok(Condition::WRONG_DESCRIPTOR);
    };
    let Some(bits) = bits_of(kind, value) else {
        return Ok(Condition::WRONG_DESCRIPTOR);
    };
    push_bits(out, base, w, m, bits)?;
    Ok(Condition::Fine)
}
