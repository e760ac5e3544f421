// Integers in decimal: I, and G at integers.
ghost use Rattle.std.specs.Prelude.{◌≡◌, ◌++◌, ◌≤◌, length, unsigned_abs, IfOk, OnOk, OnErr};
ghost use Rattle.fj_value.specs.Digits.{numeral};
ghost use Rattle.fj_edit_out.specs.Item.{integer_in};
ghost use Rattle.fj_edit_out.specs.OutputField.{integer_field, integer_output, Appends};

use crate::adjust::{push_adjusted, zeros_before};
use fj_value::{Condition, Edit, EditModes, Kind, Text, Value, sign_of};
use itoa::Buffer;
use std::alloc::AllocError;

/// The integer that a defined item of an integer kind holds.
pub fn integer_of(kind: Kind, value: &Value) -> Option<i64>
    ensures { result ≡ integer_in kind value.now }
{
    match (kind, value) {
        (Kind::Int4 | Kind::Int8, Value::Int(n)) => Some(*n),
        _ => None,
    }
}

/// The digits of an amount; 0 has none.
fn digits_of(buffer: &mut Buffer, amount: u64) -> &[u8]
    ensures digits { result.now ≡ numeral 10 amount }
    ensures short { length result.now ≤ 64 }
{
    if amount == 0 {
        return b"";
    }
    buffer.format(amount).as_bytes()
}

fn push_integer(
    out: &mut Text,
    w: u32,
    m: Option<u32>,
    plus: bool,
    n: i64,
) -> Result<(), AllocError>
    ensures ok { OnOk result (out.new ≡ out.old ++ integer_field plus (w, m) n) }
    ensures err { OnErr result (out.new ≡ out.old) }
{
    let mut buffer = Buffer::new();
    let digits = digits_of(&mut buffer, n.unsigned_abs());
    let zeros = zeros_before(m, digits.len());
    if zeros == 0 && digits.is_empty() {
        push_adjusted(out, w, b"", 0, b"")
    } else {
        push_adjusted(out, w, sign_of(plus, n), zeros, digits)
    }
}

/// Appends the field of an integer under I or G (ISO/IEC 1539-1:2004, 10.6.1.1 and 10.6.4). One that is not of the kind shows its
/// own digits. `WRONG_DESCRIPTOR` (12) appends nothing: it comes for another descriptor, kind or value.
pub fn int_field(
    edit: Edit,
    value: &Value,
    kind: Kind,
    modes: EditModes,
    out: &mut Text,
) -> Result<Condition, AllocError>
    ensures ok { IfOk result (Appends (integer_output edit value.now kind modes.plus) out.old out.new) }
    ensures err { OnErr result (out.new ≡ out.old) }
{
    let Some((w, m)) = edit.integer_widths() else {
        return Ok(Condition::WRONG_DESCRIPTOR);
    };
    let Some(n) = integer_of(kind, value) else {
        return Ok(Condition::WRONG_DESCRIPTOR);
    };
    push_integer(out, w, m, modes.plus, n)?;
    Ok(Condition::Fine)
}
