// Integers under I without a least number of digits, written over the blanks of their fields.
ghost use Rattle.std.specs.Prelude.{◌≡◌, ◌<◌, ◌≤◌, ◌↔◌, ◌*◌, ◌^◌, ◌++◌, length, take, replicate, flat_map, IsTrue, IfOk, OnOk, OnErr};
ghost use Rattle.std.specs.Fmt.{decimal};
ghost use Rattle.fj_edit_out.specs.Item.{integers_in};
ghost use Rattle.fj_edit_out.specs.OutputField.{integer_field};

use crate::integer::integer_of;
use fj_value::{Kind, Text, Value, sign_of};
use itoa::write_digits;
use std::alloc::AllocError;

/// The first number that has more than so many digits, where 64 bits hold it.
static FIRST_LONGER: [u64; 20] = [
    0,
    10,
    100,
    1_000,
    10_000,
    100_000,
    1_000_000,
    10_000_000,
    100_000_000,
    1_000_000_000,
    10_000_000_000,
    100_000_000_000,
    1_000_000_000_000,
    10_000_000_000_000,
    100_000_000_000_000,
    1_000_000_000_000_000,
    10_000_000_000_000_000,
    100_000_000_000_000_000,
    1_000_000_000_000_000_000,
    10_000_000_000_000_000_000,
];

/// Whether a number has at most so many digits.
#[inline(always)]
fn has_digits(n: u64, most: usize) -> bool
    ensures { IsTrue result ↔ (length (decimal n) ≤ most) }
{
    most >= FIRST_LONGER.len() || n < FIRST_LONGER[most]
}

/// Writes an integer over the blanks of its field.
#[inline(always)]
pub fn write_integer(field: &mut [u8], plus: bool, n: i64)
    requires some { 0 < length field.old }
    requires blank { field.old ≡ replicate (length field.old) 32 }
    ensures { field.new ≡ integer_field plus (length field.old, None) n }
{
    let width = field.len();
    let amount = n.unsigned_abs();
    if n >= 0 && !plus && has_digits(amount, width) {
        write_digits(amount, field, width);
        return;
    }
    let sign = sign_of(plus, n);
    if !has_digits(amount, width - sign.len()) {
        field.fill(b'*');
        return;
    }
    let start = write_digits(amount, field, width);
    if !sign.is_empty() {
        field[start - 1] = sign[0];
    }
}

/// Writes the first integers of a row one after another over blanks, and answers how many.
#[inline(always)]
fn write_row(row: &mut [u8], w: usize, plus: bool, kind: Kind, values: &[Value]) -> usize
    requires some { 0 < w }
    requires blank { row.old ≡ replicate (length values.now * w) 32 }
    ensures count { result ≡ length (integers_in kind values.now) }
    ensures few { result ≤ length values.now }
    ensures row { take (result * w) row.new ≡ flat_map (integer_field plus (w, None)) (integers_in kind values.now) }
{
    let mut at = 0;
    for (i, value) in values.iter().enumerate() {
        let Some(n) = integer_of(kind, value) else {
            return i;
        };
        write_integer(&mut row[at..at + w], plus, n);
        at += w;
    }
    values.len()
}

/// Adds the fields of the first integers of a row to bytes, and answers how many. Want of memory changes nothing.
#[inline(always)]
fn add_row(
    bytes: &mut Vec<u8>,
    w: usize,
    plus: bool,
    kind: Kind,
    values: &[Value],
) -> Result<usize, AllocError>
    requires some { 0 < w }
    requires short { length values.now * w ≤ 2 ^ 62 }
    ensures count { IfOk result (λ count. count ≡ length (integers_in kind values.now)) }
    ensures ok { OnOk result (bytes.new.items ≡ bytes.old.items ++ flat_map (integer_field plus (w, None)) (integers_in kind values.now)) }
    ensures err { OnErr result (bytes.new.items ≡ bytes.old.items) }
{
    let start = bytes.len();
    bytes.resize(start + values.len() * w, b' ')?;
    let count = write_row(&mut bytes[start..], w, plus, kind, values);
    bytes.truncate(start + count * w);
    Ok(count)
}

/// Appends the fields of the first integers of a row under `Iw` (ISO/IEC 1539-1:2004, 10.6.1.1), up to a value that is none, and
/// answers how many. Nothing but want of memory can come, and it appends nothing.
pub fn integer_fields(
    w: u32,
    plus: bool,
    kind: Kind,
    values: &[Value],
    out: &mut Text,
) -> Result<usize, AllocError>
    requires some { 0 < w }
    requires short { length values.now * w ≤ 2 ^ 62 }
    ensures count { IfOk result (λ count. count ≡ length (integers_in kind values.now)) }
    ensures ok { OnOk result (out.new ≡ out.old ++ flat_map (integer_field plus (w, None)) (integers_in kind values.now)) }
    ensures err { OnErr result (out.new ≡ out.old) }
{
    let empty = Text::new(out.allocator());
    let mut bytes = std::mem::replace(out, empty).into_vec();
    let count = add_row(&mut bytes, w as usize, plus, kind, values);
    *out = Text::from_vec(bytes);
    count
}
