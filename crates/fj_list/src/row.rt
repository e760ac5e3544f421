// Integers of list-directed output, one after another in a record (ISO/IEC 1539-1:2004, 10.9.2).
ghost use Rattle.std.specs.Prelude.{◌≡◌, ◌+◌, ◌<◌, ◌≤◌, ◌∷◌, ◌++◌, All, length, take, flat_map, IfSome, IfNone};
ghost use Rattle.std.specs.Fmt.{decimal};
ghost use Rattle.fj_list.specs.ListText.{integer_shown};
ghost use Rattle.fj_list.specs.Listing.{behind_blank, IsNoText};

use fj_value::{EditModes, Value, sign_of};
use itoa::write_digits;

/// How many digits a number has.
#[inline(always)]
fn count_digits(n: u64) -> usize
    ensures is { result ≡ length (decimal n) }
    ensures few { result ≤ 20 }
{
    match n.checked_ilog10() {
        Some(power) => power as usize + 1,
        None => 1,
    }
}

/// Writes a blank at a place of a row, and behind it a sign or none.
#[inline(always)]
fn write_front(row: &mut [u8], at: usize, sign: &[u8])
    requires short { length sign.now ≤ 1 }
    requires room { at + length sign.now < length row.old }
    ensures size { length row.new ≡ length row.old }
    ensures front { take (at + 1 + length sign.now) row.new ≡ take at row.old ++ 32 ∷ sign.now }
{
    row[at] = b' ';
    if sign.is_empty() {
        return;
    }
    row[at + 1] = sign[0];
}

/// Writes a blank and an integer so that they begin at a place of a row, and answers where they end; none where the row has no
/// room for them.
#[inline(always)]
fn write_behind_blank(row: &mut [u8], at: usize, plus: bool, n: i64) -> Option<usize>
    requires { at ≤ length row.old }
    ensures size { length row.new ≡ length row.old }
    ensures within { IfSome result (λ end. end ≤ length row.old) }
    ensures some { IfSome result (λ end. take end row.new ≡ take at row.old ++ (32 ∷ integer_shown plus n)) }
    ensures none { IfNone result (row.new ≡ row.old) }
{
    let sign = sign_of(plus, n);
    let amount = n.unsigned_abs();
    let end = at + 1 + sign.len() + count_digits(amount);
    if end > row.len() {
        return None;
    }
    write_front(row, at, sign);
    let _ = write_digits(amount, row, end);
    Some(end)
}

/// Writes the first values one after another into a row, each behind a blank, as far as they are integers that have room.
/// Answers how many these are, and where they end.
pub(crate) fn write_integers(row: &mut [u8], modes: EditModes, values: &[Value]) -> (usize, usize)
    ensures few { result.0 ≤ length values.now }
    ensures within { result.1 ≤ length row.old }
    ensures size { length row.new ≡ length row.old }
    ensures written { take result.1 row.new ≡ flat_map (behind_blank modes) (take result.0 values.now) }
    ensures plain { All IsNoText (take result.0 values.now) }
{
    let mut at = 0;
    for (i, value) in values.iter().enumerate() {
        let Value::Int(n) = value else {
            return (i, at);
        };
        let Some(end) = write_behind_blank(row, at, modes.plus, *n) else {
            return (i, at);
        };
        at = end;
    }
    (values.len(), at)
}
