// The number that digits stand for (ISO/IEC 1539-1:2004, 10.6.1.1).
ghost use Rattle.std.specs.Prelude.{◌≡◌, ◌==◌, ◌≤◌, if◌then◌else◌, Bool, IfSome, Ok};
ghost use Rattle.std.specs.Char.{digit_value};
ghost use Rattle.fj_value.specs.Digits.{number_in};
ghost use Rattle.fj_edit_in.specs.InputField.{blanks_read};
ghost use Rattle.fj_edit_in.specs.Scan.{next_amount, amount_or_condition};

use fj_value::Condition;

/// Ten of a number below this, and a digit, are a number of 64 bits.
const SHORT: u64 = 1_000_000_000_000_000_000;

/// The digit that a character stands for, letters of either case from ten on; 36 for any other character.
/// A blank among digits stands for 0.
fn digit_of(c: u8) -> u8
    ensures { result ≡ digit_value (if c == 32 then 48 else c) }
{
    match c {
        b' ' => 0,
        b'0'..=b'9' => c - b'0',
        b'A'..=b'Z' => c - b'A' + 10,
        b'a'..=b'z' => c - b'a' + 10,
        _ => 36,
    }
}

fn one_more(amount: Option<u64>, base: u8, digit: u8) -> Option<u64>
    ensures { result ≡ next_amount base digit amount }
{
    amount?
        .checked_mul(u64::from(base))?
        .checked_add(u64::from(digit))
}

/// The number of decimal digits without blanks, at most 19; of other characters none. It is the common case.
fn plain_number(chars: &[u8]) -> Option<u64>
    ensures { IfSome result (λ n. (blank_zero : Bool) → amount_or_condition (number_in 10 (blanks_read blank_zero chars.now)) ≡ Ok n) }
{
    if chars.is_empty() {
        return None;
    }
    let mut amount = 0;
    for c in chars {
        if !c.is_ascii_digit() || amount >= SHORT {
            return None;
        }
        amount = amount * 10 + u64::from(*c - b'0');
    }
    Some(amount)
}

/// The number of a base's digits among blanks: 13 where there are none or other characters, 14 beyond 64 bits.
pub fn number(base: u8, blank_zero: bool, chars: &[u8]) -> Result<u64, Condition>
    requires { (2 ≤ base) × (base ≤ 36) }
    ensures { result ≡ amount_or_condition (number_in base (blanks_read blank_zero chars.now)) }
{
    if base == 10 {
        if let Some(amount) = plain_number(chars) {
            return Ok(amount);
        }
    }
    let mut some = false;
    let mut amount = Some(0);
    for c in chars {
        if *c == b' ' && !blank_zero {
            continue;
        }
        let digit = digit_of(*c);
        if digit >= base {
            return Err(Condition::NO_VALUE);
        }
        amount = one_more(amount, base, digit);
        some = true;
    }
    if some {
        amount.ok_or(Condition::OUT_OF_RANGE)
    } else {
        Err(Condition::NO_VALUE)
    }
}
