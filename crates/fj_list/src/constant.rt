// The value of a constant, by the kind of the item.
ghost use Rattle.std.specs.Prelude.{◌≡◌, ◌≤◌, min, ◌^◌, ◌-◌, IfOk, if◌then◌else◌, Option};
ghost use Rattle.std.specs.Option.{option_map};
ghost use Rattle.fj_value.specs.Digits.{number_in};
ghost use Rattle.fj_value.specs.Kind.{fits_bits};
ghost use Rattle.fj_value.specs.Reading.{with_sign, in_range, truth_read, assigned_text};
ghost use Rattle.fj_list.specs.Constant.{integer_in, integer_read, logical_read, undelimited_read, delimited_read, read_as, signed_number};

use fj_value::{Condition, Kind, Text, Value, signed, truth_of};
use std::alloc::{AllocError, Global};

/// What stands for an item.
#[derive(Clone, Copy, Debug, PartialEq, Eq)]
pub enum Form {
    /// Nothing: a null value.
    Null,
    /// A constant without delimiters.
    Undelimited,
    /// A constant between apostrophes or quotation marks.
    Delimited,
}

/// What an item gets.
#[derive(Debug, Drop)]
pub enum Read {
    /// Nothing: it stays as it was.
    Null,
    Defined(Value),
    /// The characters are not a value of its kind.
    Wrong(Condition),
}

/// The number that decimal digits are, and `u64::MAX` for one that is greater; `None` where there are none, or other characters.
pub fn number(chars: &[u8]) -> Option<u64>
    ensures { result ≡ option_map (λ n. min n (2 ^ 64 - 1)) (number_in 10 chars.now) }
{
    if chars.is_empty() {
        return None;
    }
    let mut amount: u64 = 0;
    for c in chars {
        if !c.is_ascii_digit() {
            return None;
        }
        amount = amount
            .saturating_mul(10)
            .saturating_add(u64::from(*c - b'0'));
    }
    Some(amount)
}

/// The number of an amount and a sign.
fn read_signed(bits: u32, negative: bool, amount: u64) -> Read
    requires { (1 ≤ bits) × (bits ≤ 64) }
    ensures { result ≡ integer_read bits (Some (with_sign negative amount)) }
{
    match signed(bits, negative, amount) {
        Some(n) => Read::Defined(Value::Int(n)),
        None => Read::Wrong(Condition::OUT_OF_RANGE),
    }
}

fn signed_digits(bits: u32, negative: bool, digits: &[u8]) -> Read
    requires { (1 ≤ bits) × (bits ≤ 64) }
    ensures { result ≡ integer_read bits (signed_number negative digits.now) }
{
    match number(digits) {
        Some(amount) => read_signed(bits, negative, amount),
        None => Read::Wrong(Condition::NO_VALUE),
    }
}

fn read_integer(bits: u32, chars: &[u8]) -> Read
    requires { (1 ≤ bits) × (bits ≤ 64) }
    ensures { result ≡ integer_read bits (integer_in chars.now) }
{
    match chars {
        [] => Read::Wrong(Condition::NO_VALUE),
        [b'-', digits @ ..] => signed_digits(bits, true, digits),
        [b'+', digits @ ..] => signed_digits(bits, false, digits),
        _ => signed_digits(bits, false, chars),
    }
}

fn read_logical(chars: &[u8]) -> Read
    ensures { result ≡ logical_read (truth_read chars.now) }
{
    match truth_of(chars) {
        Some(truth) => Read::Defined(Value::Log(truth)),
        None => Read::Wrong(Condition::NO_VALUE),
    }
}

/// Characters as an assignment gives them to a variable of a length.
fn characters_of(alloc: Global, length: u32, chars: &[u8]) -> Result<Read, AllocError>
    ensures { IfOk result (λ read. read ≡ Read.Defined (Value.Chars (assigned_text length chars.now))) }
{
    let text = Text::assigned(alloc, length, chars)?;
    Ok(Read::Defined(Value::of_text(text)?))
}

fn read_undelimited(alloc: Global, kind: Kind, chars: &[u8]) -> Result<Read, AllocError>
    ensures { IfOk result (λ read. read ≡ undelimited_read kind chars.now) }
{
    match kind {
        Kind::Int4 => Ok(read_integer(32, chars)),
        Kind::Int8 => Ok(read_integer(64, chars)),
        Kind::Logical => Ok(read_logical(chars)),
        Kind::Chars(length) => characters_of(alloc, length, chars),
    }
}

fn read_delimited(alloc: Global, kind: Kind, chars: &[u8]) -> Result<Read, AllocError>
    ensures { IfOk result (λ read. read ≡ delimited_read kind chars.now) }
{
    match kind {
        Kind::Chars(length) => characters_of(alloc, length, chars),
        _ => Ok(Read::Wrong(Condition::NO_VALUE)),
    }
}

/// What a constant is for an item of a kind (ISO/IEC 1539-1:2004, 10.9.1). `Wrong` has `NO_VALUE` (13) where the characters are no
/// constant of the kind, and `OUT_OF_RANGE` (14) where it does not have the integer.
pub fn read_as(alloc: Global, kind: Kind, form: Form, chars: &[u8]) -> Result<Read, AllocError>
    ensures { IfOk result (λ read. read ≡ read_as kind form chars.now) }
{
    match form {
        Form::Null => Ok(Read::Null),
        Form::Undelimited => read_undelimited(alloc, kind, chars),
        Form::Delimited => read_delimited(alloc, kind, chars),
    }
}
