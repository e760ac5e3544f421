// Values as the variables of a statement get them.
ghost use Rattle.std.specs.Prelude.{◌≡◌, ◌+◌, pos, IfOk};
ghost use Rattle.fj_value.specs.Reading.{with_sign};
ghost use Rattle.fj_inquire.specs.Values.{number_for, word_for};

use fj_value::{Kind, Text, Value, signed};
use std::alloc::{AllocError, Global};

/// A number by its sign and amount.
fn with_sign(kind: Kind, negative: bool, amount: u64) -> Value
    ensures { result ≡ number_for kind (with_sign negative amount) }
{
    let Some(bits) = kind.integer_bits() else {
        return Value::Undefined;
    };
    match signed(bits, negative, amount) {
        Some(number) => Value::Int(number),
        None => Value::Undefined,
    }
}

/// A number for an integer variable; one that its kind does not have makes it undefined.
pub(crate) fn number(kind: Kind, number: i64) -> Value
    ensures { result ≡ number_for kind number }
{
    with_sign(kind, number < 0, number.unsigned_abs())
}

/// The same of a count.
pub(crate) fn count(kind: Kind, count: u64) -> Value
    ensures { result ≡ number_for kind (pos count) }
{
    with_sign(kind, false, count)
}

/// The same of the number behind a count.
pub(crate) fn count_behind(kind: Kind, before: u64) -> Value
    ensures { result ≡ number_for kind (pos (before + 1)) }
{
    match before.checked_add(1) {
        Some(number) => count(kind, number),
        None => Value::Undefined,
    }
}

/// A word for a character variable, as an assignment gives it (7.4.1.3).
pub(crate) fn word(alloc: Global, kind: Kind, word: &str) -> Result<Value, AllocError>
    ensures { IfOk result (λ value. value ≡ word_for kind word.now) }
{
    match kind {
        Kind::Chars(length) => Value::of_text(Text::assigned(alloc, length, word.as_bytes())?),
        _ => Ok(Value::Undefined),
    }
}
