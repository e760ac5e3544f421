// The kinds of variables, and values as their kinds have them.
ghost use Rattle.std.specs.Prelude.{◌≡◌};
ghost use Rattle.fj_store.specs.Kinds.{kind_at, is_of_kind, of_kind};

use fj_value::{Kind, Value};

/// The kind of a variable.
pub(crate) fn kind_in(kinds: &[Kind], var: u32) -> Kind
    ensures { result ≡ kind_at kinds.now var }
{
    match kinds.get(var as usize) {
        Some(kind) => *kind,
        None => Kind::Logical,
    }
}

/// Whether a value is of a kind.
pub(crate) fn is_of_kind(kind: Kind, value: &Value) -> bool
    ensures { result ≡ is_of_kind kind value.now }
{
    match (kind, value) {
        (Kind::Int4, Value::Int(number)) => *number >= -2147483648 && *number < 2147483648,
        (Kind::Int8, Value::Int(number)) => *number <= i64::MAX,
        (Kind::Logical, Value::Log(_)) => true,
        (Kind::Chars(length), Value::Chars(text)) => text.bytes().len() == length as usize,
        _ => false,
    }
}

/// A value as a variable of this kind has it: one of another kind leaves it undefined.
pub(crate) fn of_kind(kind: Kind, value: Value) -> Value
    ensures { result ≡ of_kind kind value }
{
    if is_of_kind(kind, &value) {
        value
    } else {
        Value::Undefined
    }
}
