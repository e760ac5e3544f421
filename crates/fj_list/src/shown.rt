// The text of a value in list-directed output.
ghost use Rattle.std.specs.Prelude.{◌≡◌, ◌≤◌, ◌++◌, OnOk, OnErr, length, take, replicate};
ghost use Rattle.fj_list.specs.ListText.{mark_of, doubled, characters_shown, integer_shown, shown, gap, is_characters};

use fj_value::{Delim, EditModes, Text, Value, letter_of, sign_of};
use itoa::write_digits;
use std::alloc::AllocError;

/// The mark round characters.
pub fn mark_of(delim: Delim) -> Option<u8>
    ensures { result ≡ mark_of delim }
{
    match delim {
        Delim::Plain => None,
        Delim::Apostrophe => Some(b'\''),
        Delim::Quote => Some(b'"'),
    }
}

/// Whether a value is of type CHARACTER.
pub fn is_characters(value: &Value) -> bool
    ensures { result ≡ is_characters value.now }
{
    matches!(value, Value::Chars(_))
}

/// What stands before a value that is not the first in its record.
pub fn gap(modes: EditModes, before: bool, after: bool) -> &'static [u8]
    ensures { result.now ≡ gap modes before after }
{
    if before && after && modes.delim == Delim::Plain {
        b""
    } else {
        b" "
    }
}

/// Writes an integer before the end of blanks, and answers where it begins.
fn write_integer(buffer: &mut [u8; 24], plus: bool, n: i64) -> usize
    requires { buffer.old ≡ replicate 24 32 }
    ensures room { 3 ≤ result }
    ensures written { buffer.new ≡ replicate result 32 ++ integer_shown plus n }
{
    let sign = sign_of(plus, n);
    let start = write_digits(n.unsigned_abs(), buffer, 24);
    if sign.is_empty() {
        return start;
    }
    buffer[start - 1] = sign[0];
    start - 1
}

/// Appends at most three blanks and an integer.
fn push_integer(out: &mut Text, blanks: usize, plus: bool, n: i64) -> Result<(), AllocError>
    requires { blanks ≤ 3 }
    ensures ok { OnOk result (out.new ≡ out.old ++ (replicate blanks 32 ++ integer_shown plus n)) }
    ensures err { OnErr result (out.new ≡ out.old) }
{
    let mut buffer = [b' '; 24];
    let start = write_integer(&mut buffer, plus, n);
    out.push_all(&buffer[start - blanks..])
}

/// Appends characters with each mark among them doubled.
#[tactic(auto, using(crate::proofs::Doubling::take_grown))]
fn push_doubled(out: &mut Text, mark: u8, characters: &[u8]) -> Result<(), AllocError>
    ensures ok { OnOk result (out.new ≡ out.old ++ doubled mark characters.now) }
    ensures kept { take (length out.old) out.new ≡ out.old }
{
    let mut start = 0;
    for (i, c) in characters.iter().enumerate() {
        if *c == mark {
            out.push_all(&characters[start..=i])?;
            start = i;
        }
    }
    out.push_all(&characters[start..])
}

#[tactic(auto, using(crate::proofs::Doubling::take_grown))]
fn push_characters(out: &mut Text, mark: Option<u8>, characters: &[u8]) -> Result<(), AllocError>
    ensures ok { OnOk result (out.new ≡ out.old ++ characters_shown mark characters.now) }
    ensures kept { take (length out.old) out.new ≡ out.old }
{
    let Some(mark) = mark else {
        return out.push_all(characters);
    };
    out.push_all(&[mark])?;
    push_doubled(out, mark, characters)?;
    out.push_all(&[mark])
}

/// Appends the text of a value in list-directed output (ISO/IEC 1539-1:2004, 10.9.2), or after want of memory a part of it.
pub fn push_value(out: &mut Text, modes: EditModes, value: &Value) -> Result<(), AllocError>
    ensures ok { OnOk result (out.new ≡ out.old ++ shown modes value.now) }
    ensures kept { take (length out.old) out.new ≡ out.old }
{
    match value {
        Value::Undefined => Ok(()),
        Value::Int(n) => push_integer(out, 0, modes.plus, *n),
        Value::Log(truth) => out.push_all(letter_of(*truth)),
        Value::Chars(text) => push_characters(out, mark_of(modes.delim), text.bytes()),
    }
}

/// Appends a value with what stands between it and the one before it, or after want of memory a part of that.
#[tactic(auto, using(crate::proofs::Doubling::take_grown))]
pub fn push_next(
    out: &mut Text,
    modes: EditModes,
    characters: bool,
    value: &Value,
) -> Result<(), AllocError>
    ensures ok { OnOk result (out.new ≡ out.old ++ (gap modes characters (is_characters value.now) ++ shown modes value.now)) }
    ensures kept { take (length out.old) out.new ≡ out.old }
{
    if let Value::Int(n) = value {
        return push_integer(out, 1, modes.plus, *n);
    }
    out.push_all(gap(modes, characters, is_characters(value)))?;
    push_value(out, modes, value)
}
