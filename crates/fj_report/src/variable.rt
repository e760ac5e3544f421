// Lines of variables.
ghost use Rattle.std.specs.Prelude.{◌≡◌, ◌<◌, ◌++◌, ◌∷◌, [], OnOk, OnErr, option_copied, true};
ghost use Rattle.std.specs.List.{flat_map};
ghost use Rattle.std.specs.Fmt.{digit_glyph};
ghost use Rattle.fj_report.specs.Lines.{KeepsFront, shown_byte, shown_value, shown_index, variable_text};

use crate::pieces::push_pieces;
use fj_value::{Text, Value, letter_of};
use itoa::Buffer;
use std::alloc::AllocError;

fn hexadecimal_digit(digit: u8) -> u8
    requires { digit < 16 }
    ensures { result ≡ digit_glyph true digit }
{
    if digit < 10 {
        b'0' + digit
    } else {
        b'A' - 10 + digit
    }
}

/// Appends a byte as it stands between apostrophes.
fn push_byte(out: &mut Text, byte: u8) -> Result<(), AllocError>
    ensures ok { OnOk result (out.new ≡ out.old ++ shown_byte byte) }
    ensures err { OnErr result (out.new ≡ out.old) }
{
    if byte == b'\'' {
        out.push_all(b"''")
    } else if byte == b'\\' || byte < 32 || 126 < byte {
        let high = hexadecimal_digit(byte / 16);
        let low = hexadecimal_digit(byte % 16);
        out.push_all(&[b'\\', high, low])
    } else {
        out.push_all(&[byte])
    }
}

fn append_bytes(out: &mut Text, bytes: &[u8]) -> Result<(), AllocError>
    ensures ok { OnOk result (out.new ≡ out.old ++ flat_map shown_byte bytes.now) }
    ensures err { OnErr result (KeepsFront out.old out.new) }
{
    for byte in bytes {
        push_byte(out, *byte)?;
    }
    Ok(())
}

#[tactic(auto, using(crate::proofs::Fronts::KeepsFront_behind))]
fn append_quoted(out: &mut Text, bytes: &[u8]) -> Result<(), AllocError>
    ensures ok { OnOk result (out.new ≡ out.old ++ (39 ∷ [] ++ flat_map shown_byte bytes.now ++ 39 ∷ [])) }
    ensures err { OnErr result (KeepsFront out.old out.new) }
{
    out.push_all(b"'")?;
    append_bytes(out, bytes)?;
    out.push_all(b"'")
}

fn append_value(out: &mut Text, value: Option<&Value>) -> Result<(), AllocError>
    ensures ok { OnOk result (out.new ≡ out.old ++ shown_value (option_copied value.entry)) }
    ensures err { OnErr result (KeepsFront out.old out.new) }
{
    match value {
        Some(Value::Int(number)) => {
            let mut buffer = Buffer::new();
            out.push_all(buffer.format(*number).as_bytes())
        }
        Some(Value::Log(truth)) => out.push_all(letter_of(*truth)),
        Some(Value::Chars(text)) => append_quoted(out, text.bytes()),
        Some(Value::Undefined) | None => out.push_all(b"?"),
    }
}

fn append_index(out: &mut Text, index: u32) -> Result<(), AllocError>
    ensures ok { OnOk result (out.new ≡ out.old ++ shown_index index) }
    ensures err { OnErr result (out.new ≡ out.old) }
{
    if index == 0 {
        return Ok(());
    }
    let mut number = Buffer::new();
    push_pieces(out, &[b"(", number.format(index).as_bytes(), b")"])
}

#[tactic(auto, using(crate::proofs::Fronts::KeepsFront_behind), unfolding(crate::specs::Lines::variable_text))]
fn append_variable(
    name: &[u8],
    index: u32,
    value: Option<&Value>,
    out: &mut Text,
) -> Result<(), AllocError>
    ensures ok { OnOk result (out.new ≡ out.old ++ variable_text name.now index (option_copied value.entry)) }
    ensures err { OnErr result (KeepsFront out.old out.new) }
{
    out.push_all(name)?;
    append_index(out, index)?;
    out.push_all(b" = ")?;
    append_value(out, value)?;
    out.push_all(b"\n")
}

/// The line of a variable, whose index is 0, or of an element. Want of memory leaves the text as it was.
pub fn variable_line(
    name: &[u8],
    index: u32,
    value: Option<&Value>,
    out: &mut Text,
) -> Result<(), AllocError>
    ensures ok { OnOk result (out.new ≡ out.old ++ variable_text name.now index (option_copied value.entry)) }
    ensures err { OnErr result (out.new ≡ out.old) }
{
    let start = out.len();
    match append_variable(name, index, value, out) {
        Ok(()) => Ok(()),
        Err(error) => {
            out.truncate(start);
            Err(error)
        }
    }
}
