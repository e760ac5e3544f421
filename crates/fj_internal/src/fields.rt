// The field of a data edit descriptor in a record (ISO/IEC 1539-1:2004, 10.6).
ghost use Rattle.std.specs.Prelude.{◌≡◌, ◌-◌, ◌++◌, length, take, drop, replicate, if◌then◌else◌, Ok, Err, IfOk};
ghost use Rattle.fj_edit_in.specs.InputField.{input_field};
ghost use Rattle.fj_transfer.specs.Input.{width_for, without_padding};
ghost use Rattle.fj_transfer.specs.Reader.{is_fine};

use fj_edit_in::read_field;
use fj_value::{Condition, Edit, EditModes, Kind, Text, Value};
use std::alloc::{AllocError, Global};

/// How many characters a descriptor takes for an item of a kind.
pub fn width_for(edit: Edit, kind: Kind) -> u32
    ensures { result ≡ width_for edit kind }
{
    match (edit, kind) {
        (Edit::Int { w, .. }, _) | (Edit::Bits { w, .. }, _) | (Edit::Log { w }, _) => w,
        (Edit::Chars { w: Some(w) }, _) | (Edit::General { w, .. }, _) => w,
        (Edit::Chars { w: None }, Kind::Chars(length)) => length,
        (Edit::Chars { w: None }, _) => 0,
    }
}

/// The characters that are there for a field of this width.
pub fn characters_for(text: &[u8], at: u64, width: u32) -> &[u8]
    ensures { result.now ≡ take width (drop at text.now) }
{
    let size = text.len();
    let from = at.min(size as u64) as usize;
    let to = from + (width as usize).min(size - from);
    &text[from..to]
}

/// The value, or the condition in place of one.
fn told(condition: Condition, value: Value) -> Result<Value, Condition>
    ensures { result ≡ (if is_fine condition then Ok value else Err condition) }
{
    match condition {
        Condition::Fine => Ok(value),
        condition => Err(condition),
    }
}

/// The value of a field that is all there.
fn whole_value(
    alloc: Global,
    edit: Edit,
    kind: Kind,
    modes: EditModes,
    chars: &[u8],
) -> Result<Result<Value, Condition>, AllocError>
    ensures { IfOk result (λ read. read ≡ input_field edit kind modes.blank_zero chars.now) }
{
    let mut value = Value::Undefined;
    let condition = read_field(alloc, edit, kind, modes, chars, &mut value)?;
    Ok(told(condition, value))
}

/// The value of a field of which these characters are there, filled up with blanks.
fn filled_value(
    alloc: Global,
    edit: Edit,
    kind: Kind,
    modes: EditModes,
    chars: &[u8],
    width: u32,
) -> Result<Result<Value, Condition>, AllocError>
    ensures { IfOk result (λ read. read ≡ input_field edit kind modes.blank_zero (chars.now ++ replicate (width - length chars.now) 32)) }
{
    let mut filled = Text::from_bytes(alloc, chars)?;
    filled.fill_to(width as usize, b' ')?;
    whole_value(alloc, edit, kind, modes, filled.bytes())
}

/// The value of a field of which these characters are there, filled up with blanks. Without padding a field that is too
/// short has no value, and no condition but 12.
pub fn field_value(
    alloc: Global,
    edit: Edit,
    kind: Kind,
    modes: EditModes,
    chars: &[u8],
    width: u32,
) -> Result<Result<Value, Condition>, AllocError>
    ensures { IfOk result (λ read. read ≡ without_padding modes.pad width chars.now
        (input_field edit kind modes.blank_zero (chars.now ++ replicate (width - length chars.now) 32))) }
{
    if chars.len() == width as usize {
        return whole_value(alloc, edit, kind, modes, chars);
    }
    let read = filled_value(alloc, edit, kind, modes, chars, width)?;
    if modes.pad {
        return Ok(read);
    }
    match read {
        Err(Condition::Error(12)) => Ok(read),
        _ => Ok(Ok(Value::Undefined)),
    }
}
