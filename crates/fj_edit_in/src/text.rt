// Characters: A, and G at characters.
ghost use Rattle.std.specs.Prelude.{◌≡◌, IfOk, OnErr, IsSome};
ghost use Rattle.fj_value.specs.Kind.{text_length};
ghost use Rattle.fj_edit_in.specs.InputField.{text_input, characters_read, Reads};

use fj_value::{Condition, Edit, EditModes, Kind, Text, Value};
use std::alloc::{AllocError, Global};

/// The last characters, up to the length of the variable, with blanks behind where there are fewer.
fn characters_of(alloc: Global, length: u32, chars: &[u8]) -> Result<Text, AllocError>
    ensures { IfOk result (λ text. text ≡ characters_read length chars.now) }
{
    let skipped = chars.len().saturating_sub(length as usize);
    Text::assigned(alloc, length, &chars[skipped..])
}

/// Reads characters under A or G (ISO/IEC 1539-1:2004, 10.6.3 and 10.6.4): the last ones where they are more than the variable has,
/// else all of them and blanks. `WRONG_DESCRIPTOR` (12) comes for another descriptor or kind. It leaves the variable, and so does
/// want of memory.
pub fn read_text(
    alloc: Global,
    edit: Edit,
    kind: Kind,
    _modes: EditModes,
    chars: &[u8],
    out: &mut Value,
) -> Result<Condition, AllocError>
    ensures ok { IfOk result (Reads (text_input edit kind chars.now) out.old out.new) }
    ensures err { OnErr result (out.new ≡ out.old) }
    ensures only_characters_take_memory { OnErr result (IsSome (text_length kind)) }
{
    let (Some(_), Kind::Chars(length)) = (edit.text_width(), kind) else {
        return Ok(Condition::WRONG_DESCRIPTOR);
    };
    let text = characters_of(alloc, length, chars)?;
    out.set_chars(text)?;
    Ok(Condition::Fine)
}
