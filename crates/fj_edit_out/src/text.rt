// Characters: A, and G at characters.
ghost use Rattle.std.specs.Prelude.{◌≡◌, ◌++◌, IfOk, OnOk, OnErr, option_copied};
ghost use Rattle.fj_edit_out.specs.Item.{text_in};
ghost use Rattle.fj_edit_out.specs.OutputField.{text_field, text_output, Appends};

use crate::adjust::push_behind_blanks;
use fj_value::{Condition, Edit, EditModes, Kind, Text, Value};
use std::alloc::AllocError;

fn characters_of(kind: Kind, value: &Value) -> Option<&[u8]>
    ensures { option_copied result ≡ text_in kind value.now }
{
    match (kind, value) {
        (Kind::Chars(_), Value::Chars(text)) => Some(text.bytes()),
        _ => None,
    }
}

fn push_text(out: &mut Text, w: Option<u32>, characters: &[u8]) -> Result<(), AllocError>
    ensures ok { OnOk result (out.new ≡ out.old ++ text_field w characters.now) }
    ensures err { OnErr result (out.new ≡ out.old) }
{
    let Some(w) = w else {
        return out.push_all(characters);
    };
    let taken = characters.len().min(w as usize);
    push_behind_blanks(out, w - taken as u32, &characters[..taken])
}

/// Appends the field of characters under A or G (ISO/IEC 1539-1:2004, 10.6.3 and 10.6.4). The number of characters is the value's
/// own. `WRONG_DESCRIPTOR` (12) appends nothing: it comes for another descriptor, kind or value.
pub fn text_field(
    edit: Edit,
    value: &Value,
    kind: Kind,
    _modes: EditModes,
    out: &mut Text,
) -> Result<Condition, AllocError>
    ensures ok { IfOk result (Appends (text_output edit value.now kind) out.old out.new) }
    ensures err { OnErr result (out.new ≡ out.old) }
{
    let Some(w) = edit.text_width() else {
        return Ok(Condition::WRONG_DESCRIPTOR);
    };
    let Some(characters) = characters_of(kind, value) else {
        return Ok(Condition::WRONG_DESCRIPTOR);
    };
    push_text(out, w, characters)?;
    Ok(Condition::Fine)
}
