// Logicals: L, and G at logicals.
ghost use Rattle.std.specs.Prelude.{◌≡◌, IsOkAnd};
ghost use Rattle.fj_value.specs.Reading.{truth_read};
ghost use Rattle.fj_edit_in.specs.InputField.{logical_input, trimmed, Reads};

use crate::trim::skip_blanks;
use fj_value::{Condition, Edit, EditModes, Kind, Value, truth_of};
use std::alloc::{AllocError, Global};

/// Reads a logical under L or G (ISO/IEC 1539-1:2004, 10.6.2 and 10.6.4). `WRONG_DESCRIPTOR` (12) comes for another descriptor or
/// kind, `NO_VALUE` (13) for other characters; each leaves the variable. It takes no memory.
pub fn read_logical(
    _alloc: Global,
    edit: Edit,
    kind: Kind,
    _modes: EditModes,
    chars: &[u8],
    out: &mut Value,
) -> Result<Condition, AllocError>
    ensures { IsOkAnd result (Reads (logical_input edit kind chars.now) out.old out.new) }
{
    let (Some(_), Kind::Logical) = (edit.logical_width(), kind) else {
        return Ok(Condition::WRONG_DESCRIPTOR);
    };
    match truth_of(skip_blanks(chars)) {
        Some(truth) => {
            *out = Value::Log(truth);
            Ok(Condition::Fine)
        }
        None => Ok(Condition::NO_VALUE),
    }
}
