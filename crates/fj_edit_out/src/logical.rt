// Logicals: L, and G at logicals.
ghost use Rattle.std.specs.Prelude.{◌≡◌, IfOk, OnErr};
ghost use Rattle.fj_edit_out.specs.Item.{logical_in};
ghost use Rattle.fj_edit_out.specs.OutputField.{logical_field, logical_output, Appends};

use crate::adjust::push_behind_blanks;
use fj_value::{Condition, Edit, EditModes, Kind, Text, Value, letter_of};
use std::alloc::AllocError;

fn truth_of(kind: Kind, value: &Value) -> Option<bool>
    ensures { result ≡ logical_in kind value.now }
{
    match (kind, value) {
        (Kind::Logical, Value::Log(truth)) => Some(*truth),
        _ => None,
    }
}

/// Appends the field of a logical under L or G (ISO/IEC 1539-1:2004, 10.6.2 and 10.6.4). Width 0 gives the letter alone.
/// `WRONG_DESCRIPTOR` (12) appends nothing: it comes for another descriptor, kind or value.
pub fn logical_field(
    edit: Edit,
    value: &Value,
    kind: Kind,
    _modes: EditModes,
    out: &mut Text,
) -> Result<Condition, AllocError>
    ensures ok { IfOk result (Appends (logical_output edit value.now kind) out.old out.new) }
    ensures err { OnErr result (out.new ≡ out.old) }
{
    let Some(w) = edit.logical_width() else {
        return Ok(Condition::WRONG_DESCRIPTOR);
    };
    let Some(truth) = truth_of(kind, value) else {
        return Ok(Condition::WRONG_DESCRIPTOR);
    };
    push_behind_blanks(out, w.saturating_sub(1), letter_of(truth))?;
    Ok(Condition::Fine)
}
