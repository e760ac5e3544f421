// The field of any item under any data edit descriptor.
ghost use Rattle.std.specs.Prelude.{◌≡◌, IfOk, OnErr};
ghost use Rattle.fj_edit_out.specs.OutputField.{output_field, Appends};

use crate::{bits_field, int_field, logical_field, text_field};
use fj_value::{Condition, Edit, EditModes, Kind, Text, Value};
use std::alloc::AllocError;

/// Appends the field of an item by its descriptor (ISO/IEC 1539-1:2004, 10.6), and under G by its kind (10.6.4). `WRONG_DESCRIPTOR`
/// (12) appends nothing: it comes where the descriptor is not for the item.
pub fn field(
    edit: Edit,
    value: &Value,
    kind: Kind,
    modes: EditModes,
    out: &mut Text,
) -> Result<Condition, AllocError>
    ensures ok { IfOk result (Appends (output_field edit value.now kind modes.plus) out.old out.new) }
    ensures err { OnErr result (out.new ≡ out.old) }
{
    match (edit, kind) {
        (Edit::Int { .. }, _) | (Edit::General { .. }, Kind::Int4 | Kind::Int8) => {
            int_field(edit, value, kind, modes, out)
        }
        (Edit::Bits { .. }, _) => bits_field(edit, value, kind, modes, out),
        (Edit::Log { .. }, _) | (Edit::General { .. }, Kind::Logical) => {
            logical_field(edit, value, kind, modes, out)
        }
        (Edit::Chars { .. }, _) | (Edit::General { .. }, Kind::Chars(_)) => {
            text_field(edit, value, kind, modes, out)
        }
    }
}
