// The value of any variable under any data edit descriptor.
ghost use Rattle.std.specs.Prelude.{◌≡◌, IfOk, OnErr, IsSome};
ghost use Rattle.fj_value.specs.Kind.{text_length};
ghost use Rattle.fj_edit_in.specs.InputField.{input_field, Reads};

use crate::{read_bits, read_int, read_logical, read_text};
use fj_value::{Condition, Edit, EditModes, Kind, Value};
use std::alloc::{AllocError, Global};

/// Reads a field by its descriptor (ISO/IEC 1539-1:2004, 10.6), and under G by the variable's kind (10.6.4). `WRONG_DESCRIPTOR`
/// (12) comes where the descriptor is not for the kind, `NO_VALUE` (13) for characters that are no value, `OUT_OF_RANGE` (14) for
/// an integer that the kind does not have. Each leaves the variable, and so does want of memory.
pub fn read_field(
    alloc: Global,
    edit: Edit,
    kind: Kind,
    modes: EditModes,
    chars: &[u8],
    out: &mut Value,
) -> Result<Condition, AllocError>
    ensures ok { IfOk result (Reads (input_field edit kind modes.blank_zero chars.now) out.old out.new) }
    ensures err { OnErr result (out.new ≡ out.old) }
    ensures only_characters_take_memory { OnErr result (IsSome (text_length kind)) }
{
    match (edit, kind) {
        (Edit::Int { .. }, _) | (Edit::General { .. }, Kind::Int4 | Kind::Int8) => {
            read_int(alloc, edit, kind, modes, chars, out)
        }
        (Edit::Bits { .. }, _) => read_bits(alloc, edit, kind, modes, chars, out),
        (Edit::Log { .. }, _) | (Edit::General { .. }, Kind::Logical) => {
            read_logical(alloc, edit, kind, modes, chars, out)
        }
        (Edit::Chars { .. }, _) | (Edit::General { .. }, Kind::Chars(_)) => {
            read_text(alloc, edit, kind, modes, chars, out)
        }
    }
}
