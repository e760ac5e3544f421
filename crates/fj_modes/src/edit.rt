// The modes of formatted editing that an OPEN statement gives (ISO/IEC 1539-1:2004, 9.4.5).
ghost use Rattle.std.specs.Prelude.{◌≡◌};
ghost use Rattle.fj_modes.specs.OpenSpec.{names_edit_mode};
ghost use Rattle.fj_modes.specs.Modes.{usual_edit, edit_asked};

use crate::specifiers::OpenSpec;
use fj_value::{Delim, EditModes};

/// The modes of formatted editing where no specifier gives another (ISO/IEC 1539-1:2004, 9.4.5).
pub fn usual_edit() -> EditModes
    ensures { result ≡ usual_edit }
{
    EditModes {
        blank_zero: false,
        comma: false,
        delim: Delim::Plain,
        pad: true,
        plus: false,
    }
}

/// Each mode as the statement gives it, else as it was before.
pub fn edit_asked(before: EditModes, spec: &OpenSpec) -> EditModes
    ensures { result ≡ edit_asked before spec.now }
{
    EditModes {
        blank_zero: spec.blank_zero.unwrap_or(before.blank_zero),
        comma: spec.comma.unwrap_or(before.comma),
        delim: spec.delim.unwrap_or(before.delim),
        pad: spec.pad.unwrap_or(before.pad),
        plus: spec.plus.unwrap_or(before.plus),
    }
}

/// Whether the statement gives one of these modes.
pub fn names_edit_mode(spec: &OpenSpec) -> bool
    ensures { result ≡ names_edit_mode spec.now }
{
    spec.blank_zero.is_some()
        || spec.comma.is_some()
        || spec.delim.is_some()
        || spec.pad.is_some()
        || spec.plus.is_some()
}
