// The modes in effect during a transfer.
ghost use Rattle.std.specs.Prelude.{◌≡◌};
ghost use Rattle.fj_control.specs.Paired.{modes_behind};

use fj_format::ModeStep;
use fj_value::EditModes;

/// The modes after a control edit descriptor (ISO/IEC 1539-1:2004, 10.7.4, 10.7.6 and 10.7.8).
pub fn modes_behind(mode: ModeStep, modes: EditModes) -> EditModes
    ensures { result ≡ modes_behind mode modes }
{
    let mut modes = modes;
    match mode {
        ModeStep::Plus => modes.plus = true,
        ModeStep::Suppress | ModeStep::Usual => modes.plus = false,
        ModeStep::BlankNull => modes.blank_zero = false,
        ModeStep::BlankZero => modes.blank_zero = true,
        ModeStep::Comma => modes.comma = true,
        ModeStep::Point => modes.comma = false,
    }
    modes
}
