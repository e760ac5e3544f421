// The modes that a transfer changes for itself.
ghost use Rattle.std.specs.Prelude.{◌≡◌};
ghost use Rattle.fj_transfer.specs.Change.{changed};

use fj_value::{Delim, EditModes};

/// The changeable modes that a READ or WRITE names (ISO/IEC 1539-1:2004, 9.5.1). The others stay as they are.
#[derive(Clone, Copy, Debug, PartialEq, Eq)]
pub struct EditChange {
    /// BLANK='ZERO'.
    pub blank_zero: Option<bool>,
    /// DECIMAL='COMMA'.
    pub comma: Option<bool>,
    pub delim: Option<Delim>,
    /// PAD='YES'.
    pub pad: Option<bool>,
    /// SIGN='PLUS'.
    pub plus: Option<bool>,
}

impl EditChange {
    /// The modes during the transfer (ISO/IEC 1539-1:2004, 9.5.1): those that it names, and the others as they are.
    pub fn change(&self, modes: EditModes) -> EditModes
        ensures { result ≡ changed self.now modes }
    {
        EditModes {
            blank_zero: self.blank_zero.unwrap_or(modes.blank_zero),
            comma: self.comma.unwrap_or(modes.comma),
            delim: self.delim.unwrap_or(modes.delim),
            pad: self.pad.unwrap_or(modes.pad),
            plus: self.plus.unwrap_or(modes.plus),
        }
    }
}
