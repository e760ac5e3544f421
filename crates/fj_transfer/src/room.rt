// Texts in which records are built.
ghost use Rattle.std.specs.Prelude.{◌≡◌, [], IfOk};

use fj_value::Text;
use std::alloc::{AllocError, Global};

/// The bytes of a short record. A text has room for them before it has any, so that a short record is not moved as it grows.
const SHORT_RECORD: usize = 128;

/// A text without bytes, with room for a short record.
pub(crate) fn record_room(alloc: Global) -> Result<Text, AllocError>
    ensures { IfOk result (λ text. text ≡ []) }
{
    let mut text = Text::new(alloc);
    text.reserve(SHORT_RECORD)?;
    Ok(text)
}
