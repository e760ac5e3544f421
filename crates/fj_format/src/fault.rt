// Why a text is refused as a format.
ghost use Rattle.std.specs.Prelude.{◌≡◌};
ghost use Rattle.fj_format.specs.declared.fault.FormatFault.TheVariants.{Memory};

use std::alloc::AllocError;
use thiserror::Error;

#[derive(Debug, Drop, Error)]
pub enum FormatFault {
    #[error(transparent)]
    Memory(AllocError),
    /// The text is no format. Its longest prefix that begins a format has this length.
    #[error("not a format at {at}")]
    NotAFormat { at: u32 },
    /// One pass of the format has more than 1,000,000 elementary items.
    #[error("a format of more than 1,000,000 elementary items")]
    TooMany,
}

impl From<AllocError> for FormatFault {
    ghost from_gives = { λ error fault. fault ≡ Memory error };

    fn from(error: AllocError) -> FormatFault {
        FormatFault::Memory(error)
    }
}
