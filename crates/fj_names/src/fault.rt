// Why a declaration or statement is refused.
ghost use Rattle.std.specs.Prelude.{◌≡◌};

use std::alloc::{AllocError, AllocFailed};
use thiserror::Error;

/// In the order in which one statement is looked at: its format, its meaning, the limits.
#[derive(Debug, Drop, Error)]
pub enum Fault {
    #[error(transparent)]
    Memory(AllocError),
    /// The format is none. Its longest front that begins a format has this length.
    #[error("not a format at {at}")]
    Format { at: u32 },
    /// A name, a subscript, a literal, a kind or a combination of specifiers that has no meaning.
    #[error("no meaning")]
    NoMeaning,
    /// Past a limit of this processor.
    #[error("past a limit")]
    TooMany,
}

impl From<AllocError> for Fault {
    ghost use Rattle.std.specs.Prelude.{◌≡◌};
    ghost use Rattle.fj_names.specs.declared.fault.Fault.TheVariants.{Memory};

    ghost from_gives = { λ error fault. fault ≡ Memory error };

    fn from(error: AllocError) -> Fault {
        Fault::Memory(error)
    }
}

impl<T: Drop> From<AllocFailed<T>> for Fault {
    ghost use Rattle.std.specs.Prelude.{◌≡◌, alloc_error};
    ghost use Rattle.fj_names.specs.declared.fault.Fault.TheVariants.{Memory};

    ghost from_gives = { λ _ fault. fault ≡ Memory alloc_error };

    fn from(_error: AllocFailed<T>) -> Fault {
        Fault::Memory(AllocError)
    }
}
