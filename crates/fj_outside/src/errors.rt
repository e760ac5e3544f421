// Why a call on the outside was refused.
ghost use Rattle.std.specs.Prelude.{◌≡◌};

use std::alloc::{AllocError, AllocFailed};

/// The outside failed.
#[derive(Clone, Copy, Debug, PartialEq, Eq)]
pub struct Failed;

/// The outside failed, or memory was refused.
#[derive(Clone, Copy, Debug, PartialEq, Eq)]
pub enum Stop {
    Failed,
    Memory(AllocError),
}

impl From<Failed> for Stop {
    ghost use Rattle.fj_outside.specs.declared.errors.Stop.TheVariants.{Failed};

    ghost from_gives = { λ _ e. e ≡ Failed };

    fn from(_: Failed) -> Self {
        Stop::Failed
    }
}

impl From<AllocError> for Stop {
    ghost use Rattle.fj_outside.specs.declared.errors.Stop.TheVariants.{Memory};

    ghost from_gives = { λ a e. e ≡ Memory a };

    fn from(e: AllocError) -> Self {
        Stop::Memory(e)
    }
}

impl<T: Drop> From<AllocFailed<T>> for Stop {
    ghost use Rattle.std.specs.Prelude.{alloc_error};
    ghost use Rattle.fj_outside.specs.declared.errors.Stop.TheVariants.{Memory};

    ghost from_gives = { λ _ e. e ≡ Memory alloc_error };

    fn from(e: AllocFailed<T>) -> Self {
        Stop::Memory(AllocError::from(e))
    }
}
