// Why a transfer is not entered.
ghost use Rattle.std.specs.Prelude.{◌≡◌};
ghost use Rattle.fj_run_pending.specs.declared.lost.Lost.TheVariants.{Memory};

use std::alloc::AllocError;

#[derive(Drop)]
pub enum Lost {
    Memory(AllocError),
    /// It does not come behind the others.
    Unfit,
}

impl From<AllocError> for Lost {
    ghost from_gives = { λ error lost. lost ≡ Memory error };

    fn from(error: AllocError) -> Lost {
        Lost::Memory(error)
    }
}
