// Why an output is not written.
ghost use Rattle.std.specs.Prelude.{◌≡◌};
ghost use Rattle.fj_line.specs.declared.unwritten.Unwritten.TheVariants.{Memory};
ghost use Rattle.fj_line.specs.Page.{told_by};

use fj_value::Condition;
use std::alloc::AllocError;

/// Why an output is not written.
#[derive(Drop)]
pub enum Unwritten {
    Met(Condition),
    Memory(AllocError),
}

impl From<AllocError> for Unwritten {
    ghost from_gives = { λ error unwritten. unwritten ≡ Memory error };

    fn from(error: AllocError) -> Unwritten {
        Unwritten::Memory(error)
    }
}

impl Unwritten {
    /// The condition, or want of memory.
    pub fn told(self) -> Result<Condition, AllocError>
        ensures { result ≡ told_by self }
    {
        match self {
            Unwritten::Met(condition) => Ok(condition),
            Unwritten::Memory(error) => Err(error),
        }
    }
}
