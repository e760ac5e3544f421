// Why a line is no statement.
ghost use Rattle.std.specs.Prelude.{◌≡◌, Ok, Err, if◌then◌else◌};
ghost use Rattle.fj_syntax.specs.Reading.{Gives};
ghost use Rattle.fj_syntax.specs.declared.fault.SyntaxFault.TheVariants.{NotAStatement};

use std::alloc::AllocError;

/// Why a line says nothing.
#[derive(Drop)]
pub enum SyntaxFault {
    Memory(AllocError),
    /// The line is not in the grammar.
    NotAStatement,
}

/// What a reading function answers.
pub type Read<T> = Result<T, SyntaxFault>;

/// What is there; the line is no statement where nothing is.
pub fn some<T: Drop>(there: Option<T>) -> Read<T>
    ensures { Gives (λ x. x) result there }
{
    there.ok_or(SyntaxFault::NotAStatement)
}

/// The line is no statement unless this holds.
pub fn must(holds: bool) -> Read<()>
    ensures { result ≡ (if holds then Ok tt else Err NotAStatement) }
{
    holds.then_some(()).ok_or(SyntaxFault::NotAStatement)
}

impl From<AllocError> for SyntaxFault {
    ghost use Rattle.fj_syntax.specs.declared.fault.SyntaxFault.TheVariants.{Memory};

    ghost from_gives = { λ error fault. fault ≡ Memory error };

    fn from(error: AllocError) -> SyntaxFault {
        SyntaxFault::Memory(error)
    }
}
