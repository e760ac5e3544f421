// Why a line is refused, and why a text is no deck.
ghost use Rattle.std.specs.Prelude.{◌≡◌};
ghost use Rattle.fj_deck.specs.Faults.{at_line};

use fj_names::Fault;
use fj_statement::Reason;
use fj_syntax::SyntaxFault;
use std::alloc::AllocError;
use thiserror::Error;

/// Why a text is no deck.
#[derive(Debug, Drop, Error)]
pub enum DeckFault {
    #[error("out of memory")]
    Memory(AllocError),
    /// The first line that is refused, from 1 on, and why.
    #[error("line {line} is refused")]
    Refused { line: u32, reason: Reason },
}

/// Why a line adds nothing to a deck.
#[derive(Drop)]
pub enum LineFault {
    Memory(AllocError),
    Refused(Reason),
}

impl LineFault {
    /// The fault of the text whose line of this number it is.
    pub fn at(self, line: u32) -> DeckFault
        ensures { result ≡ at_line line self }
    {
        match self {
            LineFault::Memory(error) => DeckFault::Memory(error),
            LineFault::Refused(reason) => DeckFault::Refused { line, reason },
        }
    }
}

impl From<AllocError> for LineFault {
    ghost use Rattle.std.specs.Prelude.{◌≡◌};
    ghost use Rattle.fj_deck.specs.declared.fault.LineFault.TheVariants.{Memory};

    ghost from_gives = { λ error fault. fault ≡ Memory error };

    fn from(error: AllocError) -> LineFault {
        LineFault::Memory(error)
    }
}

impl From<SyntaxFault> for LineFault {
    ghost use Rattle.std.specs.Prelude.{◌≡◌};
    ghost use Rattle.fj_deck.specs.Faults.{of_syntax};

    ghost from_gives = { λ error fault. fault ≡ of_syntax error };

    fn from(error: SyntaxFault) -> LineFault {
        match error {
            SyntaxFault::Memory(error) => LineFault::Memory(error),
            SyntaxFault::NotAStatement => LineFault::Refused(Reason::Syntax),
        }
    }
}

impl From<Fault> for LineFault {
    ghost use Rattle.std.specs.Prelude.{◌≡◌};
    ghost use Rattle.fj_deck.specs.Faults.{of_meaning};

    ghost from_gives = { λ error fault. fault ≡ of_meaning error };

    fn from(error: Fault) -> LineFault {
        match error {
            Fault::Memory(error) => LineFault::Memory(error),
            Fault::Format { at } => LineFault::Refused(Reason::Format { at }),
            Fault::NoMeaning => LineFault::Refused(Reason::Meaning),
            Fault::TooMany => LineFault::Refused(Reason::TooMany),
        }
    }
}
