// Why a statement is not carried to its end.
use fj_outside::Stop;
use std::alloc::AllocError;

/// Why a run is given up inside a statement.
#[derive(Clone, Copy, PartialEq, Eq)]
pub enum Lost {
    Memory(AllocError),
    /// The sink of the output failed.
    Sink,
    /// The disk, or a file, failed.
    Disk,
    /// What is there is not what is due.
    Unfit,
}

impl From<AllocError> for Lost {
    ghost use Rattle.std.specs.Prelude.{◌≡◌};
    ghost use Rattle.fj_run_items.specs.declared.lost.Lost.TheVariants.{Memory};

    ghost from_gives = { λ error lost. lost ≡ Memory error };

    fn from(error: AllocError) -> Lost {
        Lost::Memory(error)
    }
}

impl Lost {
    ghost use Rattle.std.specs.Prelude.{◌≡◌, ◌≢◌, ◌↔◌};
    ghost use Rattle.fj_run_items.specs.declared.lost.Lost.TheVariants.{Sink, Disk, Unfit};
    ghost use Rattle.fj_outside.specs.declared.errors.Stop.TheVariants.{Failed};

    /// Of a sink that stopped.
    pub(crate) fn of_sink(stop: Stop) -> Lost
        ensures sink { (result ≡ Sink) ↔ (stop ≡ Failed) }
        ensures causes { (result ≢ Disk) × (result ≢ Unfit) }
    {
        match stop {
            Stop::Failed => Lost::Sink,
            Stop::Memory(error) => Lost::Memory(error),
        }
    }
}
