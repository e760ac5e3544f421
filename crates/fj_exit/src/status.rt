// The exit status of each answer.
ghost use Rattle.std.specs.Prelude.{◌≡◌};
ghost use Rattle.fj_exit.specs.Status.{exit_status_of};

use fj_report::Status;

/// The exit status where memory is refused.
const NO_MEMORY: u8 = 9;

/// With which status a program ends that was answered so.
pub fn exit_status(status: Status) -> u8
    ensures { result ≡ exit_status_of status }
{
    match status {
        Status::Ended => 0,
        Status::ErrorStop { .. } => 2,
        Status::Prohibited { .. } => 3,
        Status::DeckRefused { .. } => 4,
        Status::Usage => 5,
        Status::ReadFault => 6,
        Status::WriteFault => 7,
        Status::DiskFault { .. } => 8,
        Status::Memory => NO_MEMORY,
    }
}
