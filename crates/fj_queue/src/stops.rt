//! What the words of the table say of a slot's stop.
ghost use Rattle.std.specs.Prelude.{◌≡◌, ◌≤◌, true};
ghost use Rattle.fj_queue.specs.Cell.{stops_of, code_of, stop_code};

use fj_outside::Stop;
use fj_slot::{Engine, Halt, Slot};

/// The word for a stop: 1 where the outside failed, 2 where memory was refused.
pub(crate) fn code(stop: Stop) -> u64
    ensures { result ≡ code_of stop }
{
    match stop {
        Stop::Failed => 1,
        Stop::Memory(_) => 2,
    }
}

/// The word for a stop, or 0 where there is none.
pub(crate) fn stop_word(halt: Option<Halt>) -> u64
    ensures { result ≡ stop_code halt }
{
    match halt {
        Some(halt) => code(halt.stop),
        None => 0,
    }
}

/// The number of jobs that ended without being done.
pub(crate) fn stop_count(halt: Option<Halt>) -> u64
    ensures { result ≡ stops_of halt }
{
    match halt {
        Some(_) => 1,
        None => 0,
    }
}

/// Whether each job that was told is done.
pub(crate) fn all_answered<E: Engine>(slot: &Slot<E>) -> bool
    ensures only { result ≡ true → slot.now.told ≤ slot.now.done }
    ensures each { slot.now.told ≤ slot.now.done → result ≡ true }
{
    slot.told() <= slot.done()
}
