// Why closing was not carried to its end.
ghost use Rattle.std.specs.Prelude.{◌≡◌, ◌⊎◌, true, Err, IsOk, OnOk, is_err};
ghost use Rattle.fj_run_end.specs.Losing.{after, is_memory};

use fj_outside::{Failed, Stop};

/// Of two steps: want of memory, else a failure.
pub(crate) fn after(first: Result<(), Stop>, then: Result<(), Stop>) -> Result<(), Stop>
    ensures { result ≡ after first then }
{
    let Err(stop) = first else {
        return then;
    };
    match (stop, then) {
        (Stop::Failed, Err(other)) => Err(other),
        _ => Err(stop),
    }
}

/// Of what ended a connection's record, whether its file counts faults, and of the file's return. A failure that its file does
/// not count is none.
pub(crate) fn stop_by(
    ended: Result<(), Stop>,
    hurt: bool,
    given: Result<(), Failed>,
) -> Result<(), Stop>
    ensures ok { (ended ≡ Err Stop.Failed → hurt ≡ true) → OnOk result (IsOk ended × IsOk given) }
    ensures failed { result ≡ Err Stop.Failed → (hurt ≡ true) ⊎ (is_err given ≡ true) }
    ensures memory { is_memory result ≡ is_memory ended }
{
    if let Err(Stop::Memory(error)) = ended {
        return Err(Stop::Memory(error));
    }
    if ended.is_err() && hurt || given.is_err() {
        return Err(Stop::Failed);
    }
    Ok(())
}
