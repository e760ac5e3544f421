// Why a run is given up.
ghost use Rattle.std.specs.Prelude.{◌≡◌, ◌≢◌, ◌↔◌};
ghost use Rattle.fj_run_pending.specs.declared.lost.Lost.TheVariants as entry;

use fj_outside::Stop;
use fj_run_items::Lost;

/// Where OPEN stopped.
pub(crate) fn lost_by_stop(stop: Stop) -> Lost
    ensures disk { (result ≡ Lost.Disk) ↔ (stop ≡ Stop.Failed) }
    ensures sink { result ≢ Lost.Sink }
    ensures fits { result ≢ Lost.Unfit }
{
    match stop {
        Stop::Failed => Lost::Disk,
        Stop::Memory(error) => Lost::Memory(error),
    }
}

/// Where a transfer was not entered.
pub(crate) fn lost_by_entry(lost: fj_run_pending::Lost) -> Lost
    ensures causes { (result ≢ Lost.Disk) × (result ≢ Lost.Sink) }
    ensures fits { (result ≡ Lost.Unfit) ↔ (lost ≡ entry.Unfit) }
{
    match lost {
        fj_run_pending::Lost::Memory(error) => Lost::Memory(error),
        _ => Lost::Unfit,
    }
}
