// The jobs that are left are performed.
ghost use Rattle.std.specs.Prelude.{◌≡◌, ◌+◌, ◌⊎◌, ◌&&◌, true, None, is_none, is_some, length, nat_lt};
ghost use Rattle.fj_slot.specs.Ledger.{can_begin, IsSized};
ghost use Rattle.fj_world.specs.Alone.{ServesOn};
ghost use Rattle.fj_run_end.specs.Serving.{ServesFirst};

use fj_slot::{Engine, Slot};

/// Whether the slot has not stopped and a job is not done.
fn has_more<E: Engine>(slot: &Slot<E>) -> bool
    ensures more { result ≡ (is_none slot.now.halt && nat_lt slot.now.done (length slot.now.jobs)) }
    ensures sized { IsSized slot.now }
{
    let submitted = slot.submitted();
    slot.halted().is_none() && slot.done() < submitted
}

/// Performs the first job that is not done.
fn serve_first<E: Engine>(slot: &mut Slot<E>)
    requires begins { can_begin slot.old ≡ true }
    ensures { ServesFirst E.meaning slot.old slot.new }
{
    let Some(mut out) = slot.begin() else {
        unreachable!();
    };
    let before = out.engine.faults();
    let got = out.engine.perform(&mut out.job);
    slot.end(out, got, before);
}

/// Performs the jobs that are left, one after another, as far as the slot has not stopped.
pub(crate) fn served<E: Engine>(slot: Slot<E>) -> Slot<E>
    requires home { is_some slot.home ≡ true }
    ensures serves { ServesOn E.meaning slot result }
    ensures finished { result.halt ≡ None → result.done ≡ length result.jobs }
    ensures stopped { is_some slot.halt ≡ true → result ≡ slot }
{
    let mut slot = slot;
    while has_more(&slot) {
        serve_first(&mut slot);
    }
    slot
}
