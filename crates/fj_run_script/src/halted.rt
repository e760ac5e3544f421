// The units whose halt ends.
ghost use Rattle.std.specs.Prelude.{◌≡◌, map, IfOk, IfErr, ◌≢◌};
ghost use Rattle.fj_meaning_turns.specs.Turns.{halted_slots};
ghost use Rattle.fj_run_pending.specs.Plain.{entries};
ghost use Rattle.fj_run_pending.specs.Waits.{waited_of};
ghost use Rattle.fj_run_units.specs.Units.{connected_of};
ghost use Rattle.fj_run_script.specs.Numbering.{AreSlots};

use fj_run_pending::{Pendings, Whose, is_idle};
use fj_run_units::Connected;
use fj_value::Items;
use std::alloc::{AllocError, Global};

/// The slots of the units whose halt ends, where these transfers are told.
pub(crate) fn halted_slots(
    alloc: Global,
    pending: &Pendings,
    whose: Whose,
    units: &[Connected],
) -> Result<Items<u32>, AllocError>
    ensures halted { IfOk result (λ slots. slots ≡ halted_slots (waited_of whose (entries pending.now)) (map connected_of units.now)) }
    ensures slots { IfOk result (λ slots. AreSlots slots) }
{
    let mut slots = Items::new(alloc);
    if is_idle(pending, whose) {
        return Ok(slots);
    }
    for at in 0..units.len() {
        let unit = &units[at];
        if pending.ends_halt(whose, unit.number) {
            slots.push(unit.slot)?;
        }
    }
    Ok(slots)
}
