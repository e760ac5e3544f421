// What holds of slots and of the jobs that they serve, as contracts of functions with nothing to do.
ghost use Rattle.fj_slot.specs.Laws.{AreServedInOrder, BeginsExactly, StopsHaveCauses, TellsExactly};

use crate::engine::Engine;

/// Jobs are served in order, each on the engine that those before it left.
#[tactic(auto, using(crate::proofs::SlotLaws::are_served_in_order))]
pub fn jobs_are_served_in_order<E: Engine>()
    ensures { AreServedInOrder E.meaning }
{}

/// When a job may be begun.
#[tactic(auto, using(crate::proofs::SlotLaws::begins_exactly))]
pub fn begins_exactly<E: Engine>()
    ensures { BeginsExactly E E.Job E.Answer }
{}

/// When a job may be told.
#[tactic(auto, using(crate::proofs::SlotLaws::tells_exactly))]
pub fn tells_exactly<E: Engine>()
    ensures { TellsExactly E.meaning }
{}

/// What a stop comes from.
#[tactic(auto, using(crate::proofs::SlotLaws::stops_have_causes))]
pub fn stops_have_causes<E: Engine>()
    ensures { StopsHaveCauses E.meaning }
{}
