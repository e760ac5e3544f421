//! Laws of the numbers that a seat sees.
ghost use Rattle.fj_queue.specs.Laws.{ShowsNothingToBegin, TellsStopsApart};

use fj_slot::Engine;

/// What a hand keeps that found nothing to begin shows just that.
#[tactic(auto, using(crate::proofs::QueueLaws::shows_nothing_to_begin))]
pub fn shows_nothing_to_begin<E: Engine>()
    ensures { ShowsNothingToBegin E E.Job E.Answer E.Task }
{}

/// A stop that is told is of the kind that the slot has.
#[tactic(auto, using(crate::proofs::QueueLaws::tells_stops_apart))]
pub fn tells_stops_apart()
    ensures { TellsStopsApart }
{}
