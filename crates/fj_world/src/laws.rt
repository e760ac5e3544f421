// What holds of scripts over slots, as contracts of functions with nothing to do.
ghost use Rattle.fj_world.specs.Laws.{EnabledAsSketched, HasOneEnd, IsNeverStuck};
ghost use Rattle.fj_world.specs.Sketch.{NeighboursCommute};

use crate::script::Script;
use fj_slot::Engine;

/// Two neighbouring events of different actors and different slots may be swapped.
pub fn neighbours_commute<S: Script>()
    ensures { NeighboursCommute S.Gear.meaning S.conduct }
{}

/// However a script was served to its end, it has one end.
#[tactic(auto, using(crate::proofs::WorldLaws::has_one_end))]
pub fn scripts_have_one_end<S: Script>()
    ensures { HasOneEnd S.Gear.meaning S.conduct }
{}

/// Which events are enabled, over plain data.
#[tactic(auto, using(crate::proofs::WorldLaws::enabled_as_sketched))]
pub fn events_are_enabled_as_sketched<S: Script>()
    ensures { EnabledAsSketched S.Gear.meaning S.conduct }
{}

/// Some event is enabled until the script has finished.
pub fn worlds_are_never_stuck<S: Script>()
    ensures { IsNeverStuck S.Gear.meaning S.conduct }
{}
