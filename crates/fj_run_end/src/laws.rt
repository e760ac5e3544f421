// What holds at each end of a run, as contracts of functions with nothing to do.
ghost use Rattle.fj_run_end.specs.Ended.{EndedDecksHoldUnits, StopsHoldUnits, StopsSpareNames, TurnsHoldUnits, SubmitsHoldUnits};

/// Where a deck ended, the slots hold the connections of its units, and no other.
pub fn ended_decks_hold_units()
    ensures { EndedDecksHoldUnits }
{}

/// So it is where a stop was told.
pub fn stops_hold_units()
    ensures { StopsHoldUnits }
{}

/// No stop is told where a connection is about to come.
pub fn stops_spare_names()
    ensures { StopsSpareNames }
{}

/// In each turn of a runner they hold the connections of the units that it has then.
pub fn turns_hold_units()
    ensures { TurnsHoldUnits }
{}

/// And so it is at each ask that submits a job.
pub fn submits_hold_units()
    ensures { SubmitsHoldUnits }
{}
