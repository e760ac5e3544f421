// What holds of every deck that is cut, as contracts of functions with nothing to do.
ghost use Rattle.fj_meaning_cut.specs.Others.{OthersStay, UnitsKeepDesks, StopsLeaveOthers, CutRunsLeaveOthers};
ghost use Rattle.fj_meaning_cut.specs.Stopping.{StopsAreGiven, TurnsAreGiven, EndsAreGiven};
ghost use Rattle.fj_meaning_cut.specs.Turning.{TurnsDo, TurnsLeaveOthers, SubmitsLeaveOthers};
ghost use Rattle.fj_meaning_cut.specs.Awaiting.{StopsAreAwaited, WaitsAsWait, WaitsAtOneUnit};

/// Inside a statement each file that it is not about is as closing all units just before it leaves it.
pub fn others_stay()
    ensures { OthersStay }
{}

/// All the while each unit has its desk, and a connection there has the unit's name.
pub fn units_keep_desks()
    ensures { UnitsKeepDesks }
{}

/// Where a stop was told, so is each file that no unit has at the stopped slot, and that the statement does not open.
pub fn stops_leave_others()
    ensures { StopsLeaveOthers }
{}

/// So it is of a run that was told a stop, whatever the order of its events was.
pub fn cut_runs_leave_others()
    ensures { CutRunsLeaveOthers }
{}

/// What a turn does, once the answers that it needs are known, unless the statement is prohibited.
pub fn turns_do()
    ensures { TurnsDo }
{}

/// In each turn of a runner, once it knows the answers that it needs, so is each file that the statement at hand is not about.
pub fn turns_leave_others()
    ensures { TurnsLeaveOthers }
{}

/// And so it is at each ask that submits a job.
pub fn submits_leave_others()
    ensures { SubmitsLeaveOthers }
{}

/// Where a stop was told, its slot is that of a unit at which the statement waits, or no unit is there.
pub fn stops_are_awaited()
    ensures { StopsAreAwaited }
{}

/// A statement but END waits at one unit at most.
pub fn waits_at_one_unit()
    ensures { WaitsAtOneUnit }
{}

/// It waits there for the transfers that WAIT waits for; END waits for all, and INQUIRE may wait for a look.
pub fn waits_as_wait()
    ensures { WaitsAsWait }
{}

/// Where an answer is awaited each job of each slot was given by a statement not behind the one at hand.
pub fn stops_are_given()
    ensures { StopsAreGiven }
{}

/// So it is in each turn of a runner.
pub fn turns_are_given()
    ensures { TurnsAreGiven }
{}

/// And where the deck ended.
pub fn ends_are_given()
    ensures { EndsAreGiven }
{}
