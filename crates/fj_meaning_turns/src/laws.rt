// What holds of every deck, as contracts of functions with nothing to do.
ghost use Rattle.fj_meaning_turns.specs.Laws.{RunnersArePlain, RunsExecute, RunsLeaveResults, EntriesStand, StopsCut, WorldsAreCut, RunsStand, AsksStand, EndsAreMet, JobsAreAwaited};
ghost use Rattle.fj_meaning_turns.specs.Bounds.{AsksKeepToSlots, AsksEnd};
ghost use Rattle.fj_meaning_turns.specs.Few.{GivesFewJobs};
ghost use Rattle.fj_meaning_turns.specs.Meant.{CutsAgree};
ghost use Rattle.fj_meaning_turns.specs.Standing.{PendingAwaitsNothing};

/// Served alone, the runner comes to the execution over desks; each state on the way stands inside a statement.
pub fn runners_are_plain()
    ensures { RunnersArePlain }
{}

/// Where a script was served alone and is not over, its runner and its slots hold what the execution came to.
pub fn runs_execute()
    ensures { RunsExecute }
{}

/// What it leaves is the result of the deck.
pub fn runs_leave_results()
    ensures { RunsLeaveResults }
{}

/// After any number of entries the runner has finished, or stands inside a statement that is not prohibited.
pub fn entries_stand()
    ensures { EntriesStand }
{}

/// Where an answer is awaited, the execution is cut just before a statement, whose first jobs the slots have.
pub fn stops_cut()
    ensures { StopsCut }
{}

/// A world whose script was told a stop is cut, whatever the order of its events was.
pub fn worlds_are_cut()
    ensures { WorldsAreCut }
{}

/// Where the execution over desks is cut, the statement and the state are those of what the deck means.
pub fn cuts_agree()
    ensures { CutsAgree }
{}

/// A READ or WRITE that will be pending awaits no answer.
pub fn pending_awaits_nothing()
    ensures { PendingAwaitsNothing }
{}

/// Each statement that is come to gives at most two jobs for each slot.
pub fn gives_few_jobs()
    ensures { GivesFewJobs }
{}

/// Whatever is answered, a job is given to a slot that there is, and an answer is awaited only where a job is not told.
pub fn asks_keep_to_slots()
    ensures { AsksKeepToSlots }
{}

/// Whatever is answered, the runner has finished after so many asks for each statement.
pub fn asks_end()
    ensures { AsksEnd }
{}

/// Before each ask, and behind the statements that it then passes, the runner stands at a statement of the deck, or none is left.
pub fn runs_stand()
    ensures { RunsStand }
{}

/// At each ask the runner stands at a statement of the deck that leaves the output as it is, and has told all that it waits for, or none.
pub fn asks_stand()
    ensures { AsksStand }
{}

/// Where a deck ended, the statement at hand is the one at which it ends.
pub fn ends_are_met()
    ensures { EndsAreMet }
{}

/// Each job that a statement waits for is told before the next statement asks: that of a transfer which it tells, and its own.
pub fn jobs_are_awaited()
    ensures { JobsAreAwaited }
{}
