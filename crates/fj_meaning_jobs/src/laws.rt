// What holds of every deck over desks, each law the contract of a function with nothing to do.
ghost use Rattle.fj_meaning_jobs.specs.Forgetting.{SlotsForgotten, ResultsAgree};
ghost use Rattle.fj_meaning_jobs.specs.Giving.{JobsAreGiven, EndAscends};

/// Slots and logs forgotten, the execution over desks is what the deck means, after any statements of it.
pub fn slots_forgotten()
    ensures { SlotsForgotten }
{}

/// So the results are the same.
pub fn results_agree()
    ensures { ResultsAgree }
{}

/// What a statement adds to the logs is what its jobs leave of themselves and answer, in their order, each at the slot of its unit.
pub fn jobs_are_given()
    ensures { JobsAreGiven }
{}

/// END closes the units one after another, in ascending order.
pub fn end_ascends()
    ensures { EndAscends }
{}
