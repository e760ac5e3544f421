// Worked cases of the runner served alone.
ghost use Rattle.fj_meaning_turns.specs.Cases.{SkippedTellTheirCauseAlone, FineEndsNoHaltAlone};

/// A transfer behind an end of file is skipped, and a wait for it waits for all of the unit.
pub fn skipped_tell_their_cause_alone()
    ensures { SkippedTellTheirCauseAlone }
{}

/// A transfer that was fine is told alone, and ends no halt.
pub fn fine_ends_no_halt_alone()
    ensures { FineEndsNoHaltAlone }
{}
