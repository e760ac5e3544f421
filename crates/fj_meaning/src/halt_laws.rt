// Laws on the halts of units.
ghost use Rattle.fj_meaning.specs.HaltLaws.{HaltsAreCaused, SkippedTellTheCause, HaltsBeginAndEnd, SkippedChangesNoFile};

/// A unit is halted exactly where a pending transfer of it met an error or the end of the file, by the first of these.
pub fn halts_are_caused()
    ensures { HaltsAreCaused }
{}

/// A transfer behind one of its unit that met an error or the end of the file tells the same, and its items get no value.
pub fn skipped_tell_the_cause()
    ensures { SkippedTellTheCause }
{}

/// A halt begins with a transfer that becomes pending and met such a condition, and ends where one is told.
pub fn halts_begin_and_end()
    ensures { HaltsBeginAndEnd }
{}

/// A transfer that becomes pending on a halted unit changes nothing of its file.
pub fn skipped_changes_no_file()
    ensures { SkippedChangesNoFile }
{}
