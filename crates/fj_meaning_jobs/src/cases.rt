// Worked cases of decks over desks.
ghost use Rattle.fj_meaning_jobs.specs.Cases.{ReadsPastTheEnd, SkipsBehindTheEnd, EndsItsHalt, LowestFreeSlots, ChangesAndLooks, StopsWithPending};

/// Three pending READs of two records, and the halt that ends with the wait.
pub fn reads_past_the_end()
    ensures { ReadsPastTheEnd }
{}

/// A transfer behind the end of the file is skipped.
pub fn skips_behind_the_end()
    ensures { SkipsBehindTheEnd }
{}

/// A READ at once ends the halt that it set.
pub fn ends_its_halt()
    ensures { EndsItsHalt }
{}

/// A unit takes the lowest free slot.
pub fn lowest_free_slots()
    ensures { LowestFreeSlots }
{}

/// Other modes and a look are jobs.
pub fn changes_and_looks()
    ensures { ChangesAndLooks }
{}

/// After an error stop no job takes a connection out.
pub fn stops_with_pending()
    ensures { StopsWithPending }
{}
