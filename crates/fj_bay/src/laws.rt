// What holds of every bay and every job, each law the contract of a function with nothing to do.
ghost use Rattle.fj_bay.specs.BayLaws.{HaltsByTransfers, HaltsUntilResumed, ResumesAlone, SkipsInHalts, TransfersElse, LeavesBytes, MovesOn, DetachesEnded, IsEmptyOrTakes, StopsWhereBytesChange, FindsFirstDifference, KeepsItsConnection};

/// A halt is set by an error or the end of the file that a transfer meets, and by nothing else.
pub fn halts_by_transfers()
    ensures { HaltsByTransfers }
{}

/// A halt is ended by a job of its own, and by nothing else.
pub fn halts_until_resumed()
    ensures { HaltsUntilResumed }
{}

/// The end of a halt changes nothing else.
pub fn resumes_alone()
    ensures { ResumesAlone }
{}

/// In a halt transfers are skipped, and only there.
pub fn skips_in_halts()
    ensures { SkipsInHalts }
{}

/// Without a halt a transfer is that of the connection.
pub fn transfers_else()
    ensures { TransfersElse }
{}

/// What looks, flushes or changes modes leaves every byte.
pub fn leaves_bytes()
    ensures { LeavesBytes }
{}

/// A motion is that of the connection.
pub fn moves_on()
    ensures { MovesOn }
{}

/// A connection that is taken out has no open record.
pub fn detaches_ended()
    ensures { DetachesEnded }
{}

/// An empty bay takes a connection in, and does nothing else.
pub fn is_empty_or_takes()
    ensures { IsEmptyOrTakes }
{}

/// A job that never stops changes no byte.
pub fn stops_where_bytes_change()
    ensures { StopsWhereBytesChange }
{}

/// A bay keeps its connection, under its name and with its modes.
pub fn keeps_its_connection()
    ensures { KeepsItsConnection }
{}

/// Where two files differ first.
pub fn finds_first_difference()
    ensures { FindsFirstDifference }
{}
