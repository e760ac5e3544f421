// Laws on the transfers that a statement waits for, and on what a pending one comes to.
ghost use Rattle.fj_meaning_laws.specs.AwaitingLaws.{AwaitsExactly, NoneStaysPending};
ghost use Rattle.fj_meaning_laws.specs.LaterLaws.{LaterIsAsAtOnce};

/// A statement waits for just the transfers that it is to wait for.
pub fn awaits_exactly()
    ensures { AwaitsExactly }
{}

/// A statement that waits for all of a unit tells each of them, and leaves none of that unit pending.
pub fn none_stays_pending()
    ensures { NoneStaysPending }
{}

/// A transfer that becomes pending and the WAIT for it come to what the transfer at once comes to.
pub fn later_is_as_at_once()
    ensures { LaterIsAsAtOnce }
{}
