// Laws on pending transfers: identifiers, places, what is told and what stays pending.
ghost use Rattle.fj_meaning.specs.PendingLaws.{NothingIsTold, ProhibitedDoesNothing, IdentifiersRise, PlacesAreApart, PendingTurns};

/// A deck in which no transfer has ASYNCHRONOUS='YES' tells nothing.
pub fn nothing_is_told()
    ensures { NothingIsTold }
{}

/// A prohibited statement changes nothing, and ends the deck.
pub fn prohibited_does_nothing()
    ensures { ProhibitedDoesNothing }
{}

/// The identifiers of pending transfers rise, and are below the next one.
pub fn identifiers_rise()
    ensures { IdentifiersRise }
{}

/// A place of a pending input is in no other pending transfer.
pub fn places_are_apart()
    ensures { PlacesAreApart }
{}

/// A statement tells the transfers that it waits for, no other leaves the book, and one that becomes pending has the next
/// identifier.
pub fn pending_turns()
    ensures { PendingTurns }
{}
