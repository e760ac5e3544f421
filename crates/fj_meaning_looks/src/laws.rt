// What holds of stretches, as contracts of functions with nothing to do.
ghost use Rattle.fj_meaning_looks.specs.Laws.{AllBegin, LooksAreMetOnce, LooksArePut, LossesAreFollowed, StretchesAreMeant, StretchesAreOne, StretchesFollow, StretchesGoOn, WorldsAreServed};
ghost use Rattle.fj_meaning_looks.specs.Meeting.{LooksAreMet};
ghost use Rattle.fj_meaning_looks.specs.Worlds.{AsksAgain, StaysOrderly};

use fj_slot::Engine;
use fj_world::Script;

/// Where the runner would pass statements to one that looks, the one that stops at looks stops there, or at an earlier one.
pub fn looks_are_met()
    ensures { LooksAreMet }
{}

/// A stretch that begins at a statement that does not look comes to a later one.
pub fn looks_are_met_once()
    ensures { LooksAreMetOnce }
{}

/// After any number of entries a stretch is the runner itself, or it stands at a look, and the statements before that are gone, whatever
/// stands in the place of the look and behind.
pub fn stretches_go_on()
    ensures { StretchesGoOn }
{}

/// Before the first stretch nothing is gone.
pub fn stretches_begin()
    ensures { AllBegin }
{}

/// Where a stretch came to a look, the next one begins there over the same slots, with another statement in its place.
pub fn looks_are_put()
    ensures { LooksArePut }
{}

/// Where the last stretch ends, or is stopped, all of them are one run of the deck as it was put at last.
pub fn stretches_are_one()
    ensures { StretchesAreOne }
{}

/// Before each of its asks a stretch stands where that run comes by passing statements.
pub fn stretches_follow()
    ensures { StretchesFollow }
{}

/// Where a script was over in a stretch, it stood at a statement of that run, or at an ask.
pub fn losses_follow()
    ensures { LossesAreFollowed }
{}

/// The same of real slots, whatever the order of their events was.
pub fn worlds_are_served()
    ensures { WorldsAreServed }
{}

/// A script that asks again over the slots that it left goes on there, with what workers hold of them.
pub fn scripts_ask_again<S: Script>()
    ensures fits { AsksAgain S.Gear.meaning S.conduct }
    ensures orderly { StaysOrderly S.Gear.meaning S.conduct }
{}

/// What the last stretch leaves is the result of the deck, as it was put at last.
pub fn stretches_leave_results()
    ensures { StretchesAreMeant }
{}
