// What holds of all changes of files, as the contract of a function with nothing to do.
ghost use Rattle.fj_span.specs.ChangeLaw.{KeepsWhatWasToStay, WritesInTurnKeepWhatWasToStay};

/// A change that was stopped leaves the bytes before the first one that was to change.
#[tactic(auto, using(crate::proofs::KeptLemmas::keeps))]
pub fn stopped_changes_keep_what_was_to_stay()
    ensures { KeepsWhatWasToStay }
{}

/// So do the writes of one statement, one behind the other.
pub fn writes_in_turn_keep_what_was_to_stay()
    ensures { WritesInTurnKeepWhatWasToStay }
{}
