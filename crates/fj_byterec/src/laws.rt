// What holds of all records of direct access, as the contract of a function with nothing to do.
ghost use Rattle.fj_byterec.specs.PieceLaws.{StandApart, GapsAreFilled};

/// A record that was written is there, and the others stay.
pub fn records_stand_apart()
    ensures { StandApart }
{}

/// The records of the gap before it are there too, filled up.
pub fn gaps_are_filled()
    ensures { GapsAreFilled }
{}
