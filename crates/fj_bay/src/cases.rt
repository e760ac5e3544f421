// Worked cases of jobs on bays.
ghost use Rattle.fj_bay.specs.Cases.{OnAnEmptyBay, OnAFullBay, OnAHaltedBay, OpenRecordGoesOutEnded, FirstChanges};

/// Each job on an empty bay.
pub fn on_an_empty_bay()
    ensures { OnAnEmptyBay }
{}

/// Each job on a bay with a connection.
pub fn on_a_full_bay()
    ensures { OnAFullBay }
{}

/// A halt is set, and each job on a halted bay.
pub fn on_a_halted_bay()
    ensures { OnAHaltedBay }
{}

/// A connection goes out with its open record ended.
pub fn open_record_goes_out_ended()
    ensures { OpenRecordGoesOutEnded }
{}

/// The first byte that each job changes.
pub fn first_changes()
    ensures { FirstChanges }
{}
