// Laws on units and files, and on what telling, assignment and transfers on internal files leave alone.
ghost use Rattle.fj_meaning.specs.UnitLaws.{UnitsAscend, FilesAreApart, PendingAreConnected, TellingChangesNoFile, AssignmentChangesVariables, InternalTransfersChangeVariables, ClosingLeavesEach, LaterIsAsAtOnce};

/// Units are in ascending order, and at most sixteen.
pub fn units_ascend()
    ensures { UnitsAscend }
{}

/// A file is connected to one unit at the most, and is not among the others then.
pub fn files_are_apart()
    ensures { FilesAreApart }
{}

/// The unit of a pending transfer is connected.
pub fn pending_are_connected()
    ensures { PendingAreConnected }
{}

/// Telling changes no connection, no file and no output.
pub fn telling_changes_no_file()
    ensures { TellingChangesNoFile }
{}

/// An assignment changes nothing but variables.
pub fn assignment_changes_variables()
    ensures { AssignmentChangesVariables }
{}

/// A READ or WRITE on an internal file changes nothing but variables.
pub fn internal_transfers_change_variables()
    ensures { InternalTransfersChangeVariables }
{}

/// Where all units are closed, the file of each has its bytes or, of a scratch file, is gone, and all others stay.
pub fn closing_leaves_each()
    ensures { ClosingLeavesEach }
{}

/// A transfer that becomes pending does to the file of its unit what it does at once.
pub fn later_is_as_at_once()
    ensures { LaterIsAsAtOnce }
{}
