// Laws on what statements do to the connection of their unit.
ghost use Rattle.fj_meaning_laws.specs.ConnectionLaws.{MotionsMoveUnits, OpenLeavesPosition, CloseLeavesFile, CloseClosesAnyway};
ghost use Rattle.fj_meaning_laws.specs.OpenLaws.{OpensInOrder};

/// BACKSPACE, REWIND and ENDFILE move the connection of their unit, and FLUSH does not.
pub fn motions_move_units()
    ensures { MotionsMoveUnits }
{}

/// OPEN of the connected file leaves position and bytes.
pub fn open_leaves_position()
    ensures { OpenLeavesPosition }
{}

/// CLOSE leaves the file with its bytes, or deletes it.
pub fn close_leaves_file()
    ensures { CloseLeavesFile }
{}

/// OPEN of another file: its errors in their order, and what it connects.
pub fn opens_in_order()
    ensures { OpensInOrder }
{}

/// CLOSE closes its unit where a condition was told, too.
pub fn close_closes_anyway()
    ensures { CloseClosesAnyway }
{}
