// Worked cases of files inside a statement.
ghost use Rattle.fj_meaning_cut.specs.Cases.{EndLeavesOthers, OpenLeavesOthers, WriteLeavesOthers, IsAboutOneFile, IsAtItsSlot};

/// END, where it waits for the first and for the second of two units.
pub fn end_leaves_others()
    ensures { EndLeavesOthers }
{}

/// OPEN of another file, where it waits for the old one to go, and for the new one to come.
pub fn open_leaves_others()
    ensures { OpenLeavesOthers }
{}

/// A WRITE changes the file of its unit alone.
pub fn write_leaves_others()
    ensures { WriteLeavesOthers }
{}

/// A statement is about the file that it may change, removes or opens, and about no other.
pub fn is_about_one_file()
    ensures { IsAboutOneFile }
{}

/// A file is at the slot of its unit alone.
pub fn is_at_its_slot()
    ensures { IsAtItsSlot }
{}
