// What internal files have of external ones, each law the contract of a function with nothing to do.
ghost use Rattle.fj_internal.specs.InternalLaws.{ReadsLikeAFile, EndsOfLinesAreRefused, WritesLikeAFile, NoRecordIsLonger, ElementsKeepTheirKinds};

/// A READ takes from elements what it takes from a file of the same records.
pub fn reads_like_a_file()
    ensures { ReadsLikeAFile }
{}

/// An element that holds the end of a line is an error of every READ.
pub fn ends_of_lines_are_refused()
    ensures { EndsOfLinesAreRefused }
{}

/// A WRITE puts into elements the records that it puts into a file, filled up.
pub fn writes_like_a_file()
    ensures { WritesLikeAFile }
{}

/// A WRITE leaves elements of the kind that they were of.
pub fn elements_keep_their_kinds()
    ensures { ElementsKeepTheirKinds }
{}

/// No record is cut as an element gets it.
pub fn no_record_is_longer()
    ensures { NoRecordIsLonger }
{}
