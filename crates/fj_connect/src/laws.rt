// What holds of all connections, each law the contract of a function with nothing to do.
ghost use Rattle.fj_connect.specs.OpeningLaws.{OpensByStatus, StatusDecides};
ghost use Rattle.fj_connect.specs.TransferLaws.{PutsAtThePosition, PutsFrames, FeedsOnce, ReadsRecordByRecord};
ghost use Rattle.fj_connect.specs.EndingLaws.{EndedSizes};
ghost use Rattle.fj_connect.specs.PositionLaws.{EndsOpenRecords, ErrsExactly, MovesByRecords, StandsAfterMotions, RestsOfRecords};

/// OPEN connects as STATUS= and POSITION= say of the file that is there or not.
pub fn opens_by_status()
    ensures { OpensByStatus }
{}

/// A status and a file give one answer.
pub fn status_decides()
    ensures { StatusDecides }
{}

/// An open record gets its line feed, and nothing else is ended.
pub fn ends_open_records()
    ensures { EndsOpenRecords }
{}

/// How long a file is once its open record is ended.
pub fn ended_files_have_their_length()
    ensures { EndedSizes }
{}

/// The errors of motions, exactly.
pub fn motions_err_exactly()
    ensures { ErrsExactly }
{}

/// BACKSPACE goes one record back, REWIND to the start, and ENDFILE makes the position the end.
pub fn motions_go_by_records()
    ensures { MovesByRecords }
{}

/// After a motion the connection stands in its file.
pub fn motions_stay_in_the_file()
    ensures { StandsAfterMotions }
{}

/// What is left of a record from a place inside it.
pub fn records_have_rests()
    ensures { RestsOfRecords }
{}

/// Output stands behind the position, which goes behind it.
pub fn output_is_put_at_the_position()
    ensures { PutsAtThePosition }
{}

/// An unformatted record is put with its two lengths.
pub fn frames_are_put()
    ensures { PutsFrames }
{}

/// A missing line feed is written, and written once.
pub fn records_are_fed_once()
    ensures { FeedsOnce }
{}

/// Records are read one behind the other.
pub fn records_are_read_on()
    ensures { ReadsRecordByRecord }
{}
