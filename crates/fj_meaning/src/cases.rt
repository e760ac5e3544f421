// Worked cases of the order in which a statement goes. Other decks with their answers are in fj_cases.
ghost use Rattle.fj_meaning.specs.Cases.{SkippedTellTheirCause, EndOfRecordHaltsNothing, NothingIsRead, RefusedReadsNothing, TestsAreInOrder, TellsComeBeforeTests, ProhibitionsComeFirst, DefinitionsComeFirst, OpenTestsAreInOrder, CloseThatErrs, DoneAreTold, ToldBeforeAnswers, WrittenAndReadInside, ElementsAreLeft};

/// A transfer behind an end of file is skipped and tells its cause, and a wait for it waits for all of the unit.
pub fn skipped_tell_their_cause()
    ensures { SkippedTellTheirCause }
{}

/// End-of-record halts nothing, and a wait for one transfer is not widened by it.
pub fn end_of_record_halts_nothing()
    ensures { EndOfRecordHaltsNothing }
{}

/// A READ before which the end of the file is told leaves its item and SIZE= undefined.
pub fn nothing_is_read()
    ensures { NothingIsRead }
{}

/// A READ that does not fit leaves its item and SIZE= undefined, and what ID= names as it was.
pub fn refused_reads_nothing()
    ensures { RefusedReadsNothing }
{}

/// 1, then 2, then 16, then 10.
pub fn tests_are_in_order()
    ensures { TestsAreInOrder }
{}

/// What is pending is told before a statement's own tests.
pub fn tells_come_before_tests()
    ensures { TellsComeBeforeTests }
{}

/// A prohibition comes before what is told, and before these tests.
pub fn prohibitions_come_first()
    ensures { ProhibitionsComeFirst }
{}

/// At a condition that nothing catches the item is undefined.
pub fn definitions_come_first()
    ensures { DefinitionsComeFirst }
{}

/// OPEN of another file: 3, then 7, and in both the first file stays connected.
pub fn open_tests_are_in_order()
    ensures { OpenTestsAreInOrder }
{}

/// A CLOSE that is in error leaves its unit connected; a unit that is not connected is closed, and not moved.
pub fn close_that_errs()
    ensures { CloseThatErrs }
{}

/// INQUIRE waits for a transfer that is done, or for all of the unit, and tells it.
pub fn done_are_told()
    ensures { DoneAreTold }
{}

/// Where INQUIRE tells the end of the file PENDING= is false, and nothing else is answered.
pub fn told_before_answers()
    ensures { ToldBeforeAnswers }
{}

/// A WRITE on an internal file fills its element up with blanks, and a READ takes its value from there.
pub fn written_and_read_inside()
    ensures { WrittenAndReadInside }
{}

/// Too many records, and a record that is too long, leave the elements of an internal file.
pub fn elements_are_left()
    ensures { ElementsAreLeft }
{}
