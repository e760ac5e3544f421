// What holds of all replies, and of the faults that are told.
ghost use Rattle.fj_job.specs.Faulting.{LinesNameStatements, OneWriteFault, OthersLeaveFiles, SomeLearnNothing, WriteFaultsAreFirst};
ghost use Rattle.fj_job.specs.Reply.{OneReply, SomeReply};

use fj_deck::{decks_are_sound, one_answer, some_answer};

/// To the words, a text and files there is one reply at most.
pub fn one_reply()
    ensures { OneReply }
{
    one_answer();
}

/// And there is one: each text is a deck or is refused, and each deck ends.
pub fn some_reply()
    ensures { SomeReply }
{
    some_answer();
    decks_are_sound();
}

/// The line of a fault of the disk names one statement.
pub fn lines_name_statements()
    ensures { LinesNameStatements }
{
    decks_are_sound();
}

/// A fault of the sink is that of the first statement that ends a record which was not taken whole; or, where all were, that of the report
/// behind the statement at which the deck ended.
pub fn write_faults_are_first()
    ensures { WriteFaultsAreFirst }
{}

/// So what the sink took fits one statement of the deck, and no other, or the report alone.
pub fn one_write_fault()
    ensures { OneWriteFault }
{}

/// An assignment, a READ or WRITE on `*`, and one that will be pending learn of no fault of the disk.
pub fn some_learn_nothing()
    ensures { SomeLearnNothing }
{}

/// A statement that does not call the disk itself leaves the files that no unit has.
pub fn others_leave_files()
    ensures { OthersLeaveFiles }
{}
