// What the words of the contracts come to.
ghost use Rattle.fj_outside.specs.Faults.{RisesToMoreOrTheEnd};
ghost use Rattle.fj_outside.specs.Holdings.{StepsChangeOneName};
ghost use Rattle.fj_outside.specs.Bytes.{WrittenByPlace};
ghost use Rattle.fj_outside.specs.Windows.{ReadsAnswerAsTheFile};

/// A count that rose is greater than before, or stands at the end of its range.
#[tactic(auto, using(crate::proofs::FaultLaws::rose))]
pub fn rises_to_more_or_the_end()
    ensures { RisesToMoreOrTheEnd }
{}

/// What taking, making, giving back and removing a file change of what a disk holds, name by name.
pub fn steps_change_one_name()
    ensures { StepsChangeOneName }
{}

/// Where each byte of a file comes from after a write.
#[tactic(auto, using(crate::proofs::ByteLaws::placed))]
pub fn written_by_place()
    ensures { WrittenByPlace }
{}

/// What a chain of reads through a window answers.
#[tactic(auto, using(crate::proofs::WindowLaws::read_through))]
pub fn reads_answer_as_the_file()
    ensures { ReadsAnswerAsTheFile }
{}
