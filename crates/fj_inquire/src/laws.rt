// What holds of all answers, each law the contract of a function with nothing to do.
ghost use Rattle.fj_inquire.specs.Laws.{WordsAreRead};

/// INQUIRE tells of each mode a word that OPEN would give it by.
pub fn words_are_read()
    ensures { WordsAreRead }
{}
