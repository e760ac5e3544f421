// What holds of prohibitions and of the book, and worked cases, as contracts of functions with nothing to do.
ghost use Rattle.fj_book.specs.Cases.{DecksAreTold, EachIsTold, LowestIsTold, PartsMeet};
ghost use Rattle.fj_book.specs.Firsts.{FirstIsLeast};
ghost use Rattle.fj_book.specs.Laws.{LowestIsBroken, HeldUntilTold};
ghost use Rattle.fj_book.specs.Meeting.{PlacesMeet};
ghost use Rattle.fj_book.specs.StatementCases.{AllIsHeld, SpecifiersMeet, StatementsAreTold};

/// The prohibition that is told is broken, and no lower one is.
pub fn lowest_is_broken()
    ensures { LowestIsBroken }
{}

/// A place is held exactly from the entering of a transfer that has it until its telling.
pub fn places_are_held_until_told()
    ensures { HeldUntilTold }
{}

/// What statements beside pending transfers are told.
pub fn decks_are_told()
    ensures { DecksAreTold }
{}

/// Each prohibition alone.
pub fn each_is_told()
    ensures { EachIsTold }
{}

/// Each two prohibitions.
pub fn lowest_is_told()
    ensures { LowestIsTold }
{}

/// A statement's specifiers, items and internal file.
pub fn parts_meet()
    ensures { PartsMeet }
{}

/// The parts of a statement that may not have a place in common, whichever two of them do.
pub fn places_meet()
    ensures { PlacesMeet }
{}

/// The first transfer of a unit has its least identifier.
pub fn first_is_least()
    ensures { FirstIsLeast }
{}

/// What the statements of decks are told, one after another.
pub fn statements_are_told()
    ensures { StatementsAreTold }
{}

/// Each two specifiers of a READ, and each with an item.
pub fn specifiers_meet()
    ensures { SpecifiersMeet }
{}

/// SIZE=, the elements of arrays, and the places of the first and of the last transfer.
pub fn all_is_held()
    ensures { AllIsHeld }
{}
