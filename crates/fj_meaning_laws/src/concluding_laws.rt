// A law on what becomes of a statement's condition.
ghost use Rattle.fj_meaning_laws.specs.Concluding.{ConditionsConclude};

/// IOSTAT= gets the number of the statement's condition, or the condition ends the deck, whichever it is.
pub fn conditions_conclude()
    ensures { ConditionsConclude }
{}
