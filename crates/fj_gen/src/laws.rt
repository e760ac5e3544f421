// Laws of draws, and worked cases.
ghost use Rattle.fj_gen.specs.Cases.{CasesAreRight};
ghost use Rattle.fj_gen.specs.Laws.{DrawsAreInRange};

/// States and draws are in range, there are as many draws as were asked for, and a longer list goes on where a shorter one ends.
pub fn draws_are_in_range()
    ensures { DrawsAreInRange }
{}

/// Draws and decks at worked cases.
pub fn cases_are_right()
    ensures { CasesAreRight }
{}
