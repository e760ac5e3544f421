// What holds of variables that are moved out and come back, and worked cases, as contracts of functions with nothing to do.
ghost use Rattle.fj_store.specs.Cases.{ItemsHaveCells, OutputsHaveCells, PlacesComeBack, ReadsComeBack};
ghost use Rattle.fj_store.specs.Laws.{AllComesBack, CellsAreDistinct, CellsComeBack, JustTheseAreOut};

/// The cells of a statement have distinct places, whatever its items are.
pub fn cells_are_distinct()
    ensures { CellsAreDistinct }
{}

/// Just the places that are taken out have no value.
pub fn just_these_are_out()
    ensures { JustTheseAreOut }
{}

/// What is taken out and given back unchanged leaves the variables as they were.
pub fn all_comes_back()
    ensures { AllComesBack }
{}

/// A place comes back with the value that its cell then holds, and no other place changes.
pub fn cells_come_back()
    ensures { CellsComeBack }
{}

/// The cells of items, with an item twice, and an array with its element.
pub fn items_have_cells()
    ensures { ItemsHaveCells }
{}

/// The cells of an output's items, with values of their own.
pub fn outputs_have_cells()
    ensures { OutputsHaveCells }
{}

/// What is read before, while and after places are out.
pub fn places_come_back()
    ensures { PlacesComeBack }
{}

/// READs whose items are out, and come back one statement after another.
pub fn reads_come_back()
    ensures { ReadsComeBack }
{}
