// Laws of list-directed text (ISO/IEC 1539-1:2004, 10.9).
ghost use Rattle.fj_list.specs.Breaks.{RecordsBreakWhereFull, RecordsAreUnique};
ghost use Rattle.fj_list.specs.ConstantLaws.{IntegersAreRead, ConstantsAreOfKind, CellsKeepKinds};
ghost use Rattle.fj_list.specs.Cuts.{ConstantsMayBeCut};
ghost use Rattle.fj_list.specs.Listing.{RecordsAreListed};
ghost use Rattle.fj_list.specs.LookedAt.{RecordsAreLookedAtAsNeeded};
ghost use Rattle.fj_list.specs.ReadAgain.{ValuesAreReadAgain};
ghost use Rattle.fj_list.specs.Understood.{TextIsReadAsItsValues, TextHasAMeaning, TextHasOneMeaning};

/// What is written under DELIM='APOSTROPHE' or 'QUOTE' is read under the same modes as the values that were written.
pub fn values_are_read_again()
    ensures { ValuesAreReadAgain }
{}

/// The records of list-directed output are those of the values, and none of its actions is a condition. So it meets one
/// exactly where a record or its bytes do not fit.
pub fn records_are_listed()
    ensures { RecordsAreListed }
{}

/// A record has at most 80 characters, unless it has a single value, and would have more with the first value of the
/// next record.
pub fn records_break_where_full()
    ensures { RecordsBreakWhereFull }
{}

/// The records of values are the only ones that break so.
pub fn records_are_unique()
    ensures { RecordsAreUnique }
{}

/// Input looks at the first ones of the records, as many as it needs, and leaves the others.
pub fn records_are_looked_at_as_needed()
    ensures { RecordsAreLookedAtAsNeeded }
{}

/// What stands in records by the grammar of 10.9.1 is read as those values: each so many times, null values leave their
/// items as they were, and a slash leaves the others.
pub fn text_is_read_as_its_values()
    ensures { TextIsReadAsItsValues }
{}

/// By the grammar records have the values of one text at most.
pub fn text_has_one_meaning()
    ensures { TextHasOneMeaning }
{}

/// Whatever stands in records, it has values by the grammar, and an end.
pub fn text_has_a_meaning()
    ensures { TextHasAMeaning }
{}

/// An integer is digits behind an optional sign: its number, 14 where that has more bits than the item, and 13 for
/// other characters.
pub fn integers_are_read()
    ensures { IntegersAreRead }
{}

/// What is read of a constant is of the item's kind.
pub fn constants_are_of_kind()
    ensures { ConstantsAreOfKind }
{}

/// Cells that have values of their kinds have such values behind a READ.
pub fn cells_keep_kinds()
    ensures { CellsKeepKinds }
{}

/// A delimited constant may be cut over records anywhere but inside a doubled mark.
pub fn constants_may_be_cut()
    ensures { ConstantsMayBeCut }
{}
