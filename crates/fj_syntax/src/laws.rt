// Laws of the grammar.
ghost use Rattle.fj_syntax.specs.KnownLaws.{ArgumentsAreTaken};
ghost use Rattle.fj_syntax.specs.Parsing.{OneReading, NamesAreWords};

/// A line has one meaning at most, so that what `parse_line` answers is the only answer.
#[tactic(auto, using(crate::proofs::ParseLemmas::once))]
pub fn one_meaning()
    ensures { OneReading }
{}

/// Variables and groups are declared with names of up to 63 characters, in upper case.
#[tactic(auto, using(crate::proofs::NameLemmas::names_words))]
pub fn names_are_words()
    ensures { NamesAreWords }
{}

/// Each statement takes the arguments of its specifiers, and none of another's.
#[tactic(auto, using(crate::proofs::KnownLemmas::taken))]
pub fn arguments_are_taken()
    ensures { ArgumentsAreTaken }
{}
