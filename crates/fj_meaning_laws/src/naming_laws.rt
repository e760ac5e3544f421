// Laws on the places that a statement references, defines and specifies.
ghost use Rattle.fj_meaning_laws.specs.NamingLaws.{NeedsAreNamed, NamedPlacesAreNeeded};

/// The places that prohibitions look at are just those that a statement references, defines and specifies.
pub fn needs_are_named()
    ensures { NeedsAreNamed }
{}

/// Each place and each array that stands in a statement is referenced or defined.
pub fn named_places_are_needed()
    ensures { NamedPlacesAreNeeded }
{}
