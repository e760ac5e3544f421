// The laws of the definitions.
ghost use Rattle.fj_names.specs.Meaning.{OneMeaning};
ghost use Rattle.fj_names.specs.Sound.{EmptyIsSound, DeclaredIsSound, GroupedIsSound, NamesAreApart, MeaningIsSound, GroupsAreDeclared, RulesAreDecided};

use fj_format::texts_are_unambiguous;

/// A statement has one meaning at most, so that what `statement` answers is the only answer.
pub fn one_meaning()
    ensures { OneMeaning }
{
    texts_are_unambiguous();
}

/// What is declared is sound after each declaration, and so is what a statement means.
pub fn meaning_is_sound()
    ensures empty { EmptyIsSound }
    ensures declared { DeclaredIsSound }
    ensures grouped { GroupedIsSound }
    ensures apart { NamesAreApart }
    ensures meaning { MeaningIsSound }
    ensures groups { GroupsAreDeclared }
{}

/// Which specifiers and items of READ and WRITE go together is decided by the rules that every deck keeps.
pub fn rules_are_decided()
    ensures { RulesAreDecided }
{}
