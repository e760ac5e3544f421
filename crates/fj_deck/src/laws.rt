// Laws of decks, which hold of every text.
ghost use Rattle.fj_deck.specs.Deck.{DecksAreSound, OneDeck, NoneIsBoth, OneRefusal, SomeAnswer};

/// A text is one deck or is refused at one line for one reason, so that what `parse_deck` answers is the only answer.
pub fn one_answer()
    ensures deck { OneDeck }
    ensures apart { NoneIsBoth }
    ensures refusal { OneRefusal }
{
    fj_syntax::one_meaning();
    fj_names::one_meaning();
}

/// Each text is a deck, or is refused at a line for a reason.
pub fn some_answer()
    ensures { SomeAnswer }
{}

/// What is a deck is sound: its names, places and kinds fit, no limit is passed, and END is its last statement.
pub fn decks_are_sound()
    ensures { DecksAreSound }
{}
