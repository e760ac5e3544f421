// Laws of the definitions that the contracts of this crate cite.
ghost use Rattle.fj_format.specs.Grammar.{IsUnambiguous};
ghost use Rattle.fj_format.specs.Laws.{Unfolds, Prints};

/// A text is one format at most.
pub fn texts_are_unambiguous()
    ensures { IsUnambiguous }
{}

/// What one pass of a format is, kind of item by kind of item.
pub fn passes_unfold()
    ensures { Unfolds }
{}

/// What the text of a format is, kind of item by kind of item.
pub fn items_print()
    ensures { Prints }
{}
