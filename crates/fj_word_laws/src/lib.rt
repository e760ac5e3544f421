//! What each specifier of a statement gives, word for word (ISO/IEC 1539-1:2004, 9.4.5, 9.4.6, 9.5.1, 9.9.1).
#![tactic(auto)]

ghost use Rattle.fj_word_laws.specs.Specifiers.{OpenGives, ReadGives, WriteGives, CloseGives, InquireAsks};
ghost use Rattle.fj_word_laws.specs.Transfers.{TransfersKeep};

/// Each word of a specifier of OPEN gives its value, for the field of that specifier alone.
pub fn open_gives()
    ensures { OpenGives }
{}

/// The same of READ.
pub fn read_gives()
    ensures { ReadGives }
{}

/// The same of WRITE.
pub fn write_gives()
    ensures { WriteGives }
{}

/// The same of CLOSE.
pub fn close_gives()
    ensures { CloseGives }
{}

/// Each specifier of INQUIRE asks its own question, and no other.
pub fn inquire_asks()
    ensures { InquireAsks }
{}

/// A READ or WRITE that has a meaning has in its statement what each of its specifiers gives, in the field of that specifier.
pub fn transfers_keep()
    ensures { TransfersKeep }
{}
