// The words of the grammar.
ghost use Rattle.std.specs.Prelude.{◌≡◌, map};
ghost use Rattle.fj_syntax.specs.Words.{meaning_of, keyword_of, specifier_of, takes};

use crate::word::Word;
use fj_modes::{Motion, Question};

/// A word that begins a statement or declaration. None of them is a name.
#[derive(Clone, Copy)]
pub enum Keyword {
    Integer,
    Logical,
    Character,
    Namelist,
    Open,
    Close,
    /// READ, which is input, or WRITE.
    Transfer { input: bool },
    Wait,
    Move(Motion),
    Inquire,
    End,
}

pub const KEYWORDS: [(&str, Keyword); 15] = [
    ("INTEGER", Keyword::Integer),
    ("LOGICAL", Keyword::Logical),
    ("CHARACTER", Keyword::Character),
    ("NAMELIST", Keyword::Namelist),
    ("OPEN", Keyword::Open),
    ("CLOSE", Keyword::Close),
    ("READ", Keyword::Transfer { input: true }),
    ("WRITE", Keyword::Transfer { input: false }),
    ("WAIT", Keyword::Wait),
    ("BACKSPACE", Keyword::Move(Motion::Backspace)),
    ("REWIND", Keyword::Move(Motion::Rewind)),
    ("ENDFILE", Keyword::Move(Motion::Endfile)),
    ("FLUSH", Keyword::Move(Motion::Flush)),
    ("INQUIRE", Keyword::Inquire),
    ("END", Keyword::End),
];

/// A specifier of an input/output statement (ISO/IEC 1539-1:2004, 9.4 to 9.9; NEWUNIT= of ISO/IEC 1539-1:2010, 9.5.6.12).
#[derive(Clone, Copy, PartialEq, Eq)]
pub enum Specifier {
    Unit,
    File,
    Fmt,
    Nml,
    Iostat,
    Id,
    Status,
    Position,
    Advance,
    Rec,
    Newunit,
    /// A property that INQUIRE asks for; other statements take some of them.
    Property(Question),
}

pub const SPECIFIERS: [(&str, Specifier); 30] = [
    ("UNIT", Specifier::Unit),
    ("FILE", Specifier::File),
    ("FMT", Specifier::Fmt),
    ("NML", Specifier::Nml),
    ("IOSTAT", Specifier::Iostat),
    ("ID", Specifier::Id),
    ("STATUS", Specifier::Status),
    ("POSITION", Specifier::Position),
    ("ADVANCE", Specifier::Advance),
    ("REC", Specifier::Rec),
    ("NEWUNIT", Specifier::Newunit),
    ("ACCESS", Specifier::Property(Question::Access)),
    ("FORM", Specifier::Property(Question::Form)),
    ("RECL", Specifier::Property(Question::Recl)),
    ("ACTION", Specifier::Property(Question::Action)),
    ("BLANK", Specifier::Property(Question::Blank)),
    ("DELIM", Specifier::Property(Question::Delim)),
    ("PAD", Specifier::Property(Question::Pad)),
    ("DECIMAL", Specifier::Property(Question::Decimal)),
    ("SIGN", Specifier::Property(Question::Sign)),
    ("ASYNCHRONOUS", Specifier::Property(Question::Asynchronous)),
    ("SIZE", Specifier::Property(Question::Size)),
    ("POS", Specifier::Property(Question::Pos)),
    ("EXIST", Specifier::Property(Question::Exist)),
    ("OPENED", Specifier::Property(Question::Opened)),
    ("NUMBER", Specifier::Property(Question::Number)),
    ("NAMED", Specifier::Property(Question::Named)),
    ("NAME", Specifier::Property(Question::Name)),
    ("NEXTREC", Specifier::Property(Question::Nextrec)),
    ("PENDING", Specifier::Property(Question::Pending)),
];

/// What stands beside a word in a table. Words of the grammar are in upper case here.
fn meaning_of<T: Copy>(words: &[(&str, T)], word: &Word<'_>) -> Option<T>
    ensures { result ≡ meaning_of (map (λ row. (row.0.now, row.1)) words.now) word.now }
{
    for row in words {
        if word.is(row.0.as_bytes()) {
            return Some(row.1);
        }
    }
    None
}

#[tactic(auto, unfolding(crate::specs::Words::keyword_of))]
pub fn keyword_of(word: &Word<'_>) -> Option<Keyword>
    ensures { result ≡ keyword_of word.now }
{
    meaning_of(&KEYWORDS, word)
}

#[tactic(auto, unfolding(crate::specs::Words::specifier_of))]
pub fn specifier_of(word: &Word<'_>) -> Option<Specifier>
    ensures { result ≡ specifier_of word.now }
{
    meaning_of(&SPECIFIERS, word)
}

/// Whether a statement takes a specifier.
pub fn takes(keyword: Keyword, specifier: Specifier) -> bool
    ensures { result ≡ takes keyword specifier }
{
    use Question::*;
    use Specifier::*;
    let opens = matches!(keyword, Keyword::Open);
    let asks = matches!(keyword, Keyword::Inquire);
    let reads = matches!(keyword, Keyword::Transfer { input: true });
    let writes = matches!(keyword, Keyword::Transfer { input: false });
    match specifier {
        Unit | Iostat => true,
        File | Property(Access | Form | Recl | Action) => opens || asks,
        Status => opens || matches!(keyword, Keyword::Close),
        Position | Newunit => opens,
        Property(Blank | Pad) => opens || reads || asks,
        Property(Delim | Sign) => opens || writes || asks,
        Property(Decimal | Asynchronous) => opens || reads || writes || asks,
        Fmt | Nml | Advance | Rec => reads || writes,
        Id => reads || writes || asks || matches!(keyword, Keyword::Wait),
        Property(Pos) => reads || writes || asks,
        Property(Size) => reads || asks,
        Property(Exist | Opened | Number | Named | Name | Nextrec | Pending) => asks,
    }
}
