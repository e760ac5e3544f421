// The characters of a format outside its strings (ISO/IEC 1539-1:2004, 10.2).
ghost use Rattle.std.specs.Prelude.{◌≡◌};
ghost use Rattle.fj_format.specs.Symbols.{is_blank, is_quote, is_digit, upper, letter_of, symbol_of};

/// A letter that some edit descriptor has.
#[derive(Clone, Copy)]
pub enum Letter {
    A,
    B,
    C,
    D,
    E,
    G,
    I,
    L,
    N,
    O,
    P,
    R,
    S,
    T,
    X,
    Z,
}

/// What a character stands for outside a string, in either case.
#[derive(Clone, Copy)]
pub enum Symbol {
    /// A digit, by its value.
    Digit(u8),
    Letter(Letter),
    Open,
    Close,
    Comma,
    Point,
    Slash,
    Colon,
    Star,
    /// A character that stands in no format.
    Other,
}

pub fn is_blank_char(c: u8) -> bool
    ensures { result ≡ is_blank c }
{
    c == b' ' || c == b'\t'
}

pub fn is_quote_char(c: u8) -> bool
    ensures { result ≡ is_quote c }
{
    c == b'\'' || c == b'"'
}

fn is_digit_char(c: u8) -> bool
    ensures { result ≡ is_digit c }
{
    c >= b'0' && c < b'9' + 1
}

fn to_upper(c: u8) -> u8
    ensures { result ≡ upper c }
{
    if c >= b'a' && c < b'z' + 1 { c - 32 } else { c }
}

fn as_letter(c: u8) -> Option<Letter>
    ensures { result ≡ letter_of c }
{
    match c {
        b'A' => Some(Letter::A),
        b'B' => Some(Letter::B),
        b'C' => Some(Letter::C),
        b'D' => Some(Letter::D),
        b'E' => Some(Letter::E),
        b'G' => Some(Letter::G),
        b'I' => Some(Letter::I),
        b'L' => Some(Letter::L),
        b'N' => Some(Letter::N),
        b'O' => Some(Letter::O),
        b'P' => Some(Letter::P),
        b'R' => Some(Letter::R),
        b'S' => Some(Letter::S),
        b'T' => Some(Letter::T),
        b'X' => Some(Letter::X),
        b'Z' => Some(Letter::Z),
        _ => None,
    }
}

pub fn as_symbol(c: u8) -> Symbol
    ensures { result ≡ symbol_of c }
{
    if is_digit_char(c) {
        return Symbol::Digit(c - b'0');
    }
    match c {
        b'(' => Symbol::Open,
        b')' => Symbol::Close,
        b',' => Symbol::Comma,
        b'.' => Symbol::Point,
        b'/' => Symbol::Slash,
        b':' => Symbol::Colon,
        b'*' => Symbol::Star,
        _ => match as_letter(to_upper(c)) {
            Some(letter) => Symbol::Letter(letter),
            None => Symbol::Other,
        },
    }
}
