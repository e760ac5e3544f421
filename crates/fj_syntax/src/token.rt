// The tokens of a line (ISO/IEC 1539-1:2004, 3.2).

use crate::literal::Literal;
use crate::word::Word;

/// A mark of the grammar.
#[derive(Clone, Copy, PartialEq, Eq)]
pub enum Mark {
    LeftParenthesis,
    RightParenthesis,
    Comma,
    Equals,
    Slash,
    Asterisk,
    DoubleColon,
}

/// The sign that is written before the digits of a number, if any.
#[derive(Clone, Copy, PartialEq, Eq)]
pub enum Sign {
    Unsigned,
    Plus,
    Minus,
}

#[derive(Drop)]
pub enum Token<'a> {
    /// A name or keyword, in upper case.
    Word(Word<'a>),
    /// An integer literal of up to 19 digits.
    Number(Sign, u64),
    /// A character literal: the characters between its delimiters, a doubled delimiter being one.
    Literal(Literal<'a>),
    /// `.TRUE.` or `.FALSE.`.
    Truth(bool),
    Mark(Mark),
}
