// What namelist input is made of (ISO/IEC 1539-1:2004, 10.10.1).
use fj_value::{Condition, Items, Text};

/// A token of namelist input. Blanks, record ends and comments part tokens.
#[derive(Drop)]
pub enum Token {
    /// A name, or a constant without delimiters, maybe with a repeat count.
    Word(Text),
    /// So many times a delimited constant.
    Constant(u32, Text),
    /// `=`
    Equals,
    /// A comma, or under DECIMAL='COMMA' a semicolon.
    Separator,
    /// `/`
    Slash,
    /// Characters that are no constant.
    Wrong,
    /// A delimited constant that does not end: the condition behind the records.
    Open(Condition),
    /// The end of the records: the condition behind them.
    End(Condition),
}

pub type Tokens = Items<Token>;

/// A delimited constant so far.
#[derive(Drop)]
pub struct Delimited {
    pub count: u32,
    pub mark: u8,
    pub characters: Text,
}

/// Where the next character stands.
#[derive(Drop)]
pub enum State {
    /// Between tokens; whether a comment may begin.
    Between(bool),
    Comment,
    InWord(Text),
    /// In a delimited constant.
    Inside(Delimited),
    /// Behind a mark in one.
    Behind(Delimited),
    /// Behind the slash, or behind what is no constant.
    Done,
}
