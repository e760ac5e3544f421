// Why a text is no deck, or cannot be carried out.

/// Why a line is refused. In the order in which one line is looked at: too long, no statement, no format, no meaning,
/// past a limit.
#[derive(Clone, Copy, Debug, PartialEq, Eq)]
pub enum Reason {
    /// The text has more than 4,194,304 bytes. The line is the first.
    TextTooLong,
    /// More than 1,000 bytes, the end of the line not counted.
    LineTooLong,
    /// No statement, or one that has no place here.
    Syntax,
    /// A literal is no format. Its longest front that begins a format has this length.
    Format { at: u32 },
    /// A name, a subscript, a literal, a kind or a combination of specifiers that has no meaning.
    Meaning,
    /// Past a limit of this processor.
    TooMany,
    /// The text has no END. The line is the one behind the last.
    NoEnd,
}
