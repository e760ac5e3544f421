// How a run ends.
use fj_statement::Reason;
use fj_value::Rule;

/// What a run answers. `stmt` is the line of a statement.
#[derive(Clone, Copy, PartialEq, Eq)]
pub enum Status {
    /// The deck came to END.
    Ended,
    /// A condition that no IOSTAT= caught (ISO/IEC 1539-1:2004, 9.10); `code` is its number.
    ErrorStop { stmt: u32, code: i32 },
    /// A prohibition was broken.
    Prohibited { stmt: u32, rule: Rule },
    /// The text is no deck, for the reason that the first refused line has. Lines are counted from 1.
    DeckRefused { line: u32, reason: Reason },
    /// The words are no form.
    Usage,
    /// The source failed.
    ReadFault,
    /// The sink failed.
    WriteFault,
    /// The disk or a file of it failed.
    DiskFault { stmt: u32 },
    /// A growth was refused.
    Memory,
}
