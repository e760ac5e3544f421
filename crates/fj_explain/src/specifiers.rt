// The specifiers of the statements, and what each is given.
use Statement::*;

/// An input/output statement.
#[derive(Clone, Copy, PartialEq, Eq)]
pub enum Statement {
    Open,
    Close,
    Read,
    Write,
    Wait,
    /// BACKSPACE, REWIND, ENDFILE or FLUSH.
    Motion,
    Inquire,
}

/// A class of kinds.
#[derive(Clone, Copy, PartialEq, Eq)]
pub enum Class {
    Numbers,
    Truths,
    Characters,
}

/// What a specifier is given.
#[derive(Clone, Copy)]
pub enum Value {
    Unit,
    File,
    /// One of these words, as a literal.
    Words(&'static [&'static str]),
    /// A record length, as a literal.
    Length,
    Format,
    Group,
    /// An integer, as a literal or a place.
    Integer,
    /// A place of a class.
    Place(Class),
}

type Row = (&'static str, &'static [Statement], Value);

const YES_NO: &[&str] = &["YES", "NO"];

/// Each specifier with the statements that have it so.
pub static SPECIFIERS: [Row; 44] = [
    (
        "UNIT",
        &[Open, Close, Read, Write, Wait, Motion, Inquire],
        Value::Unit,
    ),
    ("NEWUNIT", &[Open], Value::Place(Class::Numbers)),
    ("FILE", &[Open, Inquire], Value::File),
    (
        "STATUS",
        &[Open],
        Value::Words(&["OLD", "NEW", "SCRATCH", "REPLACE", "UNKNOWN"]),
    ),
    ("STATUS", &[Close], Value::Words(&["KEEP", "DELETE"])),
    (
        "ACCESS",
        &[Open],
        Value::Words(&["SEQUENTIAL", "DIRECT", "STREAM"]),
    ),
    ("FORM", &[Open], Value::Words(&["FORMATTED", "UNFORMATTED"])),
    ("RECL", &[Open], Value::Length),
    (
        "POSITION",
        &[Open],
        Value::Words(&["ASIS", "REWIND", "APPEND"]),
    ),
    (
        "ACTION",
        &[Open],
        Value::Words(&["READ", "WRITE", "READWRITE"]),
    ),
    ("BLANK", &[Open, Read], Value::Words(&["NULL", "ZERO"])),
    (
        "DELIM",
        &[Open, Write],
        Value::Words(&["APOSTROPHE", "QUOTE", "NONE"]),
    ),
    ("PAD", &[Open, Read], Value::Words(YES_NO)),
    (
        "DECIMAL",
        &[Open, Read, Write],
        Value::Words(&["COMMA", "POINT"]),
    ),
    (
        "SIGN",
        &[Open, Write],
        Value::Words(&["PLUS", "SUPPRESS", "PROCESSOR_DEFINED"]),
    ),
    ("ASYNCHRONOUS", &[Open, Read, Write], Value::Words(YES_NO)),
    ("FMT", &[Read, Write], Value::Format),
    ("NML", &[Read, Write], Value::Group),
    ("ADVANCE", &[Read, Write], Value::Words(YES_NO)),
    ("REC", &[Read, Write], Value::Integer),
    ("POS", &[Read, Write], Value::Integer),
    ("ID", &[Read, Write], Value::Place(Class::Numbers)),
    ("ID", &[Wait, Inquire], Value::Integer),
    ("SIZE", &[Read], Value::Place(Class::Numbers)),
    (
        "IOSTAT",
        &[Open, Close, Read, Write, Wait, Motion, Inquire],
        Value::Place(Class::Numbers),
    ),
    ("EXIST", &[Inquire], Value::Place(Class::Truths)),
    ("OPENED", &[Inquire], Value::Place(Class::Truths)),
    ("NUMBER", &[Inquire], Value::Place(Class::Numbers)),
    ("NAMED", &[Inquire], Value::Place(Class::Truths)),
    ("NAME", &[Inquire], Value::Place(Class::Characters)),
    ("ACCESS", &[Inquire], Value::Place(Class::Characters)),
    ("FORM", &[Inquire], Value::Place(Class::Characters)),
    ("RECL", &[Inquire], Value::Place(Class::Numbers)),
    ("NEXTREC", &[Inquire], Value::Place(Class::Numbers)),
    ("POS", &[Inquire], Value::Place(Class::Numbers)),
    ("SIZE", &[Inquire], Value::Place(Class::Numbers)),
    ("PENDING", &[Inquire], Value::Place(Class::Truths)),
    ("BLANK", &[Inquire], Value::Place(Class::Characters)),
    ("DELIM", &[Inquire], Value::Place(Class::Characters)),
    ("PAD", &[Inquire], Value::Place(Class::Characters)),
    ("DECIMAL", &[Inquire], Value::Place(Class::Characters)),
    ("SIGN", &[Inquire], Value::Place(Class::Characters)),
    ("ACTION", &[Inquire], Value::Place(Class::Characters)),
    ("ASYNCHRONOUS", &[Inquire], Value::Place(Class::Characters)),
];
