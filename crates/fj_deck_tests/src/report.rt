// Each line of the report once.
use fj_report::{
    Status, Summary, Tell, check_line, status_line, summary_line, trace_line, trace_lines,
    usage_line, variable_line,
};
use fj_statement::Reason;
use fj_value::{Rule, Tag, Text, Value};
use std::alloc::{AllocError, Global};
use std::test::*;

mod words;

static STATUSES: [(Status, &[u8]); 18] = [
    (Status::Ended, b"= ended\n"),
    (
        Status::ErrorStop { stmt: 7, code: 1 },
        b"= error stop at 7 with 1\n",
    ),
    (
        Status::ErrorStop {
            stmt: 100_000,
            code: -1,
        },
        b"= error stop at 100000 with -1\n",
    ),
    (
        Status::Prohibited {
            stmt: 4,
            rule: Rule::P1,
        },
        b"= prohibited at 4 by P1\n",
    ),
    (
        Status::Prohibited {
            stmt: 8,
            rule: Rule::P5,
        },
        b"= prohibited at 8 by P5\n",
    ),
    (
        Status::DeckRefused {
            line: 1,
            reason: Reason::TextTooLong,
        },
        b"= refused at 1: text too long\n",
    ),
    (
        Status::DeckRefused {
            line: 2,
            reason: Reason::LineTooLong,
        },
        b"= refused at 2: line too long\n",
    ),
    (
        Status::DeckRefused {
            line: 3,
            reason: Reason::Syntax,
        },
        b"= refused at 3: syntax\n",
    ),
    (
        Status::DeckRefused {
            line: 4,
            reason: Reason::Format { at: 12 },
        },
        b"= refused at 4: format at 12\n",
    ),
    (
        Status::DeckRefused {
            line: 4,
            reason: Reason::Format { at: 0 },
        },
        b"= refused at 4: format at 0\n",
    ),
    (
        Status::DeckRefused {
            line: 2,
            reason: Reason::Meaning,
        },
        b"= refused at 2: meaning\n",
    ),
    (
        Status::DeckRefused {
            line: 5,
            reason: Reason::TooMany,
        },
        b"= refused at 5: too many\n",
    ),
    (
        Status::DeckRefused {
            line: 1,
            reason: Reason::NoEnd,
        },
        b"= refused at 1: no end\n",
    ),
    (
        Status::Usage,
        b"usage: fjob run [--workers N] [--trace] | alone [--trace] | check | gen --seed N --count M [--text]\n",
    ),
    (Status::DiskFault { stmt: 8 }, b"= disk fault at 8\n"),
    (Status::ReadFault, b""),
    (Status::WriteFault, b""),
    (Status::Memory, b""),
];

/// Characters, and how they stand in a line.
static CHARACTERS: [(&[u8], &[u8]); 8] = [
    (b"it's", b"C = 'it''s'\n"),
    (b"abc  ", b"C = 'abc  '\n"),
    (b"", b"C = ''\n"),
    (b"''", b"C = ''''''\n"),
    (b" ~\"", b"C = ' ~\"'\n"),
    (b"a\\b", b"C = 'a\\5Cb'\n"),
    (b"\x00\t\n\x1f", b"C = '\\00\\09\\0A\\1F'\n"),
    (b"\x7f\x80\xab\xff", b"C = '\\7F\\80\\AB\\FF'\n"),
];

/// Whether an answer has this line.
fn is_told(alloc: Global, status: &Status, line: &[u8]) -> bool {
    let mut out = Text::new(alloc);
    status_line(status, &mut out).is_ok() && out.bytes() == line
}

#[test]
fn answers(rt: HostRuntime) {
    for (number, (status, line)) in STATUSES.iter().enumerate() {
        assert!(rt; is_told(rt.alloc(), status, line), "row {number}");
    }
}

static OTHER_LINES: &[u8] = b"\
    = deck of 2 statements\n\
    usage: fjob run [--workers N] [--trace] | alone [--trace] | check | gen --seed N --count M [--text]\n\
    ~ 8 10 3 -1\n\
    ~ 7 -2147483648 0 0\n";

/// Whether other lines stand so behind one another.
fn are_told(alloc: Global, lines: &[u8]) -> bool {
    let mut out = Text::new(alloc);
    check_line(2, &mut out).is_ok()
        && usage_line(&mut out).is_ok()
        && trace_line(8, 10, Tag(3), -1, &mut out).is_ok()
        && trace_line(7, -2147483648, Tag(0), 0, &mut out).is_ok()
        && out.bytes() == lines
}

#[test]
fn other_lines(rt: HostRuntime) {
    assert!(rt; are_told(rt.alloc(), OTHER_LINES));
}

/// Whether a variable stands so in a line, behind what stood there.
fn stands(out: &mut Text, name: &[u8], index: u32, value: Option<&Value>, line: &[u8]) -> bool {
    variable_line(name, index, value, out).is_ok()
        && matches!(out.bytes(), [b'=', added @ ..] if added == line)
}

/// A value that is not one of characters.
#[derive(Clone, Copy)]
enum Plain {
    Undefined,
    Int(i64),
    Log(bool),
}

fn value_of(plain: Plain) -> Value {
    match plain {
        Plain::Undefined => Value::Undefined,
        Plain::Int(number) => Value::Int(number),
        Plain::Log(truth) => Value::Log(truth),
    }
}

/// Variables, and their lines.
static VARIABLES: [(&[u8], u32, Option<Plain>, &[u8]); 7] = [
    (b"A", 0, Some(Plain::Int(5)), b"A = 5\n"),
    (b"B", 2, Some(Plain::Int(-7)), b"B(2) = -7\n"),
    (b"L", 0, Some(Plain::Log(true)), b"L = T\n"),
    (b"L", 10, Some(Plain::Log(false)), b"L(10) = F\n"),
    (b"A", 0, Some(Plain::Undefined), b"A = ?\n"),
    (b"B", 1, None, b"B(1) = ?\n"),
    (
        b"N",
        0,
        Some(Plain::Int(i64::MIN)),
        b"N = -9223372036854775808\n",
    ),
];

/// Whether a variable stands so in a line.
fn stands_so(alloc: Global, name: &[u8], index: u32, value: Option<&Value>, line: &[u8]) -> bool {
    match Text::from_bytes(alloc, b"=") {
        Ok(mut out) => stands(&mut out, name, index, value, line),
        Err(_) => false,
    }
}

/// Whether a variable with a plain value, or with none, stands so.
fn stands_plain(alloc: Global, name: &[u8], index: u32, plain: Option<Plain>, line: &[u8]) -> bool {
    match plain {
        Some(plain) => stands_so(alloc, name, index, Some(&value_of(plain)), line),
        None => stands_so(alloc, name, index, None, line),
    }
}

#[test]
fn variables(rt: HostRuntime) {
    for (number, (name, index, plain, line)) in VARIABLES.iter().enumerate() {
        assert!(rt;
            stands_plain(rt.alloc(), name, *index, *plain, line),
            "row {number}"
        );
    }
}

/// A value of characters.
fn characters_of(alloc: Global, characters: &[u8]) -> Result<Value, AllocError> {
    Value::of_text(Text::from_bytes(alloc, characters)?)
}

/// Whether characters stand so in a line.
fn stand(alloc: Global, characters: &[u8], line: &[u8]) -> bool {
    match characters_of(alloc, characters) {
        Ok(value) => stands_so(alloc, b"C", 0, Some(&value), line),
        Err(_) => false,
    }
}

#[test]
fn characters(rt: HostRuntime) {
    for (number, (characters, line)) in CHARACTERS.iter().enumerate() {
        assert!(rt; stand(rt.alloc(), characters, line), "row {number}");
    }
}

/// What is told on unit 10.
fn told(stmt: u32, tag: u32, code: i32) -> Tell {
    Tell {
        stmt,
        unit: 10,
        tag: Tag(tag),
        code,
    }
}

/// Whether four tells are traced so.
fn are_traced(alloc: Global, lines: &[u8]) -> bool {
    let mut out = Text::new(alloc);
    let tells = [told(7, 1, 0), told(8, 2, 0), told(8, 3, -1), told(8, 4, -1)];
    trace_lines(&tells, &mut out).is_ok() && out.bytes() == lines
}

#[test]
fn traces(rt: HostRuntime) {
    let lines = b"~ 7 10 1 0\n~ 8 10 2 0\n~ 8 10 3 -1\n~ 8 10 4 -1\n";
    assert!(rt; are_traced(rt.alloc(), lines));
}

/// Whether a summary has this line.
fn is_summed(alloc: Global, summary: &Summary, line: &[u8]) -> bool {
    let mut out = Text::new(alloc);
    summary_line(summary, &mut out).is_ok() && out.bytes() == line
}

#[test]
fn summaries(rt: HostRuntime) {
    let summary = Summary {
        seed: 1,
        count: 20_000,
        statements: 50_003,
        tells: 20_000,
        conditions: 0,
        bytes: 140_000,
        sum: 5_231_001,
    };
    let line =
        b"= gen seed 1 count 20000: 50003 statements, 20000 tells, 0 conditions, 140000 bytes, sum 5231001\n";
    assert!(rt; is_summed(rt.alloc(), &summary, line));
}
