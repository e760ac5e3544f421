// Fields that gfortran reads, fields on which it differs, and the conditions.
use fj_edit_in::{read_bits, read_field, read_int, read_logical, read_text};
use fj_value::{Condition, Delim, Edit, EditModes, Kind, Text, Value};
use std::alloc::{AllocError, Global};
use std::test::*;

/// Base (10 for I), BLANK='ZERO', kind, field, and the value that gfortran reads or the error that stands for its own.
static NUMBERS: [(u8, bool, Kind, &[u8], Result<i64, u8>); 75] = [
    (10, false, Kind::Int4, b"42", Ok(42)),
    (10, false, Kind::Int4, b"   42", Ok(42)),
    (10, false, Kind::Int4, b"42   ", Ok(42)),
    (10, false, Kind::Int4, b"-7", Ok(-7)),
    (10, false, Kind::Int4, b" -7", Ok(-7)),
    (10, false, Kind::Int4, b"+7", Ok(7)),
    (10, false, Kind::Int4, b"  +7 ", Ok(7)),
    (10, false, Kind::Int4, b"00042", Ok(42)),
    (10, false, Kind::Int4, b"-0", Ok(0)),
    (10, false, Kind::Int4, b"0", Ok(0)),
    (10, false, Kind::Int4, b"1 2 ", Ok(12)),
    (10, true, Kind::Int4, b"1 2 ", Ok(1020)),
    (10, false, Kind::Int4, b" 1 2", Ok(12)),
    (10, true, Kind::Int4, b" 1 2", Ok(102)),
    (10, false, Kind::Int4, b"- 1", Ok(-1)),
    (10, true, Kind::Int4, b"- 1", Ok(-1)),
    (10, false, Kind::Int4, b"  -1 ", Ok(-1)),
    (10, true, Kind::Int4, b"  -1 ", Ok(-10)),
    (10, false, Kind::Int4, b"    ", Ok(0)),
    (10, true, Kind::Int4, b"    ", Ok(0)),
    (10, false, Kind::Int4, b"1   ", Ok(1)),
    (10, true, Kind::Int4, b"1   ", Ok(1000)),
    (10, false, Kind::Int4, b"12 4", Ok(124)),
    (10, true, Kind::Int4, b"12 4", Ok(1204)),
    (10, false, Kind::Int4, b"+ 5 ", Ok(5)),
    (10, true, Kind::Int4, b"+ 5 ", Ok(50)),
    (10, false, Kind::Int4, b"1x2", Err(13)),
    (10, false, Kind::Int4, b"x", Err(13)),
    (10, false, Kind::Int4, b"1.5", Err(13)),
    (10, false, Kind::Int4, b"--1", Err(13)),
    (10, false, Kind::Int4, b"1-", Err(13)),
    (10, false, Kind::Int4, b"+-1", Err(13)),
    (10, false, Kind::Int4, b"1,2", Err(13)),
    (10, false, Kind::Int4, b"12a", Err(13)),
    (10, false, Kind::Int4, b"A", Err(13)),
    (10, false, Kind::Int4, b"2147483647", Ok(2147483647)),
    (10, false, Kind::Int4, b"2147483648", Err(14)),
    (10, false, Kind::Int4, b"-2147483648", Ok(-2147483648)),
    (10, false, Kind::Int4, b"-2147483649", Err(14)),
    (10, false, Kind::Int4, b"02147483648", Err(14)),
    (10, false, Kind::Int4, b"99999999999999999999", Err(14)),
    (10, false, Kind::Int8, b"9223372036854775807", Ok(i64::MAX)),
    (10, false, Kind::Int8, b"9223372036854775808", Err(14)),
    (10, false, Kind::Int8, b"-9223372036854775808", Ok(i64::MIN)),
    (10, false, Kind::Int8, b"-9223372036854775809", Err(14)),
    (
        10,
        false,
        Kind::Int8,
        b"000009223372036854775807",
        Ok(i64::MAX),
    ),
    (2, false, Kind::Int4, b"101", Ok(5)),
    (2, false, Kind::Int4, b" 101", Ok(5)),
    (2, false, Kind::Int4, b"1 1 ", Ok(3)),
    (2, false, Kind::Int4, b"0000000101", Ok(5)),
    (2, false, Kind::Int4, b"102", Err(13)),
    (
        2,
        false,
        Kind::Int4,
        b"11111111111111111111111111111111",
        Ok(-1),
    ),
    (
        2,
        false,
        Kind::Int4,
        b"111111111111111111111111111111111",
        Err(14),
    ),
    (
        2,
        false,
        Kind::Int4,
        b"10000000000000000000000000000000",
        Ok(-2147483648),
    ),
    (2, true, Kind::Int4, b"1 1 ", Ok(10)),
    (8, false, Kind::Int4, b"17", Ok(15)),
    (8, false, Kind::Int4, b"37777777777", Ok(-1)),
    (8, false, Kind::Int4, b"40000000000", Err(14)),
    (8, false, Kind::Int4, b"8", Err(13)),
    (8, false, Kind::Int4, b"20000000000", Ok(-2147483648)),
    (8, false, Kind::Int8, b"1777777777777777777777", Ok(-1)),
    (8, false, Kind::Int8, b"2000000000000000000000", Err(14)),
    (16, false, Kind::Int4, b"FFFFFFFF", Ok(-1)),
    (16, false, Kind::Int4, b"ffffffff", Ok(-1)),
    (16, false, Kind::Int4, b"7fFf", Ok(32767)),
    (16, false, Kind::Int4, b"80000000", Ok(-2147483648)),
    (16, false, Kind::Int4, b"1FFFFFFFF", Err(14)),
    (16, false, Kind::Int4, b"00FFFFFFFF", Ok(-1)),
    (16, false, Kind::Int4, b"G", Err(13)),
    (16, false, Kind::Int4, b"  1A ", Ok(26)),
    (16, false, Kind::Int4, b"1 A ", Ok(26)),
    (16, true, Kind::Int4, b"1 A ", Ok(4256)),
    (16, false, Kind::Int8, b"FFFFFFFFFFFFFFFF", Ok(-1)),
    (16, false, Kind::Int8, b"10000000000000000", Err(14)),
    (16, false, Kind::Int8, b"8000000000000000", Ok(i64::MIN)),
];

/// The same where gfortran differs: it reads a sign alone as 0 and takes a tab for a blank, and it answers the first
/// fault from the left, but 13 comes before 14.
static OWN_NUMBERS: [(u8, bool, Kind, &[u8], Result<i64, u8>); 11] = [
    (10, false, Kind::Int4, b"-", Err(13)),
    (10, true, Kind::Int4, b"+", Err(13)),
    (10, false, Kind::Int4, b"  -  ", Err(13)),
    (10, true, Kind::Int4, b" -  ", Ok(0)),
    (10, false, Kind::Int4, b"\t42", Err(13)),
    (10, false, Kind::Int4, b"4\t2", Err(13)),
    (16, false, Kind::Int4, b"-1", Err(13)),
    (2, false, Kind::Int8, b"+1", Err(13)),
    (10, false, Kind::Int8, b"99999999999999999999x", Err(13)),
    (16, false, Kind::Int8, b"FFFFFFFFFFFFFFFFF-", Err(13)),
    (10, false, Kind::Int4, b"", Ok(0)),
];

/// Fields under L and what gfortran reads; it refuses those with no value.
static LOGICALS: [(&[u8], Option<bool>); 17] = [
    (b"T", Some(true)),
    (b"  t", Some(true)),
    (b".TRUE.", Some(true)),
    (b".true.", Some(true)),
    (b" .tr", Some(true)),
    (b"F", Some(false)),
    (b"false", Some(false)),
    (b".f", Some(false)),
    (b"x", None),
    (b"..T", None),
    (b". T", None),
    (b"tabc", Some(true)),
    (b"   ", None),
    (b".", None),
    (b"TF", Some(true)),
    (b"0", None),
    (b".F", Some(false)),
];

/// Fields under A, the length of the variable, and its characters: what gfortran reads, and last two fields whose
/// blanks count as characters, of which gfortran takes none at the end of a record.
static TEXTS: [(&[u8], u32, &[u8]); 6] = [
    (b"abcde", 3, b"cde"),
    (b"abcde", 5, b"abcde"),
    (b"ab", 5, b"ab   "),
    (b"abc", 3, b"abc"),
    (b"  x ", 2, b"x "),
    (b"c    ", 4, b"    "),
];

fn modes(blank_zero: bool) -> EditModes {
    EditModes {
        blank_zero,
        comma: false,
        delim: Delim::Plain,
        pad: true,
        plus: false,
    }
}

fn edit_of(base: u8, w: u32) -> Edit {
    if base == 10 {
        Edit::Int { w, m: None }
    } else {
        Edit::Bits { base, w, m: None }
    }
}

/// What a field gives: an integer, or the error with the variable as it was.
fn read_number(
    alloc: Global,
    base: u8,
    blank_zero: bool,
    kind: Kind,
    chars: &[u8],
) -> Result<Option<Result<i64, u8>>, AllocError> {
    let mut out = Value::Int(99);
    let condition = read_field(
        alloc,
        edit_of(base, 9),
        kind,
        modes(blank_zero),
        chars,
        &mut out,
    )?;
    Ok(match (condition, out) {
        (Condition::Fine, Value::Int(n)) => Some(Ok(n)),
        (Condition::Error(code), Value::Int(99)) => Some(Err(code)),
        _ => None,
    })
}

/// Whether a field gives that.
fn is_number(
    alloc: Global,
    base: u8,
    blank_zero: bool,
    kind: Kind,
    chars: &[u8],
    expected: Result<i64, u8>,
) -> bool {
    match read_number(alloc, base, blank_zero, kind, chars) {
        Ok(value) => value == Some(expected),
        Err(_) => false,
    }
}

#[test]
fn numbers(rt: HostRuntime) {
    for (base, blank_zero, kind, chars, expected) in NUMBERS.iter().chain(OWN_NUMBERS.iter()) {
        assert!(rt;
            is_number(rt.alloc(), *base, *blank_zero, *kind, chars, *expected),
            "base {base}, {chars:?}"
        );
    }
}

/// What a field gives under L; nothing where it is refused and the variable is as it was.
fn read_truth(alloc: Global, chars: &[u8]) -> Result<Result<Option<bool>, ()>, AllocError> {
    let mut out = Value::Undefined;
    let edit = Edit::Log { w: 9 };
    let condition = read_field(alloc, edit, Kind::Logical, modes(false), chars, &mut out)?;
    Ok(match (condition, out) {
        (Condition::Fine, Value::Log(truth)) => Ok(Some(truth)),
        (Condition::Error(13), Value::Undefined) => Ok(None),
        _ => Err(()),
    })
}

/// Whether a field gives that under L.
fn is_truth(alloc: Global, chars: &[u8], expected: Option<bool>) -> bool {
    match read_truth(alloc, chars) {
        Ok(truth) => truth == Ok(expected),
        Err(_) => false,
    }
}

#[test]
fn logicals(rt: HostRuntime) {
    for (chars, expected) in LOGICALS.iter() {
        assert!(rt; is_truth(rt.alloc(), chars, *expected), "{chars:?}");
    }
}

/// Whether a field gives these characters under A.
fn reads_text(alloc: Global, chars: &[u8], length: u32, expected: &[u8]) -> bool {
    let mut out = Value::Undefined;
    let edit = Edit::Chars { w: Some(9) };
    let kind = Kind::Chars(length);
    let condition = read_field(alloc, edit, kind, modes(false), chars, &mut out);
    condition == Ok(Condition::Fine) && has_chars(&out, expected)
}

fn has_chars(value: &Value, expected: &[u8]) -> bool {
    matches!(value, Value::Chars(text) if text.bytes() == expected)
}

#[test]
fn texts(rt: HostRuntime) {
    for (chars, length, expected) in TEXTS.iter() {
        assert!(rt;
            reads_text(rt.alloc(), chars, *length, expected),
            "{chars:?}"
        );
    }
}

/// Whether the descriptor is not for the kind, and the variable stays as it was.
fn is_refused(alloc: Global, edit: Edit, kind: Kind) -> bool {
    let mut out = Value::Int(99);
    let condition = read_field(alloc, edit, kind, modes(false), b"x", &mut out);
    condition == Ok(Condition::Error(12)) && matches!(out, Value::Int(99))
}

/// Descriptors that are not for a kind.
static REFUSED: [(Edit, Kind); 8] = [
    (Edit::Int { w: 1, m: None }, Kind::Logical),
    (Edit::Int { w: 1, m: None }, Kind::Chars(1)),
    (
        Edit::Bits {
            base: 8,
            w: 1,
            m: None,
        },
        Kind::Logical,
    ),
    (
        Edit::Bits {
            base: 8,
            w: 1,
            m: None,
        },
        Kind::Chars(1),
    ),
    (Edit::Log { w: 1 }, Kind::Int4),
    (Edit::Log { w: 1 }, Kind::Chars(1)),
    (Edit::Chars { w: None }, Kind::Int8),
    (Edit::Chars { w: None }, Kind::Logical),
];

const GENERAL: Edit = Edit::General { w: 3, d: 1 };

/// Whether an integer and a logical value are read so, one behind the other.
fn reads_int_and_logical(alloc: Global, out: &mut Value) -> bool {
    read_int(alloc, GENERAL, Kind::Int8, modes(false), b" 42", out).is_ok()
        && matches!(out, Value::Int(42))
        && read_logical(alloc, GENERAL, Kind::Logical, modes(false), b" .t", out).is_ok()
        && matches!(out, Value::Log(true))
}

/// Whether characters and bits are.
fn reads_text_and_bits(alloc: Global, out: &mut Value) -> bool {
    read_text(alloc, GENERAL, Kind::Chars(2), modes(false), b"abc", out).is_ok()
        && has_chars(out, b"bc")
        && read_bits(alloc, edit_of(16, 3), Kind::Int4, modes(false), b" fF", out).is_ok()
        && matches!(out, Value::Int(255))
}

/// Whether each pair of calls reads what it is to.
fn reads_each(alloc: Global) -> (bool, bool) {
    let mut out = Value::Undefined;
    let first = reads_int_and_logical(alloc, &mut out);
    let second = reads_text_and_bits(alloc, &mut out);
    (first, second)
}

/// Each call once, G by the kind, and the descriptors that are not for a kind, which come before bad characters.
#[test]
fn conditions(rt: HostRuntime) {
    assert_eq!(rt; reads_each(rt.alloc()), (true, true));
    for (number, (edit, kind)) in REFUSED.iter().enumerate() {
        assert!(rt; is_refused(rt.alloc(), *edit, *kind), "row {number}");
    }
}
