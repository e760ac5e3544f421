// Fields of gfortran, and the conditions.
use fj_edit_out::{bits_field, field, int_field, integer_fields, logical_field, text_field};
use fj_value::{Condition, Delim, Edit, EditModes, Kind, Text, Value};
use std::alloc::{AllocError, Global};
use std::test::*;

/// Base (10 for I), width, least number of digits, value, kind, SIGN='PLUS', and the field that gfortran writes.
static NUMBERS: [(u8, u32, Option<u32>, i64, Kind, bool, &[u8]); 80] = [
    (10, 0, None, -2147483648, Kind::Int4, false, b"-2147483648"),
    (10, 1, None, -2147483648, Kind::Int4, false, b"*"),
    (10, 11, None, -2147483648, Kind::Int4, false, b"-2147483648"),
    (10, 10, None, -2147483648, Kind::Int4, false, b"**********"),
    (
        10,
        14,
        Some(13),
        -2147483648,
        Kind::Int4,
        false,
        b"-0002147483648",
    ),
    (10, 0, None, 2147483647, Kind::Int4, false, b"2147483647"),
    (10, 1, None, 2147483647, Kind::Int4, false, b"*"),
    (10, 10, None, 2147483647, Kind::Int4, false, b"2147483647"),
    (10, 9, None, 2147483647, Kind::Int4, false, b"*********"),
    (10, 11, None, 2147483647, Kind::Int4, true, b"+2147483647"),
    (10, 10, None, 2147483647, Kind::Int4, true, b"**********"),
    (
        10,
        0,
        None,
        i64::MIN,
        Kind::Int8,
        false,
        b"-9223372036854775808",
    ),
    (
        10,
        20,
        None,
        i64::MIN,
        Kind::Int8,
        false,
        b"-9223372036854775808",
    ),
    (
        10,
        19,
        None,
        i64::MIN,
        Kind::Int8,
        false,
        b"*******************",
    ),
    (
        10,
        0,
        None,
        i64::MAX,
        Kind::Int8,
        false,
        b"9223372036854775807",
    ),
    (
        10,
        19,
        None,
        i64::MAX,
        Kind::Int8,
        false,
        b"9223372036854775807",
    ),
    (
        10,
        18,
        None,
        i64::MAX,
        Kind::Int8,
        false,
        b"******************",
    ),
    (10, 4, None, 5, Kind::Int4, true, b"  +5"),
    (10, 3, Some(0), 0, Kind::Int4, false, b"   "),
    (10, 0, Some(0), 0, Kind::Int4, false, b" "),
    (10, 0, Some(0), 0, Kind::Int4, true, b" "),
    (10, 0, None, 0, Kind::Int4, false, b"0"),
    (10, 3, Some(0), 0, Kind::Int4, true, b"   "),
    (10, 5, Some(3), 0, Kind::Int4, true, b" +000"),
    (10, 1, None, 0, Kind::Int4, true, b"*"),
    (10, 5, None, 42, Kind::Int4, false, b"   42"),
    (10, 2, None, 123, Kind::Int4, false, b"**"),
    (10, 5, Some(3), -7, Kind::Int4, false, b" -007"),
    (10, 0, Some(5), 42, Kind::Int4, false, b"00042"),
    (10, 3, Some(3), -7, Kind::Int4, false, b"***"),
    (10, 4, Some(4), 7, Kind::Int4, false, b"0007"),
    (10, 4, Some(4), 7, Kind::Int4, true, b"****"),
    (
        2,
        0,
        None,
        -2147483648,
        Kind::Int4,
        false,
        b"10000000000000000000000000000000",
    ),
    (2, 1, None, -2147483648, Kind::Int4, false, b"*"),
    (
        2,
        32,
        None,
        -2147483648,
        Kind::Int4,
        false,
        b"10000000000000000000000000000000",
    ),
    (
        2,
        31,
        None,
        -2147483648,
        Kind::Int4,
        false,
        b"*******************************",
    ),
    (8, 0, None, -2147483648, Kind::Int4, false, b"20000000000"),
    (8, 1, None, -2147483648, Kind::Int4, false, b"*"),
    (8, 11, None, -2147483648, Kind::Int4, false, b"20000000000"),
    (8, 10, None, -2147483648, Kind::Int4, false, b"**********"),
    (16, 0, None, -2147483648, Kind::Int4, false, b"80000000"),
    (16, 1, None, -2147483648, Kind::Int4, false, b"*"),
    (16, 8, None, -2147483648, Kind::Int4, false, b"80000000"),
    (16, 7, None, -2147483648, Kind::Int4, false, b"*******"),
    (
        2,
        0,
        None,
        2147483647,
        Kind::Int4,
        false,
        b"1111111111111111111111111111111",
    ),
    (
        2,
        31,
        None,
        2147483647,
        Kind::Int4,
        false,
        b"1111111111111111111111111111111",
    ),
    (
        2,
        30,
        None,
        2147483647,
        Kind::Int4,
        false,
        b"******************************",
    ),
    (8, 0, None, 2147483647, Kind::Int4, false, b"17777777777"),
    (8, 11, None, 2147483647, Kind::Int4, false, b"17777777777"),
    (8, 10, None, 2147483647, Kind::Int4, false, b"**********"),
    (16, 0, None, 2147483647, Kind::Int4, false, b"7FFFFFFF"),
    (16, 8, None, 2147483647, Kind::Int4, false, b"7FFFFFFF"),
    (16, 7, None, 2147483647, Kind::Int4, false, b"*******"),
    (
        2,
        64,
        None,
        i64::MIN,
        Kind::Int8,
        false,
        b"1000000000000000000000000000000000000000000000000000000000000000",
    ),
    (
        2,
        63,
        None,
        i64::MIN,
        Kind::Int8,
        false,
        b"***************************************************************",
    ),
    (
        8,
        22,
        None,
        i64::MIN,
        Kind::Int8,
        false,
        b"1000000000000000000000",
    ),
    (
        8,
        21,
        None,
        i64::MIN,
        Kind::Int8,
        false,
        b"*********************",
    ),
    (
        16,
        16,
        None,
        i64::MIN,
        Kind::Int8,
        false,
        b"8000000000000000",
    ),
    (
        16,
        15,
        None,
        i64::MIN,
        Kind::Int8,
        false,
        b"***************",
    ),
    (
        2,
        63,
        None,
        i64::MAX,
        Kind::Int8,
        false,
        b"111111111111111111111111111111111111111111111111111111111111111",
    ),
    (
        2,
        62,
        None,
        i64::MAX,
        Kind::Int8,
        false,
        b"**************************************************************",
    ),
    (
        8,
        21,
        None,
        i64::MAX,
        Kind::Int8,
        false,
        b"777777777777777777777",
    ),
    (
        8,
        20,
        None,
        i64::MAX,
        Kind::Int8,
        false,
        b"********************",
    ),
    (
        16,
        16,
        None,
        i64::MAX,
        Kind::Int8,
        false,
        b"7FFFFFFFFFFFFFFF",
    ),
    (
        16,
        15,
        None,
        i64::MAX,
        Kind::Int8,
        false,
        b"***************",
    ),
    (16, 8, None, -1, Kind::Int4, false, b"FFFFFFFF"),
    (2, 3, None, -1, Kind::Int4, false, b"***"),
    (8, 0, None, -1, Kind::Int4, false, b"37777777777"),
    (16, 9, None, -1, Kind::Int4, false, b" FFFFFFFF"),
    (16, 16, None, -1, Kind::Int8, false, b"FFFFFFFFFFFFFFFF"),
    (16, 0, None, -1, Kind::Int8, false, b"FFFFFFFFFFFFFFFF"),
    (8, 4, None, 8, Kind::Int4, false, b"  10"),
    (16, 4, Some(2), 10, Kind::Int4, false, b"  0A"),
    (16, 0, Some(4), 10, Kind::Int4, false, b"000A"),
    (2, 6, Some(5), 10, Kind::Int4, false, b" 01010"),
    (2, 3, Some(0), 0, Kind::Int4, false, b"   "),
    (8, 0, Some(0), 0, Kind::Int4, false, b" "),
    (16, 4, Some(2), 0, Kind::Int4, false, b"  00"),
    (16, 1, None, 0, Kind::Int4, false, b"0"),
    (2, 4, None, 5, Kind::Int4, true, b" 101"),
];

/// Width, characters, and the field that gfortran writes.
static TEXTS: [(Option<u32>, &[u8], &[u8]); 7] = [
    (None, b"abc", b"abc"),
    (None, b"", b""),
    (Some(1), b"abc", b"a"),
    (Some(2), b"abc", b"ab"),
    (Some(3), b"abc", b"abc"),
    (Some(5), b"abc", b"  abc"),
    (Some(2), b"", b"  "),
];

fn modes(plus: bool) -> EditModes {
    EditModes {
        blank_zero: false,
        comma: false,
        delim: Delim::Plain,
        pad: true,
        plus,
    }
}

fn edit_of(base: u8, w: u32, m: Option<u32>) -> Edit {
    if base == 10 {
        Edit::Int { w, m }
    } else {
        Edit::Bits { base, w, m }
    }
}

fn written(
    alloc: Global,
    edit: Edit,
    value: &Value,
    kind: Kind,
    plus: bool,
) -> Result<Text, AllocError> {
    let mut out = Text::new(alloc);
    let _ = field(edit, value, kind, modes(plus), &mut out)?;
    Ok(out)
}

/// Whether an item is written as this field.
fn is_written(
    alloc: Global,
    edit: Edit,
    value: &Value,
    kind: Kind,
    plus: bool,
    expected: &[u8],
) -> bool {
    match written(alloc, edit, value, kind, plus) {
        Ok(out) => out.bytes() == expected,
        Err(_) => false,
    }
}

/// Whether an integer is written as this field.
fn is_number(alloc: Global, edit: Edit, n: i64, kind: Kind, plus: bool, expected: &[u8]) -> bool {
    let value = Value::Int(n);
    is_written(alloc, edit, &value, kind, plus, expected)
}

#[test]
fn numbers(rt: HostRuntime) {
    for (base, w, m, n, kind, plus, expected) in NUMBERS.iter() {
        let edit = edit_of(*base, *w, *m);
        assert!(rt;
            is_number(rt.alloc(), edit, *n, *kind, *plus, expected),
            "base {base}, width {w}, {n}"
        );
    }
}

fn value_of(alloc: Global, text: &[u8]) -> Result<Value, AllocError> {
    Value::of_text(Text::from_bytes(alloc, text)?)
}

/// Whether characters are written as this field.
fn is_text(alloc: Global, w: Option<u32>, text: &[u8], expected: &[u8]) -> bool {
    let edit = Edit::Chars { w };
    match value_of(alloc, text) {
        Ok(value) => is_written(alloc, edit, &value, Kind::Chars(3), false, expected),
        Err(_) => false,
    }
}

#[test]
fn texts(rt: HostRuntime) {
    for (number, (w, text, expected)) in TEXTS.iter().enumerate() {
        assert!(rt; is_text(rt.alloc(), *w, text, expected), "row {number}");
    }
}

/// Whether a logical value is written as this field.
fn is_logical(alloc: Global, w: u32, truth: bool, expected: &[u8]) -> bool {
    let value = Value::Log(truth);
    let edit = Edit::Log { w };
    is_written(alloc, edit, &value, Kind::Logical, false, expected)
}

#[test]
fn logicals(rt: HostRuntime) {
    assert!(rt; is_logical(rt.alloc(), 3, false, b"  F"));
    assert!(rt; is_logical(rt.alloc(), 1, true, b"T"));
}

/// Appends one value of each kind under G, characters among them, and one under Z.
fn append_each(general: Edit, text: &Value, out: &mut Text) -> bool {
    let bits = edit_of(16, 3, None);
    int_field(general, &Value::Int(42), Kind::Int4, modes(false), out).is_ok()
        && logical_field(general, &Value::Log(true), Kind::Logical, modes(false), out).is_ok()
        && text_field(general, text, Kind::Chars(3), modes(false), out).is_ok()
        && bits_field(bits, &Value::Int(10), Kind::Int8, modes(false), out).is_ok()
}

/// Whether they are written so.
fn are_written(alloc: Global, general: Edit, expected: &[u8]) -> bool {
    let mut out = Text::new(alloc);
    match value_of(alloc, b"abc") {
        Ok(text) => append_each(general, &text, &mut out) && out.bytes() == expected,
        Err(_) => false,
    }
}

/// G by the kind, each appended to what is there, as gfortran writes it.
#[test]
fn general_fields(rt: HostRuntime) {
    let (wide, free) = (Edit::General { w: 5, d: 1 }, Edit::General { w: 0, d: 0 });
    assert!(rt; are_written(rt.alloc(), wide, b"   42    T  abc  A"));
    assert!(rt; are_written(rt.alloc(), free, b"42Tabc  A"));
}

/// Whether so many of these values are appended, behind which the text is this.
fn appends(values: &[Value], plus: bool, out: &mut Text, count: usize, text: &[u8]) -> bool {
    match integer_fields(5, plus, Kind::Int8, values, out) {
        Ok(appended) => appended == count && out.bytes() == text,
        Err(_) => false,
    }
}

static ROW: &[u8] = b"=    0 -12399999*****";

static BOTH_ROWS: &[u8] = b"=    0 -12399999*****   +0 -123*****";

/// Whether integers in a row are appended so, and the first three of them once more with signs.
fn are_rows(out: &mut Text) -> (bool, bool) {
    let values = [
        Value::Int(0),
        Value::Int(-123),
        Value::Int(99999),
        Value::Int(i64::MIN),
        Value::Undefined,
        Value::Int(1),
    ];
    let first = appends(&values, false, out, 4, ROW);
    let second = appends(&values[..3], true, out, 3, BOTH_ROWS);
    (first, second)
}

/// Integers in a row, as gfortran writes them, up to a value that is none.
#[test]
fn rows(rt: HostRuntime) -> Result<(), Fail> {
    let mut out = Text::from_bytes(rt.alloc(), b"=")?;
    assert_eq!(rt; are_rows(&mut out), (true, true));
    Ok(())
}

/// Whether the item is refused, and nothing appended.
fn is_refused(alloc: Global, edit: Edit, value: &Value, kind: Kind) -> bool {
    match Text::from_bytes(alloc, b"=") {
        Ok(mut out) => {
            field(edit, value, kind, modes(false), &mut out) == Ok(Condition::Error(12))
                && out.bytes() == b"=".as_slice()
        }
        Err(_) => false,
    }
}

/// The first of these by which the value is not refused.
fn accepted(alloc: Global, edits: &[Edit], value: Value, kind: Kind) -> Option<Edit> {
    for edit in edits {
        if !is_refused(alloc, *edit, &value, kind) {
            return Some(*edit);
        }
    }
    None
}

/// The same of a value with no characters.
fn accepted_text(alloc: Global, edits: &[Edit]) -> Result<Option<Edit>, AllocError> {
    match value_of(alloc, b"") {
        Ok(text) => Ok(accepted(alloc, edits, text, Kind::Chars(0))),
        Err(error) => Err(error),
    }
}

#[test]
fn conditions(rt: HostRuntime) {
    let alloc = rt.alloc();
    let int = Edit::Int { w: 4, m: None };
    let bits = Edit::Bits {
        base: 16,
        w: 4,
        m: None,
    };
    let log = Edit::Log { w: 4 };
    let chars = Edit::Chars { w: None };
    let general = Edit::General { w: 4, d: 1 };
    for kind in [Kind::Int4, Kind::Logical, Kind::Chars(4)] {
        let edits = [int, bits, log, chars, general];
        assert_eq!(rt; accepted(alloc, &edits, Value::Undefined, kind), None);
    }
    assert_eq!(rt; accepted_text(alloc, &[int, bits, log]), Ok(None));
    let truth = Value::Log(true);
    assert_eq!(rt;
        accepted(alloc, &[int, bits, chars], truth, Kind::Logical),
        None
    );
    assert_eq!(rt;
        accepted(alloc, &[log, chars], Value::Int(1), Kind::Int8),
        None
    );
}
