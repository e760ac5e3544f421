// Tables of list-directed text, and records that fail.
ghost use Rattle.std.specs.Prelude.{◌≡◌, true};
ghost use Rattle.fj_moved.specs.Moved.{IsOrdered};

use crate::given::{initial, kind_of, records_of};
use fj_list::{MemoryRecords, More, Records, read_list, write_list};
use fj_moved::Moved;
use fj_outside::Stop;
use fj_value::{Cell, Condition, Delim, EditModes, Items, Kind, Place, Text, Value};
use std::alloc::{AllocError, Global};
use std::test::*;

/// A record of input, or several parted by line feeds; whether DECIMAL='COMMA'; the items' kinds (`i` and `j` for
/// INTEGER(4) and INTEGER(8), `l` for LOGICAL, a digit for CHARACTER of that length); what they have afterwards; the
/// number of the condition; how many records were looked at.
type Input = (&'static str, bool, &'static str, &'static str, i32, usize);

/// As gfortran reads them. The items have 1, F and `#` before.
static INPUTS: [Input; 103] = [
    ("2*4,,9", false, "iiii", "4|4|1|9", 0, 1),
    ("7 /", false, "ii", "7|1", 0, 1),
    ("'it''s'", false, "5", "it's ", 0, 1),
    ("'ab\ncd'", false, "4", "abcd", 0, 2),
    ("1;2", true, "ii", "1|2", 0, 1),
    ("1,\n2", false, "ii", "1|2", 0, 2),
    ("x", false, "i", "1", 13, 1),
    ("1 2\n3\n4", false, "iii", "1|2|3", 0, 2),
    ("1 2 3\n4", false, "ii", "1|2", 0, 1),
    ("1\n2\n3", false, "ii", "1|2", 0, 2),
    ("\n\n1\n2", false, "i", "1", 0, 3),
    ("1", false, "ii", "1|1", -1, 1),
    ("1\n\n", false, "ii", "1|1", -1, 2),
    ("", false, "", "", -1, 0),
    ("5 6\n7", false, "", "", 0, 1),
    ("", false, "i", "1", -1, 0),
    ("\n", false, "i", "1", -1, 1),
    ("1,\n\n\n2\n3", false, "ii", "1|2", 0, 4),
    ("1 ,\n2", false, "ii", "1|2", 0, 2),
    ("3,\n", false, "i", "3", 0, 1),
    (",5", false, "ii", "1|5", 0, 1),
    (",,5", false, "iii", "1|1|5", 0, 1),
    ("1,,3", false, "iii", "1|1|3", 0, 1),
    ("1 , , 3", false, "iii", "1|1|3", 0, 1),
    ("1\n,2", false, "ii", "1|2", 0, 2),
    ("1,\n,3", false, "iii", "1|1|3", 0, 2),
    ("   ,4", false, "ii", "1|4", 0, 1),
    ("1,2,", false, "ii", "1|2", 0, 1),
    ("8,,", false, "ii", "8|1", 0, 1),
    (",", false, "i", "1", 0, 1),
    (",\n", false, "ii", "1|1", -1, 1),
    ("/", false, "ii", "1|1", 0, 1),
    ("1/2", false, "ii", "1|1", 0, 1),
    ("1,/", false, "ii", "1|1", 0, 1),
    ("1,,/", false, "iii", "1|1|1", 0, 1),
    ("  / 9", false, "i", "1", 0, 1),
    ("\n/\n3", false, "i", "1", 0, 2),
    ("4 5 / 6\n7", false, "iii", "4|5|1", 0, 1),
    ("2*3/", false, "iii", "3|3|1", 0, 1),
    ("4\n/", false, "ii", "4|1", 0, 2),
    ("'a'/", false, "12", "a|##", 0, 1),
    ("ab/cd", false, "33", "ab |###", 0, 1),
    ("3*", false, "iii", "1|1|1", 0, 1),
    ("3*4,", false, "iii", "4|4|4", 0, 1),
    ("3*,7", false, "iiii", "1|1|1|7", 0, 1),
    ("3* 7", false, "iiii", "1|1|1|7", 0, 1),
    ("2*\n7", false, "iii", "1|1|7", 0, 2),
    ("2*7,8", false, "iii", "7|7|8", 0, 1),
    ("5*7", false, "ii", "7|7", 0, 1),
    ("5*7 9\n3", false, "ii", "7|7", 0, 1),
    ("2*'a b'", false, "33", "a b|a b", 0, 1),
    ("2*'a\nb',3", false, "22i", "ab|ab|3", 0, 2),
    ("0*4", false, "i", "1", 13, 1),
    ("00003*5", false, "iii", "5|5|5", 0, 1),
    ("2*/", false, "ii", "1|1", 0, 1),
    ("1*2 3", false, "ii", "2|3", 0, 1),
    ("*5", false, "i", "1", 13, 1),
    ("1,2", false, "ii", "1|2", 0, 1),
    ("1;;3", true, "iii", "1|1|3", 0, 1),
    ("1 ; 2", true, "ii", "1|2", 0, 1),
    (";2", true, "ii", "1|2", 0, 1),
    ("'a';'b'", true, "11", "a|b", 0, 1),
    ("3*;7", true, "iiii", "1|1|1|7", 0, 1),
    ("\"say \"\"hi\"\"\"", false, "8", "say \"hi\"", 0, 1),
    ("'a\"b'", false, "3", "a\"b", 0, 1),
    ("\"it's\"", false, "4", "it's", 0, 1),
    ("''", false, "3", "   ", 0, 1),
    ("'abcdef'", false, "3", "abc", 0, 1),
    ("abcdef", false, "3", "abc", 0, 1),
    ("ab", false, "4", "ab  ", 0, 1),
    ("ab'c d'", false, "44", "ab'c|d'  ", 0, 1),
    ("'a' b", false, "11", "a|b", 0, 1),
    ("'a'\n'b'", false, "11", "a|b", 0, 2),
    ("'ab'\n'cd'", false, "4", "ab  ", 0, 1),
    ("'\n\n\nx'", false, "2", "x ", 0, 4),
    ("'a,b/c d'", false, "7", "a,b/c d", 0, 1),
    ("'a''\n''b'", false, "5", "a''b ", 0, 2),
    ("5", false, "2", "5 ", 0, 1),
    ("3,4", false, "12", "3|4 ", 0, 1),
    ("+5 -0", false, "ii", "5|0", 0, 1),
    ("-2147483648", false, "i", "-2147483648", 0, 1),
    ("2147483647", false, "i", "2147483647", 0, 1),
    ("2147483648", false, "i", "1", 14, 1),
    ("-2147483649", false, "i", "1", 14, 1),
    (
        "9223372036854775807",
        false,
        "j",
        "9223372036854775807",
        0,
        1,
    ),
    (
        "-9223372036854775808",
        false,
        "j",
        "-9223372036854775808",
        0,
        1,
    ),
    ("9223372036854775808", false, "j", "1", 14, 1),
    ("18446744073709551616000", false, "j", "1", 14, 1),
    ("+", false, "i", "1", 13, 1),
    ("-", false, "i", "1", 13, 1),
    ("1.", false, "i", "1", 13, 1),
    ("1E2", false, "i", "1", 13, 1),
    ("0x1", false, "i", "1", 13, 1),
    ("2 x", false, "ii", "2|1", 13, 1),
    ("+-5", false, "i", "1", 13, 1),
    ("T F", false, "ll", "T|F", 0, 1),
    (".TRUE. .f.x", false, "ll", "T|F", 0, 1),
    ("TRUEISH", false, "l", "T", 0, 1),
    ("t", false, "l", "T", 0, 1),
    (".", false, "l", "F", 13, 1),
    ("1", false, "l", "F", 13, 1),
    ("x", false, "l", "F", 13, 1),
    ("T,2,ab", false, "li3", "T|2|ab ", 0, 1),
];

/// Where this library has a rule of its own: repeat counts over items of different kinds or of any size, tabs, semicolons
/// under DECIMAL='POINT' and commas under 'COMMA', what follows a closing mark, and constants that are not closed.
static OWN_INPUTS: [Input; 25] = [
    ("0*'a", false, "1", "#", 13, 1),
    ("4294967295*6", false, "ii", "6|6", 0, 1),
    ("4294967296*6", false, "i", "1", 13, 1),
    ("99999999999999999999999*6", false, "i", "1", 13, 1),
    ("2*3*4", false, "33", "3*4|3*4", 0, 1),
    ("2*\t5", false, "iii", "1|1|5", 0, 1),
    ("2*5", false, "i2", "5|5 ", 0, 1),
    ("2*x", false, "3i", "x  |1", 13, 1),
    ("2*T", false, "l3", "T|T  ", 0, 1),
    ("\t1\t2", false, "ii", "1|2", 0, 1),
    ("1\t,\t2", false, "ii", "1|2", 0, 1),
    ("a\tb", false, "22", "a |b ", 0, 1),
    ("'a\tb'", false, "3", "a\tb", 0, 1),
    ("1;2", false, "i", "1", 13, 1),
    ("a;b", false, "3", "a;b", 0, 1),
    ("a,b", true, "3", "a,b", 0, 1),
    ("1,2", true, "i", "1", 13, 1),
    ("'a','b'", true, "1", "#", 13, 1),
    ("'a'b", false, "1", "#", 13, 1),
    ("'a'!", false, "1", "#", 13, 1),
    ("'5'", false, "i", "1", 13, 1),
    ("'5", false, "i", "1", -1, 1),
    ("'T'", false, "l", "F", 13, 1),
    ("\n,4", false, "ii", "1|4", 0, 2),
    ("'ab\n", false, "2", "##", -1, 1),
];

fn modes(comma: bool, delim: Delim, plus: bool) -> EditModes {
    EditModes {
        blank_zero: false,
        comma,
        delim,
        pad: true,
        plus,
    }
}

fn add(moved: &mut Moved, kind: Kind, value: Value) -> Result<(), AllocError> {
    let var = u32::try_from(moved.cells.len()).unwrap_or(0);
    let place = Place { var, index: 1 };
    moved.cells.push(Cell { place, kind, value })?;
    moved.order.push(var)
}

fn items_of(alloc: Global, kinds: &str) -> Result<Moved, AllocError> {
    let mut moved = Moved {
        cells: Items::new(alloc),
        order: Items::new(alloc),
    };
    for letter in kinds.as_bytes() {
        let kind = kind_of(*letter);
        add(&mut moved, kind, initial(alloc, kind)?)?;
    }
    Ok(moved)
}

fn is_ordered(moved: &Moved) -> bool
    ensures { result ≡ true → IsOrdered moved.now }
{
    for at in moved.order.as_slice() {
        if *at as usize >= moved.cells.len() {
            return false;
        }
    }
    true
}

/// The values, parted by `|`.
fn shown(alloc: Global, moved: &Moved) -> Result<String, AllocError> {
    let mut out = String::new(alloc);
    for cell in moved.cells.as_slice() {
        if !out.is_empty() {
            out.push('|')?;
        }
        match &cell.value {
            Value::Undefined => out.push('?')?,
            Value::Int(n) => out.push_str(format!(in alloc; "{n}")?.as_str())?,
            Value::Log(truth) => out.push(if *truth { 'T' } else { 'F' })?,
            Value::Chars(text) => {
                for c in text.bytes() {
                    out.push(char::from(*c))?;
                }
            }
        }
    }
    Ok(out)
}

/// Whether the values are shown so.
fn shows(alloc: Global, moved: &Moved, wanted: &str) -> bool {
    match shown(alloc, moved) {
        Ok(values) => values.as_str() == wanted,
        Err(_) => false,
    }
}

/// Reads into items that are in an order; nothing where they are not.
fn read_into<R: Records>(
    alloc: Global,
    records: &mut R,
    moved: &mut Moved,
    comma: bool,
) -> Option<Result<Condition, Stop>> {
    if !is_ordered(moved) {
        return None;
    }
    let modes = modes(comma, Delim::Plain, false);
    Some(read_list(alloc, records, moved, modes))
}

/// What reading comes to: the number of the condition, how many records were looked at, and whether the values are those that are
/// wanted where the condition is fine.
type Came = (Option<i32>, usize, bool);

fn come(alloc: Global, records: MemoryRecords, moved: Moved, comma: bool, wanted: &str) -> Came {
    let mut records = records;
    let mut moved = moved;
    match read_into(alloc, &mut records, &mut moved, comma) {
        Some(Ok(Condition::Fine)) => (Some(0), records.looked_at, shows(alloc, &moved, wanted)),
        Some(Ok(condition)) => (Some(condition.code()), records.looked_at, true),
        _ => (None, records.looked_at, false),
    }
}

fn reads(alloc: Global, input: Input) -> Result<Came, AllocError> {
    let (text, comma, kinds, wanted, _, _) = input;
    let records = records_of(alloc, text)?;
    match items_of(alloc, kinds) {
        Ok(moved) => Ok(come(alloc, records, moved, comma, wanted)),
        Err(error) => Err(error),
    }
}

#[test]
fn inputs(rt: HostRuntime) {
    for input in INPUTS.iter().chain(OWN_INPUTS.iter()) {
        let (text, _, _, _, code, looked_at) = *input;
        let due = (Some(code), looked_at, true);
        assert_eq!(rt; reads(rt.alloc(), *input), Ok(due), "{text:?}");
    }
}

/// A value to write.
#[derive(Clone, Copy)]
enum Item {
    Int(i64),
    Log(bool),
    Text(&'static str),
    /// So many characters `x`.
    Long(u32),
}

/// DELIM=, whether SIGN='PLUS', values, and their records.
static OUTPUTS: [(Delim, bool, &[Item], &str); 15] = [
    (Delim::Plain, false, &[], " \n"),
    (
        Delim::Plain,
        false,
        &[Item::Int(5), Item::Int(-3), Item::Log(true)],
        " 5 -3 T\n",
    ),
    (
        Delim::Plain,
        true,
        &[Item::Int(5), Item::Int(-3), Item::Int(0)],
        " +5 -3 +0\n",
    ),
    (
        Delim::Plain,
        false,
        &[Item::Int(i64::MIN), Item::Log(false)],
        " -9223372036854775808 F\n",
    ),
    (
        Delim::Plain,
        false,
        &[Item::Text("ab"), Item::Text("cd")],
        " abcd\n",
    ),
    (
        Delim::Plain,
        false,
        &[Item::Text("ab"), Item::Int(5), Item::Text("cd")],
        " ab 5 cd\n",
    ),
    (
        Delim::Plain,
        false,
        &[
            Item::Text("AB"),
            Item::Text("CD"),
            Item::Int(1),
            Item::Log(true),
            Item::Text("E"),
        ],
        " ABCD 1 T E\n",
    ),
    (
        Delim::Plain,
        false,
        &[Item::Int(5), Item::Text(""), Item::Int(6)],
        " 5  6\n",
    ),
    (
        Delim::Plain,
        false,
        &[Item::Text("it's"), Item::Text("\""), Item::Log(true)],
        " it's\" T\n",
    ),
    (
        Delim::Quote,
        false,
        &[Item::Text("ab"), Item::Text("c\"d")],
        " \"ab\" \"c\"\"d\"\n",
    ),
    (
        Delim::Quote,
        false,
        &[Item::Text(""), Item::Text("it's")],
        " \"\" \"it's\"\n",
    ),
    (
        Delim::Apostrophe,
        false,
        &[Item::Text("it's"), Item::Text("a")],
        " 'it''s' 'a'\n",
    ),
    (
        Delim::Apostrophe,
        false,
        &[Item::Text("''"), Item::Int(1)],
        " '''''' 1\n",
    ),
    (
        Delim::Apostrophe,
        false,
        &[Item::Text("a b"), Item::Text("")],
        " 'a b' ''\n",
    ),
    (
        Delim::Quote,
        true,
        &[Item::Int(7), Item::Log(false), Item::Text("a")],
        " +7 F \"a\"\n",
    ),
];

/// DELIM=, values, and the lengths of their records; 0 for none.
static COLUMNS: [(Delim, &[Item], [usize; 3]); 16] = [
    (Delim::Plain, &[Item::Long(77), Item::Int(5)], [80, 0, 0]),
    (Delim::Plain, &[Item::Long(78), Item::Int(5)], [79, 2, 0]),
    (Delim::Plain, &[Item::Long(79), Item::Int(5)], [80, 2, 0]),
    (Delim::Plain, &[Item::Long(80), Item::Int(5)], [81, 2, 0]),
    (
        Delim::Plain,
        &[Item::Long(100), Item::Int(5), Item::Int(6)],
        [101, 4, 0],
    ),
    (Delim::Plain, &[Item::Long(78), Item::Text("a")], [80, 0, 0]),
    (Delim::Plain, &[Item::Long(79), Item::Text("a")], [80, 2, 0]),
    (
        Delim::Plain,
        &[Item::Long(77), Item::Text("ab")],
        [80, 0, 0],
    ),
    (
        Delim::Plain,
        &[Item::Long(78), Item::Text("ab")],
        [79, 3, 0],
    ),
    (Delim::Plain, &[Item::Int(5), Item::Long(77)], [80, 0, 0]),
    (Delim::Plain, &[Item::Int(5), Item::Long(78)], [2, 79, 0]),
    (
        Delim::Plain,
        &[Item::Int(5), Item::Long(90), Item::Int(6)],
        [2, 91, 2],
    ),
    (Delim::Quote, &[Item::Long(75), Item::Int(5)], [80, 0, 0]),
    (Delim::Quote, &[Item::Long(76), Item::Int(5)], [79, 2, 0]),
    (Delim::Quote, &[Item::Long(74), Item::Text("")], [80, 0, 0]),
    (Delim::Quote, &[Item::Long(75), Item::Text("")], [78, 3, 0]),
];

fn moved_of(alloc: Global, items: &[Item]) -> Result<Moved, AllocError> {
    let mut moved = items_of(alloc, "")?;
    for item in items {
        match *item {
            Item::Int(n) => add(&mut moved, Kind::Int8, Value::Int(n))?,
            Item::Log(truth) => add(&mut moved, Kind::Logical, Value::Log(truth))?,
            Item::Text(text) => {
                let length = u32::try_from(text.len()).unwrap_or(0);
                let text = Text::from_bytes(alloc, text.as_bytes())?;
                add(&mut moved, Kind::Chars(length), Value::of_text(text)?)?;
            }
            Item::Long(length) => {
                let mut text = Text::new(alloc);
                text.push_copies(b'x', length)?;
                add(&mut moved, Kind::Chars(length), Value::of_text(text)?)?;
            }
        }
    }
    Ok(moved)
}

/// What items are written as; nothing where they are not in an order.
fn written(alloc: Global, moved: &Moved, modes: EditModes) -> Option<Text> {
    if !is_ordered(moved) {
        return None;
    }
    write_list(alloc, moved, modes).ok()
}

/// The records of these items.
fn records_for(alloc: Global, items: &[Item], modes: EditModes) -> Option<Text> {
    match moved_of(alloc, items) {
        Ok(moved) => written(alloc, &moved, modes),
        Err(_) => None,
    }
}

/// Whether items have these records.
fn writes(alloc: Global, items: &[Item], modes: EditModes, expected: &str) -> bool {
    match records_for(alloc, items, modes) {
        Some(text) => text.bytes() == expected.as_bytes(),
        None => false,
    }
}

/// Whether records have these lengths.
fn have_lengths(records: &[u8], lengths: &[usize]) -> bool {
    let mut rest = records;
    for length in lengths {
        if *length > 0 {
            match rest.split_at_checked(*length) {
                Some((_, [b'\n', behind @ ..])) => rest = behind,
                _ => return false,
            }
        }
    }
    rest.is_empty()
}

/// Whether items have records of these lengths.
fn writes_columns(alloc: Global, items: &[Item], modes: EditModes, lengths: &[usize]) -> bool {
    match records_for(alloc, items, modes) {
        Some(text) => have_lengths(text.bytes(), lengths),
        None => false,
    }
}

#[test]
fn outputs(rt: HostRuntime) {
    for (number, (delim, plus, items, expected)) in OUTPUTS.iter().enumerate() {
        let modes = modes(false, *delim, *plus);
        assert!(rt; writes(rt.alloc(), items, modes, expected), "row {number}");
    }
    for (delim, items, lengths) in COLUMNS.iter() {
        let modes = modes(false, *delim, false);
        assert!(rt;
            writes_columns(rt.alloc(), items, modes, lengths),
            "{lengths:?}"
        );
    }
}

/// Records of which one call fails.
#[derive(Drop)]
struct FailingRecords {
    records: MemoryRecords,
    /// The calls before that one.
    before: u32,
    faults: u64,
}

impl Records for FailingRecords {
    ghost use Rattle.std.specs.Prelude.{length, ◌-◌, [], None};

    ghost tells = { λ _. ⊥ };

    ghost to_come = { λ _. [] };

    ghost ending = { λ _. None };

    ghost bound = { λ r. length r.records.records - r.records.looked_at };

    ghost count = { λ r. r.faults };

    fn next(&mut self, into: &mut Text) -> Result<More, Stop> {
        if self.before == 0 {
            self.faults = self.faults.saturating_add(1);
            return Err(Stop::Failed);
        }
        self.before -= 1;
        self.records.next(into)
    }

    fn faults(&self) -> u64 {
        self.faults
    }
}

/// What a list comes to where a call on its records fails behind others, and the number of faults.
fn failed(
    alloc: Global,
    before: u32,
) -> Result<(Option<Result<Condition, Stop>>, u64), AllocError> {
    let mut records = FailingRecords {
        records: records_of(alloc, "1\n'a\nb'\n2")?,
        before,
        faults: 0,
    };
    match items_of(alloc, "i2i") {
        Ok(mut moved) => Ok((
            read_into(alloc, &mut records, &mut moved, false),
            records.faults(),
        )),
        Err(error) => Err(error),
    }
}

/// The same where a condition stands behind the records.
fn ended(alloc: Global) -> Result<(Option<Result<Condition, Stop>>, u64), AllocError> {
    let mut records = records_of(alloc, "1\n'a")?;
    records.ending = Some(Condition::Error(15));
    match items_of(alloc, "i2") {
        Ok(mut moved) => Ok((
            read_into(alloc, &mut records, &mut moved, false),
            records.faults(),
        )),
        Err(error) => Err(error),
    }
}

/// A failure at each record, and a condition that stands behind the records.
#[test]
fn ends(rt: HostRuntime) {
    for before in 0..4u32 {
        let due = (Some(Err(Stop::Failed)), 1);
        assert_eq!(rt; failed(rt.alloc(), before), Ok(due));
    }
    let due = (Some(Ok(Condition::Error(15))), 0);
    assert_eq!(rt; ended(rt.alloc()), Ok(due));
}
