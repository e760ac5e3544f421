// What stands of declarations, the items of a statement, and as many variables as there may be. Declarations and statements with what each
// is answered are in fj_cases.
use fj_names::{Fault, Names, statement};
use fj_statement::{Control, InternalFile, Operand, Statement, Transfer, UnitRef};
use fj_syntax::{Written, parse_line};
use fj_value::{Kind, Place, Value};
use std::alloc::Global;
use std::test::*;

#[derive(Clone, Copy, PartialEq, Eq)]
enum Outcome {
    Fine,
    TooMany,
    Other,
}

use Outcome::{Fine, TooMany};

/// What the statements below are about.
static DECLARED: [&str; 8] = [
    "INTEGER I, A(3), N(500000)",
    "INTEGER(8) K",
    "LOGICAL L, M(2)",
    "CHARACTER(2) C, D(2)",
    "CHARACTER(65536) W(128)",
    "CHARACTER(65536) Z(127)",
    "CHARACTER(65528) Y",
    "NAMELIST /G/ I, A, I",
];

fn outcome_of<T: Drop>(answer: Result<T, Fault>) -> Outcome {
    match answer {
        Ok(_) => Fine,
        Err(Fault::TooMany) => TooMany,
        Err(_) => Outcome::Other,
    }
}

fn written(alloc: Global, line: &str) -> Option<Written> {
    parse_line(alloc, line.as_bytes()).ok()?
}

fn declared(alloc: Global, names: &mut Names, number: u32, line: &str) -> Outcome {
    match written(alloc, line) {
        Some(Written::Declaration(declaration)) => outcome_of(names.declare(number, declaration)),
        Some(Written::Group(group)) => outcome_of(names.group(number, group)),
        other => {
            drop(other);
            Outcome::Other
        }
    }
}

/// Declares the variable of a number.
fn declared_one(alloc: Global, names: &mut Names, number: u32) -> Outcome {
    match format!(in alloc; "INTEGER V{number}") {
        Ok(line) => declared(alloc, names, number, line.as_str()),
        Err(_) => Outcome::Other,
    }
}

/// Declares so many variables, and answers how many were fine before one was not.
fn declared_of(alloc: Global, names: &mut Names, count: u32) -> u32 {
    for number in 0..count {
        if declared_one(alloc, names, number) != Fine {
            return number;
        }
    }
    count
}

/// How many of 4,096 variables are declared, how many there are then, and whether another one is too many.
fn declared_many(alloc: Global) -> (u32, usize, bool) {
    let mut names = Names::new(alloc);
    let fine = declared_of(alloc, &mut names, 4096);
    let held = names.variables().len();
    let beyond = declared(alloc, &mut names, 1, "INTEGER V4096");
    drop(names);
    (fine, held, beyond == TooMany)
}

/// 4,096 variables are declared, and no more.
#[test]
fn many_variables(rt: HostRuntime) {
    assert_eq!(rt; declared_many(rt.alloc()), (4096, 4096, true));
}

/// Declares what the statements are about, and answers whether all was fine.
fn declare_common(alloc: Global, names: &mut Names) -> bool {
    for (line, text) in DECLARED.iter().enumerate() {
        if declared(alloc, names, line as u32, text) != Fine {
            return false;
        }
    }
    true
}

fn common_names(alloc: Global) -> Option<Names> {
    let mut names = Names::new(alloc);
    if declare_common(alloc, &mut names) {
        return Some(names);
    }
    drop(names);
    None
}

/// How many variables there are, and whether one of them and the line of the group are as declared.
fn parts(names: Names) -> (usize, bool, bool) {
    let (variables, lines) = names.into_parts();
    let is_declared = matches!(variables.get(3), Some(k) if k.line == 1 && k.kind == Kind::Int8);
    (
        variables.len(),
        is_declared,
        matches!(lines.get(0), Some(7)),
    )
}

/// The same of the common names.
fn common_parts(alloc: Global) -> Option<(usize, bool, bool)> {
    Some(parts(common_names(alloc)?))
}

#[test]
fn lines_of_declarations(rt: HostRuntime) {
    assert_eq!(rt; common_parts(rt.alloc()), Some((11, true, true)));
}

fn is_array(item: Option<&Operand>) -> bool {
    matches!(item, Some(Operand::Whole { var: 1 }))
}

fn is_element(item: Option<&Operand>) -> bool {
    matches!(item, Some(Operand::One(Place { var: 1, index: 2 })))
}

fn is_wide(item: Option<&Operand>) -> bool {
    matches!(
        item,
        Some(Operand::Literal {
            kind: Kind::Int8,
            value: Value::Int(5_000_000_000)
        })
    )
}

fn are_two_characters(item: Option<&Operand>) -> bool {
    matches!(
        item,
        Some(Operand::Literal {
            kind: Kind::Chars(2),
            ..
        })
    )
}

fn is_write(transfer: &Transfer) -> bool {
    !transfer.input
        && matches!(transfer.control, Control::Explicit(_))
        && transfer.items.len() == 4
        && is_array(transfer.items.get(0))
        && is_element(transfer.items.get(1))
        && is_wide(transfer.items.get(2))
        && are_two_characters(transfer.items.get(3))
}

fn is_stated_write(answer: &Result<Statement, Fault>) -> bool {
    match answer {
        Ok(Statement::Transfer(transfer)) => is_write(transfer),
        _ => false,
    }
}

/// Whether a line is the WRITE with these items.
fn has_items(alloc: Global, names: &Names, line: &str) -> bool {
    let Some(written) = written(alloc, line) else {
        return false;
    };
    let answer = statement(alloc, names, written);
    let is_so = is_stated_write(&answer);
    drop(answer);
    is_so
}

/// The unit of a statement.
fn unit_in(alloc: Global, names: &Names, line: &str) -> Option<UnitRef> {
    let written = written(alloc, line)?;
    match statement(alloc, names, written) {
        Ok(statement) => statement.unit(),
        Err(_) => None,
    }
}

/// The same among the common names.
fn common_unit(alloc: Global, line: &str) -> Option<UnitRef> {
    let names = common_names(alloc)?;
    let unit = unit_in(alloc, &names, line);
    drop(names);
    unit
}

/// What the unit of a statement names; of a place, its variable and index. The last two are internal files.
#[derive(Clone, Copy)]
enum Named {
    Nothing,
    Star,
    Number(u32),
    Held(u32, u32),
    New(u32, u32),
    Element(u32, u32),
    Array(u32),
}

/// What is named so. A text leaves the number of a unit of a place 0.
fn unit_named(named: Named) -> Option<UnitRef> {
    let number = 0;
    match named {
        Named::Nothing => None,
        Named::Star => Some(UnitRef::Star),
        Named::Number(number) => Some(UnitRef::Number(number)),
        Named::Held(var, index) => Some(UnitRef::Held {
            place: Place { var, index },
            number,
        }),
        Named::New(var, index) => Some(UnitRef::New {
            place: Place { var, index },
            number,
        }),
        Named::Element(var, index) => Some(UnitRef::Internal(InternalFile::One(Place {
            var,
            index,
        }))),
        Named::Array(var) => Some(UnitRef::Internal(InternalFile::Whole { var })),
    }
}

/// Statements with what their units name. Some have no meaning, and one no unit.
static UNITS: [(&str, Named); 15] = [
    ("WRITE(*,*) I", Named::Star),
    ("OPEN(10)", Named::Number(10)),
    ("OPEN(I)", Named::Held(0, 1)),
    ("CLOSE(A(3))", Named::Held(1, 3)),
    ("WAIT(K)", Named::Held(3, 1)),
    ("REWIND A(1)", Named::Held(1, 1)),
    ("INQUIRE(UNIT=I,OPENED=L)", Named::Held(0, 1)),
    ("INQUIRE(FILE='X',NUMBER=I)", Named::Nothing),
    ("READ(K,*) I", Named::Held(3, 1)),
    ("WRITE(UNIT=I,NML=G)", Named::Held(0, 1)),
    ("OPEN(NEWUNIT=A(2),FILE='X')", Named::New(1, 2)),
    ("OPEN(NEWUNIT=K,STATUS='SCRATCH')", Named::New(3, 1)),
    ("OPEN(NEWUNIT=K,STATUS='OLD')", Named::Nothing),
    ("READ(A,*) I", Named::Nothing),
    ("OPEN(L)", Named::Nothing),
];

/// Statements with characters as their units.
static FILES: [(&str, Named); 26] = [
    ("WRITE(C,*) I", Named::Element(6, 1)),
    ("WRITE(C,'(I1)') I", Named::Element(6, 1)),
    ("WRITE(D(2),*) I", Named::Element(7, 2)),
    ("WRITE(D(1),'(I1)') I", Named::Element(7, 1)),
    ("WRITE(D,*) A", Named::Array(7)),
    ("WRITE(FMT='(I1)',UNIT=D) A", Named::Array(7)),
    ("READ(C,*) I", Named::Element(6, 1)),
    ("READ(C,'(I2)') I", Named::Element(6, 1)),
    ("READ(D(1),*) I", Named::Element(7, 1)),
    ("READ(W(128),'(A)',PAD='NO') C", Named::Element(8, 128)),
    ("READ(D,*) A", Named::Array(7)),
    ("READ(UNIT=Z,FMT='(I2)',IOSTAT=K) A", Named::Array(9)),
    ("WRITE(C) I", Named::Nothing),
    ("READ(D) A", Named::Nothing),
    ("WRITE(D,NML=G)", Named::Nothing),
    ("READ(C,'(I1)',ADVANCE='YES') I", Named::Nothing),
    ("WRITE(D(2),*,ASYNCHRONOUS='NO') I", Named::Nothing),
    ("READ(D(1),'(I1)',REC=1) I", Named::Nothing),
    ("WRITE(D,*,POS=1) I", Named::Nothing),
    ("WRITE(D(3),*) I", Named::Nothing),
    ("READ(C(1),*) I", Named::Nothing),
    ("WRITE(M(1),*) I", Named::Nothing),
    ("READ(M,*) I", Named::Nothing),
    ("OPEN(C)", Named::Nothing),
    ("REWIND D", Named::Nothing),
    ("INQUIRE(D(1),OPENED=L)", Named::Nothing),
];

#[test]
fn units(rt: HostRuntime) {
    for (line, unit) in UNITS.iter() {
        assert!(rt;
            common_unit(rt.alloc(), line) == unit_named(*unit),
            "{line}"
        );
    }
}

#[test]
fn internal_files(rt: HostRuntime) {
    for (line, unit) in FILES.iter() {
        assert!(rt;
            common_unit(rt.alloc(), line) == unit_named(*unit),
            "{line}"
        );
    }
}

/// The same among the common names.
fn has_common_items(alloc: Global, line: &str) -> bool {
    match common_names(alloc) {
        Some(names) => {
            let is_so = has_items(alloc, &names, line);
            drop(names);
            is_so
        }
        None => false,
    }
}

/// The items of a WRITE.
#[test]
fn items(rt: HostRuntime) {
    let line = "WRITE(10,'(I5)') A,A(2),5000000000,'ab'";
    assert!(rt; has_common_items(rt.alloc(), line));
}
