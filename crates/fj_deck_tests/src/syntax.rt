// The parts of statements that were read. Lines that are read, and lines that are refused, are in fj_cases.
use fj_modes::{Access, FileStatus, Motion, OpenSpec, Question};
use fj_syntax::*;
use fj_value::{Delim, Kind};
use std::alloc::Global;
use std::test::*;

/// What a line is to be read as.
#[derive(Clone, Copy)]
enum Wanted {
    Open,
    Write,
    Endfile,
    Close,
    Declaration,
    Inquiry,
    Held,
    HeldInquiry,
    New,
}

fn is_wanted(statement: &Written, wanted: Wanted) -> bool {
    match (wanted, statement) {
        (Wanted::Open, Written::Open(open)) => is_open(open),
        (Wanted::Write, Written::Transfer(write)) => is_write(write.get()),
        (Wanted::Endfile, Written::Move(motion)) => is_endfile(motion),
        (Wanted::Close, Written::Close(close)) => is_close(close),
        (Wanted::Declaration, Written::Declaration(one)) => is_declaration(one),
        (Wanted::Inquiry, Written::Inquire(one)) => is_inquiry(one),
        (Wanted::Held, Written::Move(motion)) => is_held(&motion.unit),
        (Wanted::HeldInquiry, Written::Inquire(one)) => is_held_inquiry(one),
        (Wanted::New, Written::Open(open)) => is_new(open),
        _ => false,
    }
}

#[test]
fn lines_of_a_text(rt: HostRuntime) {
    let mut rest: &[u8] = b"a\r\nb\r\r\n\nc\r";
    for line in ["a", "b\r", "", "c\r"] {
        match next_line(rest) {
            Some((first, behind)) => {
                assert!(rt; first == line.as_bytes(), "{line:?}");
                rest = behind;
            }
            None => panic!(rt; "no line"),
        }
    }
    assert!(rt; next_line(rest).is_none());
}

fn is_element(place: Option<&Designator>, name: &[u8], number: u32) -> bool {
    match place {
        Some(place) => place.name.bytes() == name && place.number == Some(number),
        None => false,
    }
}

fn is_open(open: &OnUnit<OpenSpec>) -> bool {
    let spec = &open.what;
    matches!(open.unit, Unit::Number(10))
        && is_element(open.iostat.as_ref(), b"S", 2)
        && matches!(&spec.file, Some(file) if file.as_str() == "x.Y")
        && spec.status == Some(FileStatus::Old)
        && spec.access == Some(Access::Direct)
        && spec.formatted == Some(true)
        && spec.recl == Some(80)
        && spec.position.is_none()
        && spec.asynchronous.is_none()
}

fn are_items(items: &[Operand]) -> bool {
    matches!(
        items,
        [
            Operand::Number {
                sign: Sign::Unsigned,
                amount: 5
            },
            Operand::Literal(_),
            Operand::Place(_),
        ]
    )
}

fn is_write(write: &Transfer) -> bool {
    matches!(&write.format, Some(Format::Literal(text)) if text.bytes() == "('a',I5)".as_bytes())
        && are_items(write.items.as_slice())
        && !write.input
        && matches!(write.unit, Unit::Star)
        && write.delim == Some(Delim::Quote)
        && write.plus == Some(true)
        && write.pad.is_none()
        && write.advance == Some(false)
}

fn is_endfile(motion: &OnUnit<Motion>) -> bool {
    motion.what == Motion::Endfile
        && matches!(motion.unit, Unit::Number(7))
        && motion.iostat.is_none()
}

fn is_close(close: &OnUnit<Option<bool>>) -> bool {
    matches!(close.unit, Unit::Number(7)) && close.what == Some(true) && close.iostat.is_none()
}

fn is_declaration(declaration: &Declaration) -> bool {
    declaration.kind == Kind::Chars(7)
        && declaration.entities.len() == 2
        && is_element(declaration.entities.get(0), b"C", 2)
}

fn is_inquiry(inquire: &Inquire) -> bool {
    matches!(inquire.about, Subject::File(_))
        && inquire.asked.len() == 2
        && matches!(inquire.asked.get(0), Some(asking) if asking.what == Question::Size)
}

/// The unit `U(2)`.
fn is_held(unit: &Unit) -> bool {
    matches!(unit, Unit::Place(place) if is_element(Some(place), b"U", 2))
}

fn is_held_inquiry(inquire: &Inquire) -> bool {
    matches!(&inquire.about, Subject::Unit(unit) if is_held(unit))
}

/// NEWUNIT= of `N(3)`, with STATUS='SCRATCH'.
fn is_new(open: &OnUnit<OpenSpec>) -> bool {
    matches!(&open.unit, Unit::New(place) if is_element(Some(place), b"N", 3))
        && open.what.status == Some(FileStatus::Scratch)
        && open.what.file.is_none()
        && open.iostat.is_none()
}

/// Whether it is the statement that is wanted.
fn is_read_so(read: &Result<Option<Written>, SyntaxFault>, wanted: Wanted) -> bool {
    match read {
        Ok(Some(statement)) => is_wanted(statement, wanted),
        _ => false,
    }
}

/// Whether a line is read as the statement that is wanted.
fn is_read(alloc: Global, line: &str, wanted: Wanted) -> bool {
    let read = parse_line(alloc, line.as_bytes());
    let is_so = is_read_so(&read, wanted);
    drop(read);
    is_so
}

#[test]
fn opens(rt: HostRuntime) {
    let line =
        "open(10,file='x.Y  ',status='old ',access='Direct',form='FORMATTED',recl=+80,iostat=s(2))";
    assert!(rt; is_read(rt.alloc(), line, Wanted::Open));
}

#[test]
fn transfers(rt: HostRuntime) {
    let line = "WRITE(*,'(''a'',I5)',DELIM='quote',SIGN='PLUS',ADVANCE='NO',ID=N) 5,'it''s',B(3)";
    assert!(rt; is_read(rt.alloc(), line, Wanted::Write));
}

/// Other statements whose parts are looked at.
static OTHERS: [(&str, Wanted); 10] = [
    ("END FILE 7", Wanted::Endfile),
    ("CLOSE(7,STATUS='keep')", Wanted::Close),
    ("CHARACTER(7) C(2),D", Wanted::Declaration),
    ("INQUIRE(SIZE=N,FILE='X',EXIST=L)", Wanted::Inquiry),
    ("rewind u(2)", Wanted::Held),
    ("FLUSH(U(2),IOSTAT=S)", Wanted::Held),
    ("END FILE (UNIT=U(2))", Wanted::Held),
    ("INQUIRE(OPENED=L,UNIT=U(02))", Wanted::HeldInquiry),
    ("OPEN(NEWUNIT=N(3),STATUS='SCRATCH')", Wanted::New),
    ("open(status='scratch ', newunit = n ( 3 ))", Wanted::New),
];

#[test]
fn others(rt: HostRuntime) {
    for (line, wanted) in OTHERS.iter() {
        assert!(rt; is_read(rt.alloc(), line, *wanted), "{line}");
    }
}
