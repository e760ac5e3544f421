// Each question about each kind of connection, and about a unit and a file with none (9.9.1).
use Told::{F, N, T, U, W};
use fj_connect::{Look, Spot, Within};
use fj_inquire::{Connected, inquire_file, inquire_unit};
use fj_modes::{
    Access, Action, Asked, FileName, FileStatus, OpenSpec, Question, Wanted, settle_open,
};
use fj_moved::Cells;
use fj_value::{Delim, Items, Kind, Place, Value};
use std::alloc::{AllocError, Global};
use std::test::Fail;

/// What a variable gets: it becomes undefined, true or false, or gets a number or a word.
#[derive(Clone, Copy)]
enum Told {
    U,
    T,
    F,
    N(i64),
    W(&'static str),
}

/// The questions, and the kind of variable that each is answered to.
static QUESTIONS: [(Question, Kind); 19] = [
    (Question::Exist, Kind::Logical),
    (Question::Opened, Kind::Logical),
    (Question::Number, Kind::Int8),
    (Question::Named, Kind::Logical),
    (Question::Name, Kind::Chars(12)),
    (Question::Access, Kind::Chars(12)),
    (Question::Form, Kind::Chars(12)),
    (Question::Recl, Kind::Int4),
    (Question::Nextrec, Kind::Int4),
    (Question::Pos, Kind::Int8),
    (Question::Size, Kind::Int4),
    (Question::Blank, Kind::Chars(12)),
    (Question::Delim, Kind::Chars(12)),
    (Question::Pad, Kind::Chars(12)),
    (Question::Decimal, Kind::Chars(12)),
    (Question::Sign, Kind::Chars(12)),
    (Question::Action, Kind::Chars(12)),
    (Question::Asynchronous, Kind::Chars(12)),
    (Question::Pending, Kind::Logical),
];

const NO: Told = W("UNDEFINED");

/// What is asked about: a unit, with its connection; or a file that is there or not.
#[derive(Clone, Copy)]
enum Subject {
    Lines,
    Frames,
    Direct,
    Stream,
    TextStream,
    Scratch,
    OtherModes,
    Unit,
    File(bool),
}

// The position of each connection is behind five bytes of nine, its next direct record is 3, and the unit is -12.
static ANSWERS: [(Subject, &[Told]); 10] = [
    (
        Subject::Lines,
        &[
            T,
            T,
            N(-12),
            T,
            W("fort.7"),
            W("SEQUENTIAL"),
            W("FORMATTED"),
            N(65_536),
            U,
            U,
            N(9),
            W("NULL"),
            W("NONE"),
            W("YES"),
            W("POINT"),
            W("SUPPRESS"),
            W("READWRITE"),
            W("NO"),
            F,
        ],
    ),
    (
        Subject::Frames,
        &[
            T,
            T,
            N(-12),
            T,
            W("fort.7"),
            W("SEQUENTIAL"),
            W("UNFORMATTED"),
            N(16_777_216),
            U,
            U,
            N(9),
            NO,
            NO,
            NO,
            NO,
            NO,
            W("READ"),
            W("YES"),
            F,
        ],
    ),
    (
        Subject::Direct,
        &[
            T,
            T,
            N(-12),
            T,
            W("fort.7"),
            W("DIRECT"),
            W("UNFORMATTED"),
            N(4),
            N(3),
            U,
            N(9),
            NO,
            NO,
            NO,
            NO,
            NO,
            W("READWRITE"),
            W("NO"),
            F,
        ],
    ),
    (
        Subject::Stream,
        &[
            T,
            T,
            N(-12),
            T,
            W("fort.7"),
            W("STREAM"),
            W("UNFORMATTED"),
            U,
            U,
            N(6),
            N(9),
            NO,
            NO,
            NO,
            NO,
            NO,
            W("READWRITE"),
            W("NO"),
            F,
        ],
    ),
    (
        Subject::TextStream,
        &[
            T,
            T,
            N(-12),
            T,
            W("fort.7"),
            W("STREAM"),
            W("FORMATTED"),
            U,
            U,
            N(6),
            N(9),
            W("NULL"),
            W("NONE"),
            W("YES"),
            W("POINT"),
            W("SUPPRESS"),
            W("READWRITE"),
            W("NO"),
            F,
        ],
    ),
    (
        Subject::Scratch,
        &[
            T,
            T,
            N(-12),
            F,
            U,
            W("SEQUENTIAL"),
            W("FORMATTED"),
            N(65_536),
            U,
            U,
            N(9),
            W("NULL"),
            W("NONE"),
            W("YES"),
            W("POINT"),
            W("SUPPRESS"),
            W("READWRITE"),
            W("NO"),
            F,
        ],
    ),
    (
        Subject::OtherModes,
        &[
            T,
            T,
            N(-12),
            T,
            W("fort.7"),
            W("DIRECT"),
            W("FORMATTED"),
            N(3),
            N(3),
            U,
            N(9),
            W("ZERO"),
            W("QUOTE"),
            W("NO"),
            W("COMMA"),
            W("PLUS"),
            W("WRITE"),
            W("YES"),
            F,
        ],
    ),
    (
        Subject::Unit,
        &[
            T,
            F,
            N(-1),
            F,
            U,
            NO,
            NO,
            U,
            U,
            U,
            N(-1),
            NO,
            NO,
            NO,
            NO,
            NO,
            NO,
            NO,
            F,
        ],
    ),
    (
        Subject::File(true),
        &[
            T,
            F,
            N(-1),
            T,
            W("fort.7"),
            NO,
            NO,
            U,
            U,
            U,
            N(-1),
            NO,
            NO,
            NO,
            NO,
            NO,
            NO,
            NO,
            F,
        ],
    ),
    (
        Subject::File(false),
        &[
            F,
            F,
            N(-1),
            T,
            W("fort.7"),
            NO,
            NO,
            U,
            U,
            U,
            N(-1),
            NO,
            NO,
            NO,
            NO,
            NO,
            NO,
            NO,
            F,
        ],
    ),
];

/// The OPEN statement of a connection; none where there is none.
fn statement(subject: Subject) -> Option<OpenSpec> {
    let mut spec = OpenSpec::default();
    match subject {
        Subject::Lines => {}
        Subject::Frames => {
            spec.formatted = Some(false);
            spec.action = Some(Action::Read);
            spec.asynchronous = Some(true);
        }
        Subject::Direct => {
            spec.access = Some(Access::Direct);
            spec.recl = Some(4);
        }
        Subject::Stream => spec.access = Some(Access::Stream),
        Subject::TextStream => {
            spec.access = Some(Access::Stream);
            spec.formatted = Some(true);
        }
        Subject::Scratch => spec.status = Some(FileStatus::Scratch),
        Subject::OtherModes => {
            spec.access = Some(Access::Direct);
            spec.formatted = Some(true);
            spec.recl = Some(3);
            spec.action = Some(Action::Write);
            spec.asynchronous = Some(true);
            spec.blank_zero = Some(true);
            spec.delim = Some(Delim::Quote);
            spec.pad = Some(false);
            spec.comma = Some(true);
            spec.plus = Some(true);
        }
        Subject::Unit | Subject::File(_) => return None,
    }
    Some(spec)
}

fn connected(alloc: Global, subject: Subject) -> Result<Option<Connected>, AllocError> {
    let Some(spec) = statement(subject) else {
        return Ok(None);
    };
    let name = FileName::by_default(alloc, 7)?;
    match settle_open(&spec) {
        Ok(modes) => Ok(Some(Connected { modes, name })),
        Err(_) => Ok(None),
    }
}

static LOOK: Look = Look {
    spot: Spot {
        at: 5,
        start: 5,
        within: Within::Outside,
        after_end: false,
        next_number: 3,
    },
    size: 9,
};

fn all_asked(alloc: Global) -> Result<Asked, AllocError> {
    let mut asked = Items::new(alloc);
    for (what, kind) in QUESTIONS.iter() {
        let place = Place { var: 7, index: 1 };
        asked.push(Wanted {
            what: *what,
            place,
            kind: *kind,
        })?;
    }
    Ok(asked)
}

/// Whether a value is the one that is told; words have blanks behind them.
fn is_told(value: &Value, told: Told) -> bool {
    match (value, told) {
        (Value::Undefined, U) => true,
        (Value::Log(truth), T) => *truth,
        (Value::Log(truth), F) => !*truth,
        (Value::Int(number), N(want)) => *number == want,
        (Value::Chars(text), W(word)) => {
            let bytes = text.bytes();
            bytes.len() == 12
                && bytes.starts_with(word.as_bytes())
                && bytes.trim_ascii_end() == word.as_bytes()
        }
        _ => false,
    }
}

/// Asks all questions by unit and by file, where both can be, and answers one after another.
fn ask(alloc: Global, subject: Subject, pending: bool, out: &mut Cells) -> Result<(), AllocError> {
    let asked = all_asked(alloc)?;
    let name = FileName::by_default(alloc, 7)?;
    let held = connected(alloc, subject)?;
    let by_file = held.as_ref().map(|c| (-12i64, c));
    match subject {
        Subject::Unit => inquire_unit(alloc, -12, None, None, pending, &asked, out),
        Subject::File(there) => {
            inquire_file(alloc, &name, there, None, None, pending, &asked, out)
        }
        _ => {
            inquire_file(
                alloc,
                &name,
                false,
                by_file,
                Some(LOOK),
                pending,
                &asked,
                out,
            )?;
            inquire_unit(alloc, -12, held.as_ref(), Some(LOOK), pending, &asked, out)
        }
    }
}

/// Whether cells are those of the questions, with these values.
fn are_told(cells: &Cells, answers: &[Told]) -> bool {
    for (at, cell) in cells.as_slice().iter().enumerate() {
        let Some(told) = answers.get(at % 19) else {
            return false;
        };
        if cell.kind != QUESTIONS[at % 19].1 || !is_told(&cell.value, *told) {
            return false;
        }
    }
    true
}

/// Whether each question is answered so, by unit and by file.
fn is_answered(alloc: Global, subject: Subject, answers: &[Told]) -> Result<bool, AllocError> {
    let mut cells = Items::new(alloc);
    ask(alloc, subject, false, &mut cells)?;
    let times = if statement(subject).is_some() { 2 } else { 1 };
    Ok(cells.len() == 19 * times && are_told(&cells, answers))
}

/// Whether a pending transfer is told.
fn is_pending(alloc: Global, subject: Subject) -> Result<bool, AllocError> {
    let mut cells = Items::new(alloc);
    ask(alloc, subject, true, &mut cells)?;
    match cells.get(18) {
        Some(last) => Ok(is_told(&last.value, T)),
        None => Ok(false),
    }
}

// PENDING= is that of a connection; what is not connected has none.
#[test]
fn each_question(rt: HostRuntime) -> Result<(), Fail> {
    for (number, (subject, answers)) in ANSWERS.iter().enumerate() {
        assert_eq!(rt;
            is_answered(rt.alloc(), *subject, answers),
            Ok(true),
            "{number}"
        );
        let is_connected = statement(*subject).is_some();
        assert_eq!(rt;
            is_pending(rt.alloc(), *subject),
            Ok(is_connected),
            "{number}"
        );
    }
    Ok(())
}
