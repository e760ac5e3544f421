// The defaults of OPEN, its errors 3 and 8 with their near misses, and what a later OPEN changes.

use Given::*;
use fj_modes::{
    Access, Action, Asked, FileName, FileStatus, Modes, OpenSpec, Question, Start, Wanted,
    is_file_name, settle_open, usual_edit,
};
use fj_value::{Condition, Delim, EditModes, Kind, Place};
use std::alloc::{AllocError, Global};
use std::test::Fail;

/// One specifier with its value.
#[derive(Clone, Copy)]
enum Given {
    File,
    Status(FileStatus),
    In(Access),
    Formatted(bool),
    Recl(u32),
    Position(Start),
    For(Action),
    BlankZero(bool),
    Delimiter(Delim),
    Pad(bool),
    Comma(bool),
    Plus(bool),
    Asynchronous(bool),
}

fn file_name(alloc: Global, name: &[u8]) -> Result<Option<FileName>, AllocError> {
    if !is_file_name(name) {
        return Ok(None);
    }
    Ok(Some(FileName::new(alloc, name)?))
}

fn set(spec: &mut OpenSpec, specifier: Given) {
    match specifier {
        File => {}
        Status(status) => spec.status = Some(status),
        In(access) => spec.access = Some(access),
        Formatted(formatted) => spec.formatted = Some(formatted),
        Recl(recl) => spec.recl = Some(recl),
        Position(position) => spec.position = Some(position),
        For(action) => spec.action = Some(action),
        BlankZero(blank_zero) => spec.blank_zero = Some(blank_zero),
        Delimiter(delim) => spec.delim = Some(delim),
        Pad(pad) => spec.pad = Some(pad),
        Comma(comma) => spec.comma = Some(comma),
        Plus(plus) => spec.plus = Some(plus),
        Asynchronous(asynchronous) => spec.asynchronous = Some(asynchronous),
    }
}

fn open(alloc: Global, given: &[Given]) -> Result<OpenSpec, AllocError> {
    let mut spec = OpenSpec::default();
    for specifier in given {
        if matches!(specifier, File) {
            spec.file = file_name(alloc, b"DATA")?;
        }
        set(&mut spec, *specifier);
    }
    Ok(spec)
}

const USUAL: Modes = Modes {
    access: Access::Sequential,
    formatted: true,
    recl: 65_536,
    action: Action::ReadWrite,
    asynchronous: false,
    scratch: false,
    start: Start::AsIs,
    edit: EditModes {
        blank_zero: false,
        comma: false,
        delim: Delim::Plain,
        pad: true,
        plus: false,
    },
};

const UNFORMATTED: Modes = Modes {
    formatted: false,
    recl: 16_777_216,
    ..USUAL
};

const DIRECT: Modes = Modes {
    access: Access::Direct,
    recl: 80,
    ..UNFORMATTED
};

const STREAM: Modes = Modes {
    access: Access::Stream,
    ..UNFORMATTED
};

const SCRATCH: Modes = Modes {
    scratch: true,
    ..USUAL
};

const EACH_MODE: &[Given] = &[
    BlankZero(true),
    Comma(true),
    Delimiter(Delim::Quote),
    Pad(false),
    Plus(true),
];

const EACH: &[Given] = &[
    Status(FileStatus::New),
    In(Access::Direct),
    Formatted(true),
    Recl(133),
    For(Action::Write),
    Asynchronous(true),
    BlankZero(true),
    Comma(true),
    Delimiter(Delim::Quote),
    Pad(false),
    Plus(true),
];

const EACH_GIVEN: Modes = Modes {
    access: Access::Direct,
    formatted: true,
    recl: 133,
    action: Action::Write,
    asynchronous: true,
    scratch: false,
    start: Start::AsIs,
    edit: EditModes {
        blank_zero: true,
        comma: true,
        delim: Delim::Quote,
        pad: false,
        plus: true,
    },
};

const FORMATTED_STREAM: Modes = Modes {
    access: Access::Stream,
    ..USUAL
};

/// What is given, and the modes of a new connection.
static NEW: [(&[Given], Modes); 8] = [
    (&[], USUAL),
    (&[File, Status(FileStatus::Old)], USUAL),
    (&[Formatted(false)], UNFORMATTED),
    (&[In(Access::Direct), Recl(80)], DIRECT),
    (&[In(Access::Stream), Formatted(true)], FORMATTED_STREAM),
    (&[In(Access::Stream)], STREAM),
    (&[Status(FileStatus::Scratch)], SCRATCH),
    (EACH, EACH_GIVEN),
];

fn gives(alloc: Global, given: &[Given], want: Modes) -> Result<bool, AllocError> {
    Ok(settle_open(&open(alloc, given)?) == Ok(want))
}

#[test]
fn what_a_new_connection_has(rt: HostRuntime) -> Result<(), Fail> {
    for (number, (given, want)) in NEW.iter().enumerate() {
        assert!(rt; gives(rt.alloc(), given, *want)?, "row {number}");
    }
    assert!(rt; usual_edit() == USUAL.edit);
    Ok(())
}

/// Error 3: each case alone, and what stands beside it and is no error.
static TOGETHER: [(bool, &[Given]); 26] = [
    (false, &[In(Access::Direct)]),
    (false, &[In(Access::Stream), Recl(80)]),
    (false, &[In(Access::Stream), Formatted(true), Recl(65_536)]),
    (false, &[Recl(0)]),
    (false, &[In(Access::Direct), Recl(0)]),
    (false, &[Recl(65_537)]),
    (false, &[Formatted(false), Recl(16_777_217)]),
    (false, &[In(Access::Direct), Recl(16_777_217)]),
    (false, &[In(Access::Direct), Formatted(true), Recl(65_537)]),
    (
        false,
        &[In(Access::Direct), Recl(80), Position(Start::AsIs)],
    ),
    (false, &[Formatted(false), BlankZero(false)]),
    (false, &[Formatted(false), Delimiter(Delim::Plain)]),
    (false, &[In(Access::Stream), Pad(true)]),
    (false, &[In(Access::Direct), Recl(80), Comma(false)]),
    (false, &[Formatted(false), Plus(false)]),
    (false, &[File, Status(FileStatus::Scratch)]),
    (true, &[Recl(1)]),
    (true, &[Recl(65_536), Position(Start::Append)]),
    (true, &[Formatted(false), Recl(65_537)]),
    (true, &[Formatted(false), Recl(16_777_216)]),
    (true, &[In(Access::Direct), Recl(16_777_216)]),
    (
        true,
        &[
            In(Access::Direct),
            Formatted(true),
            Recl(65_536),
            Pad(false),
        ],
    ),
    (true, &[In(Access::Stream), Formatted(true), Pad(false)]),
    (true, &[In(Access::Stream), Position(Start::Append)]),
    (true, &[Status(FileStatus::Scratch), For(Action::Read)]),
    (true, &[File, Status(FileStatus::New), For(Action::Read)]),
];

fn settles(alloc: Global, fits: bool, given: &[Given]) -> Result<bool, AllocError> {
    let settled = settle_open(&open(alloc, given)?);
    Ok(match settled {
        Ok(_) => fits,
        Err(condition) => !fits && condition == Condition::Error(3),
    })
}

#[test]
fn what_does_not_go_together(rt: HostRuntime) -> Result<(), Fail> {
    for (number, (fits, given)) in TOGETHER.iter().enumerate() {
        assert!(rt; settles(rt.alloc(), *fits, given)?, "row {number}");
    }
    Ok(())
}

/// Error 8, at a connection that the first OPEN gives: each specifier with another value than the one in effect, and with
/// the same.
static CHANGES: [(bool, &[Given], &[Given]); 26] = [
    (false, &[], &[In(Access::Stream)]),
    (false, &[], &[Formatted(false)]),
    (false, &[], &[Recl(80)]),
    (false, &[], &[For(Action::Read)]),
    (false, &[], &[Asynchronous(true)]),
    (false, &[], &[Status(FileStatus::Unknown)]),
    (false, &[], &[File, Status(FileStatus::Scratch)]),
    (false, &[], &[Status(FileStatus::New)]),
    (false, &[], &[Status(FileStatus::Replace), Pad(false)]),
    (false, &[], &[Position(Start::Rewind)]),
    (false, &[], &[Position(Start::Append), Pad(false)]),
    (
        false,
        &[In(Access::Stream), Formatted(true)],
        &[Recl(65_537)],
    ),
    (false, &[In(Access::Direct), Recl(80)], &[Recl(0)]),
    (false, &[Formatted(false)], &[BlankZero(false)]),
    (false, &[Formatted(false)], &[Comma(false)]),
    (
        false,
        &[In(Access::Direct), Recl(80)],
        &[Delimiter(Delim::Plain)],
    ),
    (false, &[In(Access::Stream)], &[Pad(true)]),
    (false, &[In(Access::Direct), Recl(80)], &[Plus(false)]),
    (true, &[], &[File, Status(FileStatus::Old)]),
    (true, &[], &[In(Access::Sequential), Formatted(true)]),
    (true, &[], &[Recl(65_536), Position(Start::AsIs)]),
    (true, &[], &[For(Action::ReadWrite), Asynchronous(false)]),
    (true, EACH, &[BlankZero(true), Comma(true), Plus(true)]),
    (true, EACH, &[Delimiter(Delim::Quote), Pad(false)]),
    (
        true,
        &[In(Access::Stream), Formatted(true)],
        &[In(Access::Stream), Recl(65_536)],
    ),
    (
        true,
        &[In(Access::Direct), Recl(80)],
        &[In(Access::Direct), Formatted(false), Recl(80)],
    ),
];

fn stays(alloc: Global, fits: bool, first: &[Given], given: &[Given]) -> Result<bool, AllocError> {
    let Ok(modes) = settle_open(&open(alloc, first)?) else {
        return Ok(false);
    };
    let mut after = modes;
    let changed = after.change(&open(alloc, given)?);
    let as_due = match changed {
        Ok(()) => fits,
        Err(condition) => !fits && condition == Condition::Error(8),
    };
    Ok(as_due && after == modes)
}

#[test]
fn what_may_not_change(rt: HostRuntime) -> Result<(), Fail> {
    for (number, (fits, first, given)) in CHANGES.iter().enumerate() {
        assert!(rt; stays(rt.alloc(), *fits, first, given)?, "row {number}");
    }
    Ok(())
}

#[test]
fn what_may_change(rt: HostRuntime) -> Result<(), Fail> {
    let mut modes = USUAL;
    modes
        .change(&open(rt.alloc(), EACH_MODE)?)
        .ok()
        .ok_or("changes")?;
    assert_eq!(rt; modes.edit, EACH_GIVEN.edit);
    modes
        .change(&open(rt.alloc(), &[Pad(true)])?)
        .ok()
        .ok_or("changes")?;
    assert!(rt; modes.edit.pad && modes.edit.plus);
    assert_eq!(rt;
        Modes {
            edit: USUAL.edit,
            ..modes
        },
        USUAL
    );
    Ok(())
}

#[test]
fn what_is_asked(rt: HostRuntime) -> Result<(), Fail> {
    let wanted = Wanted {
        what: Question::Nextrec,
        place: Place { var: 2, index: 1 },
        kind: Kind::Int8,
    };
    let mut asked = Asked::new(rt.alloc());
    asked.push(wanted)?;
    assert_eq!(rt; asked.as_slice(), [wanted].as_slice());
    Ok(())
}

/// Names of files, and what is none.
static NAMES: [(&[u8], bool); 13] = [
    (b"F1", true),
    (b"a.b_c-9", true),
    (b"fort.10", true),
    (b"SCRATCH", true),
    (b"scratch.1", true),
    (b"", false),
    (b".F", false),
    (b"SCRATCH.1", false),
    (b"a b", false),
    (b"a/b", false),
    (b"a\tb", false),
    (b"a ", false),
    (b"\xc3\xa9", false),
];

/// Whether a name is one, or none, and is kept as it is.
fn names(alloc: Global, name: &[u8], is_one: bool) -> Result<bool, AllocError> {
    if is_file_name(name) != is_one {
        return Ok(false);
    }
    match file_name(alloc, name)? {
        Some(made) => Ok(made.as_str().as_bytes() == name),
        None => Ok(!is_one),
    }
}

#[test]
fn what_names_a_file(rt: HostRuntime) -> Result<(), Fail> {
    let alloc = rt.alloc();
    for (number, (name, is_one)) in NAMES.iter().enumerate() {
        assert!(rt; names(alloc, name, *is_one)?, "row {number}");
    }
    assert!(rt; names(alloc, &[b'n'; 64], true)?);
    assert!(rt; names(alloc, &[b'n'; 65], false)?);
    Ok(())
}
