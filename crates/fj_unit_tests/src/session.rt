// Records that are written, and read again.
use fj_format::{Format, parse};
use fj_modes::{FileName, FileStatus, OpenSpec};
use fj_outside::Stop;
use fj_unit::{Session, layout_of};
use fj_value::{Condition, Kind};
use std::alloc::Global;
use std::test::Fail;

/// OPEN with ASYNCHRONOUS='YES'.
fn spec_of(formatted: bool) -> OpenSpec {
    let mut spec = OpenSpec::default();
    spec.status = Some(FileStatus::Unknown);
    spec.formatted = Some(formatted);
    spec.asynchronous = Some(true);
    spec
}

/// (2I4), or none.
fn format_of(alloc: Global, formatted: bool) -> Option<Format> {
    if !formatted {
        return None;
    }
    match parse(alloc, b"(2I4)") {
        Ok(format) => Some(format),
        Err(_) => None,
    }
}

/// A unit that is connected to a file of these bytes.
fn connected(alloc: Global, formatted: bool, found: &[u8]) -> Result<Option<Session>, Stop> {
    let name = FileName::by_default(alloc, 10)?;
    let mut session = Session::new(alloc)?;
    let condition = session.open(alloc, &name, &spec_of(formatted), found, !found.is_empty())?;
    if condition != Condition::Fine {
        return Ok(None);
    }
    Ok(Some(session))
}

/// The values of the READ of an identifier, where its WAIT is fine.
fn read_two(session: &mut Session, id: u32) -> Option<[i64; 2]> {
    let mut out = [0, 0];
    if session.wait_one(id) != Ok(Some(Condition::Fine)) {
        return None;
    }
    if session.values(id, &mut out) {
        Some(out)
    } else {
        None
    }
}

/// Two records are pending before the first is waited for.
fn write_both(alloc: Global, session: &mut Session, form: &Option<Format>) -> Result<bool, Stop> {
    if session.next() > 100 {
        return Ok(false);
    }
    let first = session.write(alloc, layout_of(form)?, &[1, -2])?;
    let second = session.write_short(alloc, layout_of(form)?, &[3])?;
    let (Ok(first), Ok(second)) = (first, second) else {
        return Ok(false);
    };
    let _ = session.work();
    let later = session.wait_one(second)?;
    let earlier = session.wait_one(first)?;
    Ok(later == Some(Condition::Fine) && earlier == later && session.wait_one(first)? == None)
}

fn closed(alloc: Global, session: &mut Session) -> Result<Option<Vec<u8>>, Stop> {
    if session.has_pending() {
        return Ok(None);
    }
    session.close(alloc)
}

/// What the file is to hold.
fn written(alloc: Global, formatted: bool) -> Result<Option<Vec<u8>>, Stop> {
    let Some(mut session) = connected(alloc, formatted, &[])? else {
        return Ok(None);
    };
    let form = format_of(alloc, formatted);
    if !write_both(alloc, &mut session, &form)? {
        return Ok(None);
    }
    closed(alloc, &mut session)
}

/// The first record of a file.
fn read(alloc: Global, formatted: bool, found: &[u8]) -> Result<Option<[i64; 2]>, Stop> {
    let Some(mut session) = connected(alloc, formatted, found)? else {
        return Ok(None);
    };
    if session.next() > 100 {
        return Ok(None);
    }
    let form = format_of(alloc, formatted);
    let id = session.read(alloc, layout_of(&form)?, Kind::Int8, 2)?;
    let Ok(id) = id else {
        return Ok(None);
    };
    Ok(read_two(&mut session, id))
}

fn holds(left: Result<Option<Vec<u8>>, Stop>, bytes: &[u8]) -> bool {
    match left {
        Ok(Some(held)) => held.as_slice() == bytes,
        _ => false,
    }
}

const LINES: &[u8] = b"   1  -2\n   3\n";

static FRAMES: [u8; 36] = [
    16, 0, 0, 0, 1, 0, 0, 0, 0, 0, 0, 0, 254, 255, 255, 255, 255, 255, 255, 255, 16, 0, 0, 0, 4, 0,
    0, 0, 3, 0, 0, 0, 4, 0, 0, 0,
];

#[test]
fn records_are_written(rt: HostRuntime) -> Result<(), Fail> {
    assert!(rt; holds(written(rt.alloc(), true), LINES));
    assert!(rt; holds(written(rt.alloc(), false), &FRAMES));
    Ok(())
}

#[test]
fn records_come_back(rt: HostRuntime) -> Result<(), Fail> {
    assert!(rt; read(rt.alloc(), true, LINES) == Ok(Some([1, -2])));
    assert!(rt; read(rt.alloc(), false, &FRAMES) == Ok(Some([1, -2])));
    Ok(())
}

/// The conditions of a WAIT with ID= of the second of two READs behind the end of the file, of one of the first then, and of a READ
/// that is given after them.
fn ends(alloc: Global, found: &[u8]) -> Result<Option<[Option<Condition>; 3]>, Stop> {
    let Some(mut session) = connected(alloc, true, found)? else {
        return Ok(None);
    };
    if session.next() > 100 {
        return Ok(None);
    }
    let form = format_of(alloc, true);
    let _ = session.read(alloc, layout_of(&form)?, Kind::Int8, 2)?;
    let _ = session.read(alloc, layout_of(&form)?, Kind::Int8, 1)?;
    let over = session.read(alloc, layout_of(&form)?, Kind::Int8, 1)?;
    let behind = session.read(alloc, layout_of(&form)?, Kind::Int8, 1)?;
    let (Ok(over), Ok(behind)) = (over, behind) else {
        return Ok(None);
    };
    let told = session.wait_one(behind)?;
    let again = session.wait_one(over)?;
    if session.has_pending() || session.next() > 100 {
        return Ok(None);
    }
    let _ = session.read(alloc, layout_of(&form)?, Kind::Int8, 1)?;
    let after = session.wait_all()?;
    Ok(Some([told, again, Some(after)]))
}

#[test]
fn a_halt_ends_where_it_is_told(rt: HostRuntime) -> Result<(), Fail> {
    let end = Some(Condition::EndOfFile);
    let behind = Some(Condition::Error(20));
    assert!(rt; ends(rt.alloc(), LINES) == Ok(Some([end, None, behind])));
    Ok(())
}

/// What a transfer without a format tells on a formatted connection, and one with a format, if it is refused.
fn refused(alloc: Global) -> Result<Option<[Option<Condition>; 2]>, Stop> {
    let Some(mut session) = connected(alloc, true, &[])? else {
        return Ok(None);
    };
    if session.next() > 100 {
        return Ok(None);
    }
    let without = session.write(alloc, layout_of(&None)?, &[1])?;
    if session.next() > 100 || session.has_pending() {
        return Ok(None);
    }
    let with = session.write(alloc, layout_of(&format_of(alloc, true))?, &[1])?;
    Ok(Some([without.err(), with.err()]))
}

#[test]
fn another_form_is_refused_at_once(rt: HostRuntime) -> Result<(), Fail> {
    assert!(rt; refused(rt.alloc()) == Ok(Some([Some(Condition::UNFIT), None])));
    Ok(())
}
