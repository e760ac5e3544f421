// What the tables of the tests share: connections of each access and form to the file of unit 10, and steps on them.
ghost use Rattle.std.specs.Prelude.{◌≡◌, ◌↔◌, IfOk};
ghost use Rattle.std.specs.FinSet as set;
ghost use Rattle.fj_outside.specs.Holdings.{IsInUse};

mod faults;
mod looks;
mod motions;
mod opening;
mod sizes;

use crate::disks::{NAME, disk_of};
use fj_connect::{Connection, OpenFault, Positioning, open_file};
use fj_modes::{Access, Action, FileName, FileStatus, OpenSpec, Start, settle_open};
use fj_outside::{Disk, FileStore, Stop};
use fj_value::Condition;
use std::alloc::Global;

/// A connection by access and form.
#[derive(Clone, Copy)]
enum Kind {
    Lines,
    /// Lines of four characters at most.
    ShortLines,
    Frames,
    Direct,
    DirectLines,
    Stream,
    StreamLines,
}

use Kind::{Direct, DirectLines, Frames, Lines, ShortLines, Stream, StreamLines};

static KINDS: [Kind; 6] = [Lines, Frames, Direct, DirectLines, Stream, StreamLines];

/// An OPEN statement.
#[derive(Clone, Copy)]
struct Statement {
    kind: Kind,
    status: FileStatus,
    start: Option<Start>,
    action: Action,
}

/// To read and write, without POSITION=.
fn read_and_write(kind: Kind, status: FileStatus) -> Statement {
    Statement {
        kind,
        status,
        start: None,
        action: Action::ReadWrite,
    }
}

/// Its specifiers; direct records have four characters.
fn specifiers(opening: Statement) -> OpenSpec {
    let Statement {
        kind,
        status,
        start,
        action,
    } = opening;
    let mut spec = OpenSpec::default();
    spec.status = Some(status);
    spec.position = start;
    spec.action = Some(action);
    spec.formatted = Some(matches!(kind, Lines | ShortLines | DirectLines | StreamLines));
    match kind {
        Lines | Frames => spec.access = Some(Access::Sequential),
        ShortLines => {
            spec.access = Some(Access::Sequential);
            spec.recl = Some(4);
        }
        Stream | StreamLines => spec.access = Some(Access::Stream),
        Direct | DirectLines => {
            spec.access = Some(Access::Direct);
            spec.recl = Some(4);
        }
    }
    spec
}

/// Connects to the file of unit 10, on a disk of which no file is out.
#[tactic(auto, using(fj_outside::proofs::HoldingLaws::free_of_empty))]
fn connect<D: Disk>(
    alloc: Global,
    disk: &mut D,
    opening: Statement,
) -> Result<Connection<D::File>, OpenFault>
    requires { D.tells disk.old → (D.held disk.old).in_use ≡ set.empty }
    ensures telling { D.tells disk.old ↔ D.tells disk.new }
    ensures used { D.tells disk.old → IfOk result (λ c. IsInUse (D.held disk.new) c.name) }
{
    let name = FileName::by_default(alloc, 10)?;
    let spec = specifiers(opening);
    let opened = match settle_open(&spec) {
        Ok(modes) => open_file(alloc, disk, &name, &spec, modes),
        Err(condition) => Err(OpenFault::Refused(condition)),
    };
    drop(spec);
    opened
}

/// What is done with a connection.
#[derive(Clone, Copy)]
enum Step {
    /// It goes between records, to a place.
    At(u64),
    /// It goes into the record that begins at a place, so many characters behind its start.
    In(u64, u64),
    PastEnd,
    /// Records are put, of which the last one stays open and has so many characters.
    Open(&'static [u8], u64),
    Put(&'static [u8]),
    End,
    Go(Positioning),
}

use Step::{At, End, Go, In, Open, PastEnd, Put};

/// The code of a step that cannot be done there.
const NOT_DONE: u8 = 99;

/// The code of what was done, or why it was not.
fn code_where_done(done: Result<(), Stop>) -> Result<u8, Stop> {
    match done {
        Ok(()) => Ok(0),
        Err(stop) => Err(stop),
    }
}

/// The code of a motion, or why there was none.
fn code_where_moved(done: Result<Condition, Stop>) -> Result<u8, Stop> {
    match done {
        Ok(condition) => Ok(code_of(condition)),
        Err(stop) => Err(stop),
    }
}

fn code_of(condition: Condition) -> u8 {
    match condition {
        Condition::Fine => 0,
        Condition::Error(code) => code,
        Condition::EndOfFile | Condition::EndOfRecord => NOT_DONE,
    }
}

/// Puts text as the last of the file, with the last record open or ended.
fn put<F: FileStore>(c: &mut Connection<F>, text: &[u8], left_open: Option<u64>) -> Result<u8, Stop>
    ensures { c.new.name ≡ c.old.name }
{
    let at = c.spot().at;
    let formatted = c.modes().formatted && c.modes().access != Access::Direct;
    if !formatted || text.len() > 100 || at > 1000 {
        return Ok(NOT_DONE);
    }
    match left_open {
        Some(count) if count <= at => code_where_done(c.put_open_record(text, count)),
        _ => code_where_done(c.put_records(text)),
    }
}

/// Does it, and answers the code.
fn done<F: FileStore>(c: &mut Connection<F>, step: Step) -> Result<u8, Stop>
    ensures { c.new.name ≡ c.old.name }
{
    let len = c.file_len();
    match step {
        At(place) if place <= len => c.go_between(place),
        In(start, count) if start <= len && count <= len - start => c.go_into_record(start, count),
        PastEnd => c.go_past_end(),
        Open(text, count) => return put(c, text, Some(count)),
        Put(text) => return put(c, text, None),
        End => return code_where_done(c.end_record()),
        Go(how) => return code_where_moved(c.move_to(how)),
        _ => return Ok(NOT_DONE),
    }
    Ok(0)
}

/// Does one step behind the other, and answers the last code.
fn all_done<F: FileStore>(c: &mut Connection<F>, steps: &[Step]) -> Result<u8, Stop>
    ensures { c.new.name ≡ c.old.name }
{
    let mut last = 0;
    for step in steps {
        last = done(c, *step)?;
    }
    Ok(last)
}

/// What steps come to: the last code, the position, and whether that is behind the endfile record.
type Came = (u8, u64, bool);

/// Opens, does the steps, and closes; the file is kept or removed.
fn come_to<D: Disk>(
    alloc: Global,
    disk: &mut D,
    opening: Statement,
    steps: &[Step],
    keep: bool,
) -> Result<Came, OpenFault>
    requires { D.tells disk.old → (D.held disk.old).in_use ≡ set.empty }
{
    let mut c = connect(alloc, disk, opening)?;
    let last = all_done(&mut c, steps);
    let spot = c.spot();
    match (c.close_file(disk, keep), last) {
        (Ok(()), Ok(code)) => Ok((code, spot.at, spot.after_end)),
        (Err(failed), _) => Err(OpenFault::Stop(Stop::from(failed))),
        (_, Err(stop)) => Err(OpenFault::Stop(stop)),
    }
}

/// The same on a disk that holds the file with these bytes, or none, and whether it is left with those or, removed, with none.
fn come_and_leave(
    alloc: Global,
    opening: Statement,
    there: Option<&[u8]>,
    steps: &[Step],
    left: Option<&[u8]>,
) -> (Result<Came, OpenFault>, bool) {
    match disk_of(alloc, there) {
        Ok(mut disk) => {
            let came = come_to(alloc, &mut disk, opening, steps, left.is_some());
            let holds = disk.bytes_of(NAME) == left;
            drop(disk);
            (came, holds)
        }
        Err(error) => (Err(OpenFault::Stop(Stop::Memory(error))), false),
    }
}
