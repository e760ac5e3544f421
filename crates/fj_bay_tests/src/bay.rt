// Jobs on a bay that is empty, that has a connection, and that is halted.
ghost use Rattle.std.specs.Prelude.{◌≡◌, IfOk};
ghost use Rattle.std.specs.FinSet as set;
ghost use Rattle.fj_outside.specs.FailingDisk.{disk_held};

use fj_bay::Answer::{Done, Skipped};
use fj_bay::{Answer, Bay, Job};
use fj_connect::{Connection, OpenFault, Positioning, open_file};
use fj_format::parse;
use fj_modes::{FileName, FileStatus, OpenSpec, settle_open};
use fj_moved::{Load, Moved};
use fj_outside::{FailingDisk, FailingFile, FileStore, MemoryDisk, Stop};
use fj_slot::Engine;
use fj_transfer::{EditChange, Layout, Transfer, TransferSpec};
use fj_value::Condition::{EndOfFile, Error, Fine};
use fj_value::{Boxed, Delim, EditModes, Items, Tag};
use std::alloc::{AllocError, Global};
use std::test::Fail;

fn sent<T: Send + Drop>(_: T) {}

/// A bay and its answers go to another thread where the file does.
fn bays_are_sent<F: FileStore + Send>(bay: Bay<F>, answer: Answer) {
    sent(bay);
    sent(answer);
}

/// So does a job.
fn jobs_are_sent<F: FileStore + Send>(job: Job<F>) {
    sent(job);
}

/// What a row does.
#[derive(Clone, Copy)]
enum Step {
    /// Of a connection on whose file the call of that number fails; none for 0.
    Attach(u64),
    Detach,
    /// A READ, awaited or pending.
    Read,
    Pend,
    /// A WRITE that leaves its record open.
    Open,
    Go(Positioning),
    Change,
    Flush,
    Look,
    Resume,
}

const NAME: &str = "fort.10";

const MODES: EditModes = EditModes {
    blank_zero: true,
    comma: false,
    delim: Delim::Plain,
    pad: true,
    plus: false,
};

/// A disk with a file of unit 10 that holds `a` and a line feed, of which one call fails, if any.
#[tactic(auto, using(fj_outside::proofs::HoldingLaws::free_of_empty))]
fn disk_of(alloc: Global, fails: u64) -> Result<FailingDisk, AllocError>
    ensures { IfOk result (λ disk. (disk_held disk).in_use ≡ set.empty) }
{
    let mut inner = MemoryDisk::new(alloc);
    inner.add_file(NAME, b"a\n")?;
    let mut disk = FailingDisk::new(alloc, inner, &[])?;
    disk.fail_file(NAME, &[fails])?;
    Ok(disk)
}

#[tactic(auto, using(fj_outside::proofs::HoldingLaws::free_of_empty))]
fn connection(alloc: Global, fails: u64) -> Result<Connection<FailingFile>, OpenFault> {
    let mut disk = disk_of(alloc, fails)?;
    let mut spec = OpenSpec::default();
    spec.status = Some(FileStatus::Old);
    let name = FileName::by_default(alloc, 10)?;
    match settle_open(&spec) {
        Ok(modes) => open_file(alloc, &mut disk, &name, &spec, modes),
        Err(condition) => Err(OpenFault::Refused(condition)),
    }
}

/// A READ or WRITE of no items. Its identifier is 0 where it is not pending.
fn transfer(
    alloc: Global,
    tag: u32,
    input: bool,
    advance: bool,
    format: &'static [u8],
) -> Result<Transfer, OpenFault> {
    let Ok(format) = parse(alloc, &format[..format.len().min(100)]) else {
        return Err(OpenFault::Refused(Error(11)));
    };
    Ok(Transfer {
        stmt: 1,
        tag: Tag(tag),
        spec: TransferSpec {
            input,
            layout: Layout::Explicit(format),
            advance,
            rec: None,
            pos: None,
            edit: EditChange {
                blank_zero: None,
                comma: None,
                delim: None,
                pad: None,
                plus: None,
            },
        },
        moved: Load::of_cells(Moved {
            cells: Items::new(alloc),
            order: Items::new(alloc),
        }),
        size: None,
        count: None,
    })
}

fn moves(alloc: Global, transfer: Transfer) -> Result<Job<FailingFile>, OpenFault> {
    Ok(Job::Move(Boxed::new(alloc, transfer)?))
}

fn job_of(alloc: Global, step: Step) -> Result<Job<FailingFile>, OpenFault> {
    match step {
        Step::Attach(fails) => Ok(Job::Attach(Boxed::new(alloc, Some(connection(alloc, fails)?))?)),
        Step::Detach => Ok(Job::Detach(Boxed::new(alloc, None)?)),
        // It passes over a record.
        Step::Read => moves(alloc, transfer(alloc, 0, true, true, b"()")?),
        Step::Pend => moves(alloc, transfer(alloc, 1, true, true, b"()")?),
        Step::Open => moves(alloc, transfer(alloc, 0, false, false, b"('b')")?),
        Step::Go(how) => Ok(Job::Go(how)),
        Step::Change => Ok(Job::Change(MODES)),
        Step::Flush => Ok(Job::Flush),
        Step::Look => Ok(Job::Look(Boxed::new(alloc, None)?)),
        Step::Resume => Ok(Job::Resume),
    }
}

/// Whether the job has a connection, or where it was looked at.
fn brings<F: FileStore>(job: &Job<F>) -> Option<u64> {
    match job {
        Job::Attach(place) | Job::Detach(place) => place.get().as_ref().map(|_| 0),
        Job::Look(place) => place.get().as_ref().map(|look| look.spot.at),
        _ => None,
    }
}

use Step::{Attach, Change, Detach, Flush, Go, Look as LookAt, Open, Pend, Read, Resume};

// Each job in turn, its answer, and what it brings back: the place that was looked at, or 0 for a connection.
static EMPTY: [(Step, Answer, Option<u64>); 8] = [
    (Detach, Done(Fine), None),
    (Read, Done(Error(1)), None),
    (Go(Positioning::Rewind), Done(Error(1)), None),
    (Change, Done(Error(1)), None),
    (Flush, Done(Fine), None),
    (LookAt, Done(Error(1)), None),
    (Resume, Done(Fine), None),
    (Attach(0), Done(Fine), None),
];

static FULL: [(Step, Answer, Option<u64>); 10] = [
    (Attach(0), Done(Fine), None),
    (Attach(0), Done(Error(7)), Some(0)),
    (LookAt, Done(Fine), Some(0)),
    (Read, Done(Fine), None),
    (LookAt, Done(Fine), Some(2)),
    (Go(Positioning::Rewind), Done(Fine), None),
    (Change, Done(Fine), None),
    (Flush, Done(Fine), None),
    (Resume, Done(Fine), None),
    (Detach, Done(Fine), Some(0)),
];

// An awaited transfer halts the bay, and the halt is ended.
static HALTED: [(Step, Answer, Option<u64>); 15] = [
    (Attach(0), Done(Fine), None),
    (Pend, Done(Fine), None),
    (Read, Done(EndOfFile), None),
    (LookAt, Done(Fine), Some(2)),
    (Pend, Skipped(EndOfFile), None),
    (Go(Positioning::Rewind), Done(Fine), None),
    (Attach(0), Done(Error(7)), Some(0)),
    (Change, Done(Fine), None),
    (Flush, Done(Fine), None),
    (Read, Skipped(EndOfFile), None),
    (LookAt, Done(Fine), Some(0)),
    (Resume, Done(Fine), None),
    (Read, Done(Fine), None),
    (LookAt, Done(Fine), Some(2)),
    (Detach, Done(Fine), Some(0)),
];

// A pending transfer halts the bay, and the connection goes out.
static HALTED_BY_PENDING: [(Step, Answer, Option<u64>); 6] = [
    (Attach(0), Done(Fine), None),
    (Read, Done(Fine), None),
    (Pend, Done(EndOfFile), None),
    (Pend, Skipped(EndOfFile), None),
    (LookAt, Done(Fine), Some(2)),
    (Detach, Done(Fine), Some(0)),
];

/// Carries out a job, and answers what the bay answers, and what the job brings back.
fn done<F: FileStore>(bay: &mut Bay<F>, mut job: Job<F>) -> (Result<Answer, Stop>, Option<u64>) {
    let answer = bay.perform(&mut job);
    (answer, brings(&job))
}

/// The number of the first row that comes to something else.
fn differs(
    alloc: Global,
    rows: &[(Step, Answer, Option<u64>)],
) -> Result<Option<usize>, OpenFault> {
    let mut bay = Bay::empty(alloc)?;
    for (number, (step, answer, brought)) in rows.iter().enumerate() {
        if done(&mut bay, job_of(alloc, *step)?) != (Ok(*answer), *brought) {
            return Ok(Some(number));
        }
    }
    Ok(None)
}

#[test]
fn jobs_on_empty_full_and_halted_bays(rt: HostRuntime) -> Result<(), Fail> {
    assert_eq!(rt; differs(rt.alloc(), &EMPTY), Ok(None));
    assert_eq!(rt; differs(rt.alloc(), &FULL), Ok(None));
    assert_eq!(rt; differs(rt.alloc(), &HALTED), Ok(None));
    assert_eq!(rt; differs(rt.alloc(), &HALTED_BY_PENDING), Ok(None));
    Ok(())
}

/// What steps come to: whether all but the last are fine, what the last answers, how many faults the bay has then, and whether it still
/// has its connection.
type Came = (bool, Result<Answer, Stop>, u64, bool);

fn come_to(alloc: Global, steps: &[Step]) -> Result<Came, OpenFault> {
    let mut bay = Bay::empty(alloc)?;
    let mut fine = true;
    let mut last = Ok(Done(Fine));
    for step in steps {
        fine &= last == Ok(Done(Fine));
        (last, _) = done(&mut bay, job_of(alloc, *step)?);
    }
    let faults = bay.faults();
    Ok((fine, last, faults, bay.into_connection().is_some()))
}

// The first call on the file fails, if there is one.
#[test]
fn stops_keep_the_connection(rt: HostRuntime) -> Result<(), Fail> {
    for step in [Read, Go(Positioning::Endfile)] {
        let came = come_to(rt.alloc(), &[Attach(1), step]);
        assert!(rt; came == Ok((true, Err(Stop::Failed), 1, true)));
    }
    for (step, condition) in [
        (LookAt, Fine),
        (Flush, Fine),
        (Change, Fine),
        (Resume, Fine),
        (Attach(0), Error(7)),
    ] {
        let came = come_to(rt.alloc(), &[Attach(1), step]);
        assert!(rt; came == Ok((true, Ok(Done(condition)), 0, true)));
    }
    Ok(())
}

// A record is left open, and a call on the file fails where the connection goes out.
#[test]
fn a_stop_keeps_the_connection_of_an_open_record(rt: HostRuntime) -> Result<(), Fail> {
    let mut met: u32 = 0;
    for fails in [1, 2, 3, 4] {
        let came = come_to(rt.alloc(), &[Attach(fails), Open, Detach]);
        if let Ok((true, Err(Stop::Failed), faults, has_connection)) = came {
            met = met.saturating_add(1);
            assert_eq!(rt; (faults, has_connection), (1, true));
        }
    }
    // One call ends the record.
    assert_eq!(rt; met, 1);
    Ok(())
}
