// Each object on its happy path, and the calls that fail by a plan. The expected values were worked out by hand.
ghost use Rattle.std.specs.Prelude.{◌≡◌, IfOk};
ghost use Rattle.fj_outside.specs.FailingDisk.{disk_held};
ghost use Rattle.std.specs.FinSet as set;

use fj_outside::{
    Disk, Failed, FailingDisk, FailingSink, FailingSource, FileStore, Gate, GateDisk, GateFile,
    MemoryDisk, MemoryFile, MemorySink, MemorySource, Sink, Source, Stop,
};
use std::alloc::{AllocError, Global};
use std::test::Fail;
use std::thread;

/// What five reads of two bytes gave, each ended by a bar; `!` for one that failed.
fn reads<S: Source>(alloc: Global, source: &mut S) -> Result<Vec<u8>, AllocError> {
    let mut said = Vec::new(alloc);
    for _ in 0..5 {
        let mut buf = [0u8; 2];
        match source.read(&mut buf) {
            Ok(count) => said.extend_from_slice(&buf[..count])?,
            Err(_) => said.push(b'!')?,
        }
        said.push(b'|')?;
    }
    Ok(said)
}

/// The reads that fail, what all give, and the number of faults.
static READS: [([u64; 2], &[u8], u64); 4] = [
    ([9, 9], b"ab|cd|e|||", 0),
    ([1, 9], b"!|ab|cd|e||", 1),
    ([2, 9], b"ab|!|cd|e||", 1),
    ([4, 2], b"ab|!|cd|!|e|", 2),
];

/// Whether reads come to this.
fn come<S: Source>(alloc: Global, source: &mut S, said: &[u8], faults: u64) -> bool {
    match reads(alloc, source) {
        Ok(got) => got.as_slice() == said && source.faults() == faults,
        Err(_) => false,
    }
}

fn planned_source(alloc: Global, fails: [u64; 2]) -> Result<FailingSource, AllocError> {
    FailingSource::new(alloc, MemorySource::new(alloc, b"abcde")?, &fails)
}

/// Whether the reads that fail by a plan come to this.
fn come_by_plan(alloc: Global, fails: [u64; 2], said: &[u8], faults: u64) -> bool {
    match planned_source(alloc, fails) {
        Ok(mut source) => come(alloc, &mut source, said, faults),
        Err(_) => false,
    }
}

/// The same of a source of which none fails.
fn come_from_memory(alloc: Global, said: &[u8]) -> bool {
    match MemorySource::new(alloc, b"abcde") {
        Ok(mut source) => come(alloc, &mut source, said, 0),
        Err(_) => false,
    }
}

#[test]
fn reads_fail_by_plan(rt: HostRuntime) {
    for (number, (fails, said, faults)) in READS.iter().enumerate() {
        assert!(rt;
            come_by_plan(rt.alloc(), *fails, said, *faults),
            "row {number}"
        );
    }
    assert!(rt; come_from_memory(rt.alloc(), b"ab|cd|e|||"));
}

/// How many bytes each of three writes took; `!` for one that failed.
fn writes<S: Sink>(alloc: Global, sink: &mut S) -> Result<Vec<u8>, AllocError> {
    let mut said = Vec::new(alloc);
    for piece in [b"ab", b"cd", b"ef"] {
        match sink.write(piece) {
            Ok(2) => said.push(b'2')?,
            Ok(_) => said.push(b'?')?,
            Err(_) => said.push(b'!')?,
        }
    }
    Ok(said)
}

/// The writes that fail, what all answer, what was taken, and the number of faults.
static WRITES: [([u64; 2], &[u8], &[u8], u64); 4] = [
    ([9, 9], b"222", b"abcdef", 0),
    ([1, 9], b"!22", b"cdef", 1),
    ([2, 9], b"2!2", b"abef", 1),
    ([3, 1], b"!2!", b"cd", 2),
];

/// Whether writes are answered so.
fn go<S: Sink>(alloc: Global, sink: &mut S, said: &[u8], faults: u64) -> bool {
    match writes(alloc, sink) {
        Ok(got) => got.as_slice() == said && sink.faults() == faults,
        Err(_) => false,
    }
}

/// Whether the writes that fail by a plan are answered so, and that was taken.
fn go_by_plan(alloc: Global, fails: &[u64], said: &[u8], taken: &[u8], faults: u64) -> bool {
    match FailingSink::new(alloc, MemorySink::new(alloc), fails) {
        Ok(mut sink) => go(alloc, &mut sink, said, faults) && sink.taken() == taken,
        Err(_) => false,
    }
}

/// The same of a sink of which none fails.
fn go_to_memory(alloc: Global, said: &[u8], taken: &[u8]) -> bool {
    let mut sink = MemorySink::new(alloc);
    go(alloc, &mut sink, said, 0) && sink.taken() == taken
}

#[test]
fn writes_fail_by_plan(rt: HostRuntime) {
    for (number, (fails, said, taken, faults)) in WRITES.iter().enumerate() {
        assert!(rt;
            go_by_plan(rt.alloc(), fails, said, taken, *faults),
            "row {number}"
        );
    }
    assert!(rt; go_to_memory(rt.alloc(), b"222", b"abcdef"));
}

/// What is done with a file that is out.
#[derive(Clone, Copy)]
enum Step {
    Add,
    Count,
    Cut,
}

/// Adds two bytes at the end.
fn add<F: FileStore>(file: &mut F) -> u8 {
    let len = file.len();
    match file.write_at(len, b"de") {
        Ok(()) => b'.',
        Err(_) => b'!',
    }
}

/// Counts the bytes from place 1 on, at most four.
fn count<F: FileStore>(file: &mut F) -> u8 {
    let mut buf = [0u8; 4];
    match file.read_at(1, &mut buf) {
        Ok(count) => b"01234".get(count).copied().unwrap_or(b'?'),
        Err(_) => b'!',
    }
}

/// Cuts it to one byte.
fn cut<F: FileStore>(file: &mut F) -> u8 {
    if file.len() == 0 {
        return b'0';
    }
    match file.cut(1) {
        Ok(()) => b'.',
        Err(_) => b'!',
    }
}

/// `.`, or how many bytes there were; `!` where a call failed.
fn done<F: FileStore>(file: &mut F, step: Step) -> u8 {
    match step {
        Step::Add => add(file),
        Step::Count => count(file),
        Step::Cut => cut(file),
    }
}

/// Makes a file and does a step with it; `!` where a call failed.
fn act_on_new<D: Disk>(alloc: Global, disk: &mut D, name: &str, step: Step) -> u8
    requires { D.tells disk.old → (D.held disk.old).in_use ≡ set.empty }
    ensures { D.tells disk.new → (D.held disk.new).in_use ≡ set.empty }
{
    let mut file = match disk.create(alloc, name) {
        Ok(file) => file,
        Err(_) => return b'!',
    };
    let said = done(&mut file, step);
    disk.give(name, file);
    said
}

/// Does a step with a file, which is made where there is none; `!` where a call failed.
fn act<D: Disk>(alloc: Global, disk: &mut D, name: &str, step: Step) -> u8
    requires { D.tells disk.old → (D.held disk.old).in_use ≡ set.empty }
    ensures { D.tells disk.new → (D.held disk.new).in_use ≡ set.empty }
{
    let mut file = match disk.take(alloc, name) {
        Ok(Some(file)) => file,
        Ok(None) => return act_on_new(alloc, disk, name, step),
        Err(_) => return b'!',
    };
    let said = done(&mut file, step);
    disk.give(name, file);
    said
}

/// Removes a file; `!` where a call failed, `-` where there is no file.
fn remove<D: Disk>(disk: &mut D, name: &str) -> u8
    requires { D.tells disk.old → (D.held disk.old).in_use ≡ set.empty }
    ensures { D.tells disk.new → (D.held disk.new).in_use ≡ set.empty }
{
    match disk.exists(name) {
        Ok(true) => match disk.remove(name) {
            Ok(()) => b'r',
            Err(_) => b'!',
        },
        Ok(false) => b'-',
        Err(_) => b'!',
    }
}

/// Adds to the files `A` and `B`, counts in `A`, cuts it and removes it twice.
fn story<D: Disk>(alloc: Global, disk: &mut D) -> [u8; 6]
    requires { D.tells disk.old → (D.held disk.old).in_use ≡ set.empty }
{
    let added = act(alloc, disk, "A", Step::Add);
    let made = act(alloc, disk, "B", Step::Add);
    let count = act(alloc, disk, "A", Step::Count);
    let cut = act(alloc, disk, "A", Step::Cut);
    let removed = remove(disk, "A");
    let again = remove(disk, "A");
    [added, made, count, cut, removed, again]
}

/// A disk with a file `A`.
#[tactic(auto, using(fj_outside::proofs::HoldingLaws::free_of_none))]
fn disk_with_a(alloc: Global) -> Result<MemoryDisk, AllocError>
    ensures { IfOk result (λ disk. disk.in_use ≡ set.empty) }
{
    let mut disk = MemoryDisk::new(alloc);
    disk.add_file("A", b"abc")?;
    Ok(disk)
}

/// A disk with a file `A`, of which these calls fail, and these on its files.
fn planned(
    alloc: Global,
    disk_fails: [u64; 2],
    a_fails: [u64; 2],
    b_fails: [u64; 2],
) -> Result<FailingDisk, AllocError>
    ensures { IfOk result (λ disk. (disk_held disk).in_use ≡ set.empty) }
{
    let mut disk = FailingDisk::new(alloc, disk_with_a(alloc)?, &disk_fails)?;
    disk.fail_file("A", &a_fails)?;
    disk.fail_file("B", &b_fails)?;
    Ok(disk)
}

/// The calls that fail on the disk, on A and on B; what the story says, what B holds then, and the number of faults.
type Row = (
    [u64; 2],
    [u64; 2],
    [u64; 2],
    [u8; 6],
    Option<&'static [u8]>,
    u64,
);

static ROWS: [Row; 12] = [
    // The calls on the disk are, in their order, take; take, create; take; take; exists, remove; exists.
    ([99, 99], [99, 99], [99, 99], *b"..4.r-", Some(b"de"), 0),
    ([1, 99], [99, 99], [99, 99], *b"!.2.r-", Some(b"de"), 1),
    ([2, 99], [99, 99], [99, 99], *b".!4.r-", None, 1),
    ([3, 99], [99, 99], [99, 99], *b".!4.r-", None, 1),
    ([4, 99], [99, 99], [99, 99], *b"..!.r-", Some(b"de"), 1),
    ([6, 99], [99, 99], [99, 99], *b"..4.!r", Some(b"de"), 1),
    ([7, 99], [99, 99], [99, 99], *b"..4.!r", Some(b"de"), 1),
    ([1, 2], [99, 99], [99, 99], *b"!!2.r-", None, 2),
    // Those on A are write_at, read_at, cut; the count goes on when it is given back and taken again.
    ([99, 99], [1, 99], [99, 99], *b"!.2.r-", Some(b"de"), 1),
    ([99, 99], [2, 99], [99, 99], *b"..!.r-", Some(b"de"), 1),
    ([99, 99], [3, 1], [99, 99], *b"!.2!r-", Some(b"de"), 2),
    ([99, 99], [99, 99], [1, 99], *b".!4.r-", Some(b""), 1),
];

/// Whether a row holds; A is gone.
fn fails_by_plan(alloc: Global, row: &Row) -> bool {
    let (disk_fails, a_fails, b_fails, said, b_bytes, faults) = *row;
    match planned(alloc, disk_fails, a_fails, b_fails) {
        Ok(mut disk) => {
            let told = story(alloc, &mut disk);
            let is_so = told == said
                && disk.bytes_of("A").is_none()
                && disk.bytes_of("B") == b_bytes
                && disk.faults() == faults;
            drop(disk);
            is_so
        }
        Err(_) => false,
    }
}

#[test]
fn disks_fail_by_plan(rt: HostRuntime) {
    for (number, row) in ROWS.iter().enumerate() {
        assert!(rt; fails_by_plan(rt.alloc(), row), "row {number}");
    }
}

/// What the story says on a disk in memory, whether A is gone and B has its bytes, and the number of faults.
fn told_in_memory(alloc: Global) -> Result<([u8; 6], bool, bool, u64), AllocError> {
    match disk_with_a(alloc) {
        Ok(mut disk) => {
            let said = story(alloc, &mut disk);
            let gone = disk.bytes_of("A").is_none();
            let added = disk.bytes_of("B") == Some(b"de".as_slice());
            let faults = disk.faults();
            drop(disk);
            Ok((said, gone, added, faults))
        }
        Err(error) => Err(error),
    }
}

#[test]
fn memory_disks_have_no_faults(rt: HostRuntime) {
    assert_eq!(rt; told_in_memory(rt.alloc()), Ok((*b"..4.r-", true, true, 0)));
}

/// Whether a file is at home with these bytes.
fn holds(disk: &FailingDisk, name: &str, bytes: &[u8]) -> bool {
    match disk.bytes_of(name) {
        Some(held) => held == bytes,
        None => false,
    }
}

/// Adds to the file `A` and cuts it, of which the second call fails; what both answer, and whether it has its bytes.
fn cut_in_vain(alloc: Global, disk: &mut FailingDisk) -> ([u8; 2], bool)
    requires { (disk_held disk.old).in_use ≡ set.empty }
    ensures { (disk_held disk.new).in_use ≡ set.empty }
{
    let added = act(alloc, disk, "A", Step::Add);
    let is_planned = disk.fail_file("A", &[2]).is_ok();
    let cut = act(alloc, disk, "A", Step::Cut);
    ([added, cut], is_planned && holds(disk, "A", b"de"))
}

/// Removes the file `A` and adds to it, where its fourth call fails; what both answer, and whether it has no bytes.
fn added_in_vain(alloc: Global, disk: &mut FailingDisk) -> ([u8; 2], bool)
    requires { (disk_held disk.old).in_use ≡ set.empty }
{
    let is_planned = disk.fail_file("A", &[4]).is_ok();
    let removed = remove(disk, "A");
    let added = act(alloc, disk, "A", Step::Add);
    ([removed, added], is_planned && holds(disk, "A", b""))
}

/// What calls on one file answer and whether it has its bytes: two, one, and two behind them; and the number of faults.
type Counted = (([u8; 2], bool), (u8, bool), ([u8; 2], bool), u64);

fn counted_on(alloc: Global) -> Result<Counted, AllocError> {
    match FailingDisk::new(alloc, MemoryDisk::new(alloc), &[]) {
        Ok(mut disk) => {
            let first = cut_in_vain(alloc, &mut disk);
            let cut = act(alloc, &mut disk, "A", Step::Cut);
            let is_cut = holds(&disk, "A", b"d");
            let last = added_in_vain(alloc, &mut disk);
            let faults = disk.faults();
            drop(disk);
            Ok((first, (cut, is_cut), last, faults))
        }
        Err(error) => Err(error),
    }
}

#[test]
fn calls_on_a_file_count_on(rt: HostRuntime) {
    let due = ((*b".!", true), (b'.', true), (*b"r!", true), 2);
    assert_eq!(rt; counted_on(rt.alloc()), Ok(due));
}

#[test]
fn refusals_convert(rt: HostRuntime) {
    assert_eq!(rt; Stop::from(Failed), Stop::Failed);
    assert_eq!(rt; Stop::from(AllocError), Stop::Memory(AllocError));
}

/// Whether a file at a gate is at home with these bytes.
fn has(disk: &GateDisk, name: &str, bytes: &[u8]) -> bool {
    match disk.bytes_of(name) {
        Some(held) => held == bytes,
        None => false,
    }
}

/// What an addition to the file that waits answers, whether it has no bytes, and the number of faults; then what four more answer
/// to files of which the third opens the gate, whether the one that waited has its bytes, and the number of faults.
type Gated = (u8, bool, u64, [u8; 4], bool, u64);

fn gated(alloc: Global) -> Result<Gated, AllocError> {
    match GateDisk::new(alloc, "H", "J", 1000) {
        Ok(mut disk) => {
            let first = act(alloc, &mut disk, "H", Step::Add);
            let (is_empty, met) = (has(&disk, "H", b""), disk.faults());
            let other = act(alloc, &mut disk, "K", Step::Add);
            let again = act(alloc, &mut disk, "H", Step::Add);
            let opening = act(alloc, &mut disk, "J", Step::Add);
            let opened = act(alloc, &mut disk, "H", Step::Add);
            let four = [other, again, opening, opened];
            let (is_added, faults) = (has(&disk, "H", b"de"), disk.faults());
            drop(disk);
            Ok((first, is_empty, met, four, is_added, faults))
        }
        Err(error) => Err(error),
    }
}

/// What additions to the file that opens the gate and to the one that waits answer, where nobody waits; a story behind them, and
/// the number of faults.
fn ungated(alloc: Global) -> Result<([u8; 2], [u8; 6], u64), AllocError> {
    match GateDisk::new(alloc, "H", "J", 0) {
        Ok(mut disk) => {
            let opening = act(alloc, &mut disk, "J", Step::Add);
            let waiting = act(alloc, &mut disk, "H", Step::Add);
            let said = story(alloc, &mut disk);
            let faults = disk.faults();
            drop(disk);
            Ok(([opening, waiting], said, faults))
        }
        Err(error) => Err(error),
    }
}

// What is written to the file that waits, and to the one that opens the gate, in both orders by one thread.
#[test]
fn a_gate_holds_one_file_until_another_is_written(rt: HostRuntime) {
    let due = (b'!', true, 1, *b".!..", true, 2);
    assert_eq!(rt; gated(rt.alloc()), Ok(due));
    assert_eq!(rt; ungated(rt.alloc()), Ok((*b".!", *b"..1.r-", 1)));
}

/// Whether a write of two bytes went through.
fn written(mut file: GateFile) -> bool {
    done(&mut file, Step::Add) == b'.'
}

// The file that waits is written by one thread, and the one that opens the gate by another.
#[test]
fn a_gate_is_opened_by_another_thread(rt: HostRuntime) -> Result<(), Fail> {
    let alloc = rt.alloc();
    let gate = Gate::new(alloc, 1_000_000_000)?;
    let waiting = GateFile::new(MemoryFile::new(alloc), gate.try_clone()?, true, false);
    let opening = GateFile::new(MemoryFile::new(alloc), gate, false, true);
    let both = thread::join(&rt, || written(waiting), || written(opening));
    assert_eq!(rt; both, (true, true));
    Ok(())
}
