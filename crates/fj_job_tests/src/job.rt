// Rows that were worked by hand. The fields are those that gfortran 12 writes.
ghost use Rattle.std.specs.Prelude.{◌≡◌, IfOk};
ghost use Rattle.std.specs.FinSet as set;
ghost use Rattle.fj_outside.specs.FailingDisk.{disk_held};

use fj_job::{Reason, Status, alone_job, run_job};
use fj_outside::{
    Disk, FailingDisk, FailingSink, FailingSource, GateDisk, MemoryDisk, MemorySink, MemorySource,
    Sink, Source,
};
use fj_value::{Rule, Text};
use std::alloc::{AllocError, Global};
use std::sync::Wait;
use std::test::Fail;
use std::thread::Threads;

/// The words, a deck, the answer, the output, and what the file G holds behind the run. Before it, it holds ` 12` and `x`.
type Row = (
    &'static str,
    &'static [u8],
    Status,
    &'static [u8],
    &'static [u8],
);

static ROWS: [Row; 37] = [
    ("alone", b"END\n", Status::Ended, b"= ended\n", b" 12\nx\n"),
    (
        "run --workers 0",
        b"INTEGER K\nK = 42\nOPEN(10,FILE='G',STATUS='REPLACE')\nWRITE(10,'(I5)') K\nCLOSE(10)\nEND\n",
        Status::Ended,
        b"= ended\nK = 42\n",
        b"   42\n",
    ),
    (
        "alone",
        b"INTEGER K\nK = 42\nOPEN(10,FILE='G',STATUS='REPLACE')\nWRITE(10,'(I1)') K\nCLOSE(10)\nEND\n",
        Status::Ended,
        b"= ended\nK = 42\n",
        b"*\n",
    ),
    (
        "alone",
        b"INTEGER K\nK = -2147483648\nOPEN(10,FILE='G',STATUS='REPLACE')\nWRITE(10,'(I5)') K\nEND\n",
        Status::Ended,
        b"= ended\nK = -2147483648\n",
        b"*****\n",
    ),
    (
        "alone",
        b"INTEGER A\nINTEGER B\nINTEGER S\nOPEN(10,FILE='G')\nREAD(10,'(I3)') A\nREAD(10,'(I3)',IOSTAT=S) B\nA = B\nEND\n",
        Status::Prohibited {
            stmt: 7,
            rule: Rule::P3,
        },
        b"= prohibited at 7 by P3\nA = 12\nB = ?\nS = 13\n",
        b" 12\nx\n",
    ),
    (
        "alone",
        b"INTEGER A\nOPEN(10,FILE='G')\nREAD(10,'(I3)') A\nREAD(10,'(I3)') A\nEND\n",
        Status::ErrorStop { stmt: 4, code: 13 },
        b"= error stop at 4 with 13\nA = ?\n",
        b" 12\nx\n",
    ),
    (
        "alone",
        b"INTEGER A\nOPEN(10,FILE='G')\nREAD(10,'(I3)',IOSTAT=A) A\nEND\n",
        Status::Prohibited {
            stmt: 3,
            rule: Rule::P5,
        },
        b"= prohibited at 3 by P5\nA = ?\n",
        b" 12\nx\n",
    ),
    (
        "alone",
        b"WRITE(*,'(I5)') 42\nWRITE(*,'(I2)') 123\nWRITE(*,'(I0)') 0\nWRITE(*,'(I0.0)') 0\nWRITE(*,'(I5.3)') -7\nEND\n",
        Status::Ended,
        b"   42\n**\n0\n \n -007\n= ended\n",
        b" 12\nx\n",
    ),
    (
        "alone",
        b"WRITE(*,'(Z8)') -1\nWRITE(*,'(B3)') -1\nEND\n",
        Status::Ended,
        b"FFFFFFFF\n***\n= ended\n",
        b" 12\nx\n",
    ),
    (
        "alone",
        b"WRITE(*,'(I3,2(1X,I2))') 1,2,3,4,5,6\nEND\n",
        Status::Ended,
        b"  1  2  3\n  4  5\n  6\n= ended\n",
        b" 12\nx\n",
    ),
    (
        "alone",
        b"WRITE(*,'(T4,A,T1,A)') 'CD','AB'\nEND\n",
        Status::Ended,
        b"AB CD\n= ended\n",
        b" 12\nx\n",
    ),
    (
        "alone",
        b"INTEGER S\nWRITE(*,'(''x'')',IOSTAT=S) 5\nEND\n",
        Status::Ended,
        b"= ended\nS = 11\n",
        b" 12\nx\n",
    ),
    (
        "alone",
        b"INTEGER A\nWRITE(*,'(I2)') 7\nWRITE(*,'(I2)') A\nEND\n",
        Status::Prohibited {
            stmt: 3,
            rule: Rule::P3,
        },
        b" 7\n= prohibited at 3 by P3\nA = ?\n",
        b" 12\nx\n",
    ),
    (
        "alone",
        b"CHARACTER(LEN=4) C\nINTEGER B(2)\nLOGICAL L\nINTEGER(8) N\nC = 'it''s'\nB(2) = 7\nL = .TRUE.\nN = 5000000000\nWRITE(*,'(A,L2,I11)') C,L,N\nEND\n",
        Status::Ended,
        b"it's T 5000000000\n= ended\nC = 'it''s'\nB(1) = ?\nB(2) = 7\nL = T\nN = 5000000000\n",
        b" 12\nx\n",
    ),
    (
        "alone",
        b"",
        Status::DeckRefused {
            line: 1,
            reason: Reason::NoEnd,
        },
        b"= refused at 1: no end\n",
        b" 12\nx\n",
    ),
    (
        "alone",
        b"INTEGER K\nK = 1\nK = Q\nEND\n",
        Status::DeckRefused {
            line: 3,
            reason: Reason::Meaning,
        },
        b"= refused at 3: meaning\n",
        b" 12\nx\n",
    ),
    (
        "alone",
        b"WRITE(*,'(I5,Q2)') 1\nEND\n",
        Status::DeckRefused {
            line: 1,
            reason: Reason::Format { at: 4 },
        },
        b"= refused at 1: format at 4\n",
        b" 12\nx\n",
    ),
    (
        "alone",
        b"INTEGER K\nK = = 1\nEND\n",
        Status::DeckRefused {
            line: 2,
            reason: Reason::Syntax,
        },
        b"= refused at 2: syntax\n",
        b" 12\nx\n",
    ),
    (
        "check",
        b"integer a ! x\na=5\nend\n",
        Status::Ended,
        b"= deck of 2 statements\n",
        b" 12\nx\n",
    ),
    (
        "check",
        b"WRITE(*,*) 1\nEND\n",
        Status::Ended,
        b"= deck of 2 statements\n",
        b" 12\nx\n",
    ),
    (
        "check",
        b"INTEGER A\nA = 'x'\nEND\n",
        Status::DeckRefused {
            line: 2,
            reason: Reason::Meaning,
        },
        b"= refused at 2: meaning\n",
        b" 12\nx\n",
    ),
    (
        "check",
        b"OPEN(10,FILE='G',STATUS='REPLACE')\nEND\n",
        Status::Ended,
        b"= deck of 2 statements\n",
        b" 12\nx\n",
    ),
    (
        "run --workers x",
        b"END\n",
        Status::Usage,
        b"usage: fjob run [--workers N] [--trace] | alone [--trace] | check | gen --seed N --count M [--text]\n",
        b" 12\nx\n",
    ),
    (
        "",
        b"END\n",
        Status::Usage,
        b"usage: fjob run [--workers N] [--trace] | alone [--trace] | check | gen --seed N --count M [--text]\n",
        b" 12\nx\n",
    ),
    // Transfers that are pending, and the statements that tell them.
    (
        "alone --trace",
        b"INTEGER A, B, S\nOPEN(10,FILE='G',ASYNCHRONOUS='YES')\nREAD(10,'(I3)',ASYNCHRONOUS='YES') A\nREAD(10,'(I3)',ASYNCHRONOUS='YES') B\nWRITE(*,'(I1)') 7\nWAIT(10,IOSTAT=S)\nEND\n",
        Status::Ended,
        b"7\n~ 6 10 1 0\n~ 6 10 2 13\n= ended\nA = 12\nB = ?\nS = 13\n",
        b" 12\nx\n",
    ),
    (
        "run --workers 2",
        b"INTEGER A, B\nA = 9\nOPEN(10,FILE='G',STATUS='REPLACE',ASYNCHRONOUS='YES')\nWRITE(10,'(I3)',ASYNCHRONOUS='YES') A\nWAIT(10)\nREWIND 10\nREAD(10,'(I3)') B\nEND\n",
        Status::Ended,
        b"= ended\nA = 9\nB = 9\n",
        b"  9\n",
    ),
    (
        "alone",
        b"INTEGER A\nA = 3\nOPEN(10,FILE='G',STATUS='REPLACE',ASYNCHRONOUS='YES')\nWRITE(10,'(I3)',ASYNCHRONOUS='YES') A\nWRITE(*,'(I1)') A\nA = 1\nEND\n",
        Status::Prohibited {
            stmt: 6,
            rule: Rule::P2,
        },
        b"3\n= prohibited at 6 by P2\nA = 3\n",
        b"  3\n",
    ),
    (
        "alone",
        b"INTEGER A\nOPEN(10,FILE='G',ASYNCHRONOUS='YES')\nREAD(10,'(I3)',ASYNCHRONOUS='YES') A\nWRITE(*,*) A\nEND\n",
        Status::Prohibited {
            stmt: 4,
            rule: Rule::P1,
        },
        b"= prohibited at 4 by P1\nA = ?\n",
        b" 12\nx\n",
    ),
    (
        "alone",
        b"WAIT(10)\nWAIT(10,ID=1)\nEND\n",
        Status::Prohibited {
            stmt: 2,
            rule: Rule::P4,
        },
        b"= prohibited at 2 by P4\n",
        b" 12\nx\n",
    ),
    // Groups; direct and stream access; inquiry.
    (
        "alone",
        b"INTEGER A, B(3)\nNAMELIST /H/ A, B\nA = 5\nB = 7\nOPEN(10,FILE='G',STATUS='REPLACE')\nWRITE(10,NML=H)\nREWIND 10\nB = 1\nREAD(10,NML=H)\nWRITE(*,NML=H)\nEND\n",
        Status::Ended,
        b" &H\n A=5\n B=7,7,7\n /\n= ended\nA = 5\nB(1) = 7\nB(2) = 7\nB(3) = 7\n",
        b" &H\n A=5\n B=7,7,7\n /\n",
    ),
    (
        "alone",
        b"CHARACTER(4) C\nINTEGER S\nOPEN(10,FILE='G',STATUS='REPLACE',ACCESS='DIRECT',FORM='FORMATTED',RECL=4)\nWRITE(10,'(A)',REC=3) 'xyz'\nREAD(10,'(A)',REC=4,IOSTAT=S) C\nEND\n",
        Status::Ended,
        b"= ended\nC = ?\nS = 17\n",
        b"        xyz ",
    ),
    (
        "alone",
        b"CHARACTER(2) C\nINTEGER K, N, S\nLOGICAL L\nOPEN(10,FILE='G',STATUS='REPLACE',ACCESS='STREAM',ASYNCHRONOUS='YES')\nWRITE(10,ASYNCHRONOUS='YES') 'abcdef'\nINQUIRE(10,POS=K,SIZE=N,PENDING=L)\nWRITE(10,POS=3) 'XY'\nREAD(10,POS=6,IOSTAT=S) C\nEND\n",
        Status::Ended,
        b"= ended\nC = ?\nK = 7\nN = 6\nS = -1\nL = T\n",
        b"abXYef",
    ),
    (
        "alone",
        b"LOGICAL L, M\nINTEGER N\nINQUIRE(FILE='X',EXIST=L,NUMBER=N)\nINQUIRE(FILE='G',EXIST=M)\nEND\n",
        Status::Ended,
        b"= ended\nL = F\nM = T\nN = -1\n",
        b" 12\nx\n",
    ),
    // Decks that are made.
    (
        "gen --seed 1 --count 2",
        b"",
        Status::Ended,
        b"= gen seed 1 count 2: 9 statements, 2 tells, 0 conditions, 14 bytes, sum 531\n",
        b" 12\nx\n",
    ),
    (
        "gen --count 0 --seed 0",
        b"",
        Status::Ended,
        b"= gen seed 0 count 0: 5 statements, 0 tells, 0 conditions, 0 bytes, sum 0\n",
        b" 12\nx\n",
    ),
    (
        "gen --seed 0 --count 0 --text",
        b"",
        Status::Ended,
        b"INTEGER V(4)\nOPEN(10,FILE='G10',STATUS='REPLACE',ASYNCHRONOUS='YES')\nOPEN(11,FILE='G11',STATUS='REPLACE',ASYNCHRONOUS='YES')\nCLOSE(10)\nCLOSE(11)\nEND\n",
        b" 12\nx\n",
    ),
    (
        "gen --seed 2147483648 --count 1",
        b"",
        Status::Usage,
        b"usage: fjob run [--workers N] [--trace] | alone [--trace] | check | gen --seed N --count M [--text]\n",
        b" 12\nx\n",
    ),
];

fn words_of(alloc: Global, text: &str) -> Result<Vec<String>, AllocError> {
    let mut words = Vec::new(alloc);
    if !text.is_empty() {
        for word in text.split(' ') {
            words.push(String::from_str(alloc, word)?)?;
        }
    }
    Ok(words)
}

/// A disk with the file G.
#[tactic(auto, using(fj_outside::proofs::HoldingLaws::free_of_empty))]
fn disk_of(alloc: Global) -> Result<MemoryDisk, AllocError>
    ensures { IfOk result (λ disk. disk.in_use ≡ set.empty) }
{
    let mut disk = MemoryDisk::new(alloc);
    disk.add_file("G", b" 12\nx\n")?;
    Ok(disk)
}

/// Carries out a deck by one thread.
fn alone<R: Source, W: Sink, D: Disk>(
    alloc: Global,
    deck: &mut R,
    out: &mut W,
    disk: &mut D,
) -> Result<Status, AllocError>
    requires { D.tells disk.old → (D.held disk.old).in_use ≡ set.empty }
{
    let words = words_of(alloc, "alone")?;
    Ok(alone_job(alloc, &words, deck, out, disk))
}

/// Carries out a deck by words.
fn run_by<Rt: Threads + Wait + Sync, D: Disk + Send>(
    rt: &Rt,
    alloc: Global,
    words: &str,
    text: &[u8],
    out: &mut MemorySink,
    disk: &mut D,
) -> Result<Status, AllocError>
where
    D::File: Send,
    requires { D.tells disk.old → (D.held disk.old).in_use ≡ set.empty }
{
    let words = words_of(alloc, words)?;
    let mut deck = MemorySource::new(alloc, text)?;
    Ok(run_job(rt, alloc, &words, &mut deck, out, disk))
}

/// Whether a row holds.
fn replies_so<Rt: Threads + Wait + Sync>(
    rt: &Rt,
    alloc: Global,
    row: &Row,
) -> Result<bool, AllocError> {
    let (words, text, status, output, file) = row;
    let mut out = MemorySink::new(alloc);
    let mut disk = disk_of(alloc)?;
    let answer = run_by(rt, alloc, words, text, &mut out, &mut disk)?;
    Ok(answer == *status && out.taken() == *output && disk.bytes_of("G") == Some(*file))
}

#[test]
fn replies(rt: HostRuntime) -> Result<(), Fail> {
    for (number, row) in ROWS.iter().enumerate() {
        assert!(rt; replies_so(&rt, rt.alloc(), row)?, "row {number}");
    }
    Ok(())
}

/// The lines of a deck that is carried out.
static LINES: [&[u8]; 6] = [
    b"INTEGER K",
    b"K = 42",
    b"OPEN(10,FILE='G',STATUS='REPLACE')",
    b"WRITE(10,'(I5)') K",
    b"CLOSE(10)",
    b"END",
];

/// What stands in place of the line of that number, and the line and the reason for which the deck is then refused, as the sink
/// is told.
type Wrong = (usize, &'static [u8], u32, Reason, &'static [u8]);

static WRONG: [Wrong; 17] = [
    (
        1,
        b"INTEGER 1K",
        1,
        Reason::Syntax,
        b"= refused at 1: syntax\n",
    ),
    (1, b"REAL K", 1, Reason::Syntax, b"= refused at 1: syntax\n"),
    (
        1,
        b"INTEGER K, K",
        1,
        Reason::Meaning,
        b"= refused at 1: meaning\n",
    ),
    (
        1,
        b"INTEGER J",
        2,
        Reason::Meaning,
        b"= refused at 2: meaning\n",
    ),
    (
        1,
        b"LOGICAL K",
        2,
        Reason::Meaning,
        b"= refused at 2: meaning\n",
    ),
    (
        2,
        b"K = 42 43",
        2,
        Reason::Syntax,
        b"= refused at 2: syntax\n",
    ),
    (
        2,
        b"K = 2147483648",
        2,
        Reason::Meaning,
        b"= refused at 2: meaning\n",
    ),
    (
        2,
        b"K = 'x'",
        2,
        Reason::Meaning,
        b"= refused at 2: meaning\n",
    ),
    (
        3,
        b"OPEN(10,FILE='G/H')",
        3,
        Reason::Syntax,
        b"= refused at 3: syntax\n",
    ),
    (
        3,
        b"OPEN(10,IOSTAT=J)",
        3,
        Reason::Meaning,
        b"= refused at 3: meaning\n",
    ),
    (
        4,
        b"WRITE(10,'(I5)' K",
        4,
        Reason::Syntax,
        b"= refused at 4: syntax\n",
    ),
    (
        4,
        b"WRITE(10,'(I5') K",
        4,
        Reason::Format { at: 3 },
        b"= refused at 4: format at 3\n",
    ),
    (
        4,
        b"WRITE(10,'(I5)') J",
        4,
        Reason::Meaning,
        b"= refused at 4: meaning\n",
    ),
    (
        5,
        b"CLOSE(10",
        5,
        Reason::Syntax,
        b"= refused at 5: syntax\n",
    ),
    (6, b"END K", 6, Reason::Syntax, b"= refused at 6: syntax\n"),
    (
        6,
        b"CLOSE(10)",
        7,
        Reason::NoEnd,
        b"= refused at 7: no end\n",
    ),
    (6, b"", 7, Reason::NoEnd, b"= refused at 7: no end\n"),
];

/// That deck with another line in place of the one of that number.
fn with_line(alloc: Global, number: usize, line: &[u8]) -> Result<Text, AllocError> {
    let mut text = Text::new(alloc);
    for (index, own) in LINES.iter().enumerate() {
        text.push_all(if index + 1 == number { line } else { own })?;
        text.push_all(b"\n")?;
    }
    Ok(text)
}

/// Whether a text is answered so and tells this; the file G stays.
fn is_answered(
    alloc: Global,
    text: &Text,
    status: Status,
    output: &[u8],
) -> Result<bool, AllocError> {
    let mut deck = MemorySource::new(alloc, text.bytes())?;
    let mut out = MemorySink::new(alloc);
    let mut disk = disk_of(alloc)?;
    let answer = alone(alloc, &mut deck, &mut out, &mut disk)?;
    Ok(
        answer == status
            && out.taken() == output
            && disk.bytes_of("G") == Some(b" 12\nx\n".as_slice()),
    )
}

/// Whether a row holds.
fn is_refused(alloc: Global, row: &Wrong) -> Result<bool, AllocError> {
    let (number, wrong, line, reason, output) = row;
    let text = with_line(alloc, *number, wrong)?;
    let refused = Status::DeckRefused {
        line: *line,
        reason: *reason,
    };
    is_answered(alloc, &text, refused, output)
}

#[test]
fn refuses_each_line_that_is_wrong(rt: HostRuntime) -> Result<(), Fail> {
    for (number, row) in WRONG.iter().enumerate() {
        assert!(rt; is_refused(rt.alloc(), row)?, "row {number}");
    }
    Ok(())
}

/// Whether a deck with comments of two bytes behind its end, and a last part, makes this answer and this output.
fn is_told(alloc: Global, last: &[u8], status: Status, output: &[u8]) -> Result<bool, AllocError> {
    let mut text = Text::from_bytes(alloc, b"END\n")?;
    for _ in 0..2_097_150_u32 {
        text.push_all(b"!\n")?;
    }
    text.push_all(last)?;
    is_answered(alloc, &text, status, output)
}

/// A text has 4,194,304 bytes at most.
#[test]
fn refuses_a_text_one_byte_too_long(rt: HostRuntime) -> Result<(), AllocError> {
    let alloc = rt.alloc();
    let refused = Status::DeckRefused {
        line: 1,
        reason: Reason::TextTooLong,
    };
    assert!(rt; is_told(alloc, b"", Status::Ended, b"= ended\n")?);
    assert!(rt; is_told(alloc, b"!", refused, b"= refused at 1: text too long\n")?);
    Ok(())
}

/// Decks that write on `*` before and behind what they do with the file G.
const READS: &[u8] =
    b"INTEGER A\nWRITE(*,'(I2)') 7\nOPEN(10,FILE='G')\nREAD(10,'(I3)') A\nWRITE(*,'(I3)') A\nEND\n";

const WRITES: &[u8] =
    b"INTEGER A\nA = 5\nWRITE(*,'(I2)') A\nOPEN(10,FILE='G',STATUS='REPLACE')\nWRITE(10,'(I2)') A\nWRITE(*,'(I3)') A\nCLOSE(10)\nEND\n";

/// A deck, its answer where the call of that number of the source (0), the sink (1), the disk (2) or the file (3) fails, and
/// what the sink took. Each object comes to a run that meets no failure.
type Fault = (&'static [u8], u8, u64, Status, &'static [u8]);

static FAULTS: [Fault; 19] = [
    (READS, 0, 1, Status::ReadFault, b""),
    (READS, 0, 2, Status::ReadFault, b""),
    (READS, 0, 3, Status::Ended, b" 7\n 12\n= ended\nA = 12\n"),
    (READS, 1, 1, Status::WriteFault, b""),
    (READS, 1, 2, Status::WriteFault, b" 7\n"),
    (READS, 1, 3, Status::WriteFault, b" 7\n 12\n"),
    (READS, 1, 4, Status::Ended, b" 7\n 12\n= ended\nA = 12\n"),
    (
        READS,
        2,
        1,
        Status::DiskFault { stmt: 3 },
        b" 7\n= disk fault at 3\n",
    ),
    (READS, 2, 2, Status::Ended, b" 7\n 12\n= ended\nA = 12\n"),
    (
        READS,
        3,
        1,
        Status::DiskFault { stmt: 4 },
        b" 7\n= disk fault at 4\n",
    ),
    (READS, 3, 2, Status::Ended, b" 7\n 12\n= ended\nA = 12\n"),
    (WRITES, 1, 1, Status::WriteFault, b""),
    (WRITES, 1, 2, Status::WriteFault, b" 5\n"),
    (WRITES, 1, 3, Status::WriteFault, b" 5\n  5\n"),
    (WRITES, 1, 4, Status::Ended, b" 5\n  5\n= ended\nA = 5\n"),
    (
        WRITES,
        2,
        1,
        Status::DiskFault { stmt: 4 },
        b" 5\n= disk fault at 4\n",
    ),
    (WRITES, 2, 2, Status::Ended, b" 5\n  5\n= ended\nA = 5\n"),
    (
        WRITES,
        3,
        1,
        Status::DiskFault { stmt: 5 },
        b" 5\n= disk fault at 5\n",
    ),
    (WRITES, 3, 2, Status::Ended, b" 5\n  5\n= ended\nA = 5\n"),
];

/// A disk with the file G, of which this call fails, and this one on the file.
fn failing_disk(alloc: Global, own: u64, file: u64) -> Result<FailingDisk, AllocError>
    ensures { IfOk result (λ disk. (disk_held disk).in_use ≡ set.empty) }
{
    let mut disk = FailingDisk::new(alloc, disk_of(alloc)?, &[own])?;
    disk.fail_file("G", &[file])?;
    Ok(disk)
}

/// The number of the call where the object is that one, else none.
fn call_of(object: u8, one: u8, k: u64) -> u64 {
    if object == one { k } else { 0 }
}

/// Whether a row holds.
fn is_met(alloc: Global, row: &Fault) -> Result<bool, AllocError> {
    let (text, object, k, status, output) = row;
    let source = MemorySource::new(alloc, text)?;
    let mut deck = FailingSource::new(alloc, source, &[call_of(*object, 0, *k)])?;
    let sink = MemorySink::new(alloc);
    let mut out = FailingSink::new(alloc, sink, &[call_of(*object, 1, *k)])?;
    let mut disk = failing_disk(alloc, call_of(*object, 2, *k), call_of(*object, 3, *k))?;
    let answer = alone(alloc, &mut deck, &mut out, &mut disk)?;
    Ok(answer == *status && out.taken() == *output)
}

#[test]
fn answers_faults(rt: HostRuntime) -> Result<(), Fail> {
    for (number, row) in FAULTS.iter().enumerate() {
        assert!(rt; is_met(rt.alloc(), row)?, "row {number}");
    }
    Ok(())
}

/// A deck with a transfer pending on each of two units.
static TWO_UNITS: &[u8] =
    b"INTEGER A\nA = 7\nOPEN(10,FILE='H',STATUS='REPLACE',ASYNCHRONOUS='YES')\nOPEN(11,FILE='J',STATUS='REPLACE',ASYNCHRONOUS='YES')\nWRITE(10,'(I1)',ASYNCHRONOUS='YES') A\nWRITE(11,'(I1)',ASYNCHRONOUS='YES') A\nWAIT(10)\nWAIT(11)\nEND\n";

/// What both files are to hold.
static SEVEN: &[u8] = b"7\n";

/// What carrying that deck out with these words comes to and leaves, where the writes to one file wait for the first to the other.
fn gated<Rt: Threads + Wait + Sync>(
    rt: &Rt,
    alloc: Global,
    words: &str,
    held: &str,
    until: &str,
    turns: u64,
    out: &mut MemorySink,
) -> Result<(Status, GateDisk), AllocError> {
    let mut disk = GateDisk::new(alloc, held, until, turns)?;
    let answer = run_by(rt, alloc, words, TWO_UNITS, out, &mut disk)?;
    Ok((answer, disk))
}

#[test]
fn transfers_of_two_units_overlap(rt: HostRuntime) -> Result<(), Fail> {
    let alloc = rt.alloc();
    for (held, until) in [("H", "J"), ("J", "H")] {
        let mut out = MemorySink::new(alloc);
        let (answer, disk) = gated(
            &rt,
            alloc,
            "run --workers 2",
            held,
            until,
            1_000_000_000,
            &mut out,
        )?;
        assert!(rt; answer == Status::Ended);
        assert!(rt; out.taken() == b"= ended\nA = 7\n".as_slice());
        assert_eq!(rt; disk.bytes_of("H"), Some(SEVEN));
        assert_eq!(rt; disk.bytes_of("J"), Some(SEVEN));
    }
    // One thread performs the first where the deck waits for it, before the other was begun.
    let mut out = MemorySink::new(alloc);
    let (answer, disk) = gated(&rt, alloc, "alone", "H", "J", 3, &mut out)?;
    assert!(rt; answer == Status::DiskFault { stmt: 7 });
    assert!(rt; out.taken() == b"= disk fault at 7\n".as_slice());
    // The other file is as closing both units before that statement leaves it.
    assert_eq!(rt; disk.bytes_of("J"), Some(SEVEN));
    Ok(())
}

/// A deck that reads a thousand numbers and leaves a transfer of them pending on each of four units.
static FOUR_UNITS: &[u8] =
    b"INTEGER V(1000)\nOPEN(10,FILE='V',ASYNCHRONOUS='YES')\nREAD(10,*,ASYNCHRONOUS='YES') V\nWAIT(10)\nOPEN(11,FILE='A',STATUS='REPLACE',ASYNCHRONOUS='YES')\nOPEN(12,FILE='B',STATUS='REPLACE',ASYNCHRONOUS='YES')\nOPEN(13,FILE='C',STATUS='REPLACE',ASYNCHRONOUS='YES',FORM='UNFORMATTED')\nOPEN(14,FILE='D',STATUS='REPLACE',ASYNCHRONOUS='YES',ACCESS='STREAM')\nWRITE(11,'(10I8)',ASYNCHRONOUS='YES') V\nWRITE(12,*,ASYNCHRONOUS='YES') V\nWRITE(13,ASYNCHRONOUS='YES') V\nWRITE(14,ASYNCHRONOUS='YES') V\nCLOSE(11)\nCLOSE(12)\nCLOSE(13)\nCLOSE(14)\nEND\n";

/// What carrying that deck out with these words comes to and leaves.
#[tactic(auto, using(fj_outside::proofs::HoldingLaws::free_of_empty))]
fn four_units<Rt: Threads + Wait + Sync>(
    rt: &Rt,
    alloc: Global,
    words: &str,
    out: &mut MemorySink,
) -> Result<(Status, MemoryDisk), AllocError> {
    let mut disk = MemoryDisk::new(alloc);
    disk.add_file("V", b"400*-7 1 2 598*123456\n")?;
    let answer = run_by(rt, alloc, words, FOUR_UNITS, out, &mut disk)?;
    Ok((answer, disk))
}

#[test]
fn four_units_hold_what_one_thread_leaves(rt: HostRuntime) -> Result<(), Fail> {
    let alloc = rt.alloc();
    let mut out = MemorySink::new(alloc);
    let (answer, disk) = four_units(&rt, alloc, "run --workers 4", &mut out)?;
    let mut printed = MemorySink::new(alloc);
    let (alone, due) = four_units(&rt, alloc, "alone", &mut printed)?;
    assert!(rt; answer == Status::Ended);
    assert!(rt; alone == Status::Ended);
    assert!(rt; out.taken() == printed.taken());
    // A hundred records of ten fields; a record list-directed; a frame of four bytes a number; four bytes a number.
    for (name, length) in [("A", 8100), ("C", 4008), ("D", 4000)] {
        assert_eq!(rt; due.bytes_of(name).map(|bytes| bytes.len()), Some(length));
    }
    for name in ["A", "B", "C", "D"] {
        assert_eq!(rt; disk.bytes_of(name), due.bytes_of(name));
    }
    Ok(())
}
