// Decks that look, worked by hand.
ghost use Rattle.std.specs.Prelude.{◌≡◌};
ghost use Rattle.std.specs.FinSet as set;

use fj_outside::{
    Disk, FailingSink, FailingSource, GateDisk, MemoryDisk, MemorySink, MemorySource, Sink, Source,
};
use fj_poll::{Status, poll_job};
use fj_value::Rule;
use std::alloc::{AllocError, Global};
use std::sync::Wait;
use std::test::Fail;
use std::thread::Threads;

/// Words that stand apart by blanks.
fn words_of(alloc: Global, words: &str) -> Result<Vec<String>, AllocError> {
    let mut list = Vec::new(alloc);
    for word in words.split(' ') {
        list.push(String::from_str(alloc, word)?)?;
    }
    Ok(list)
}

/// Carries out a deck by words.
fn poll_by<Rt: Threads + Wait + Sync, R: Source, W: Sink + Send, D: Disk + Send>(
    rt: &Rt,
    alloc: Global,
    words: &str,
    deck: &mut R,
    out: &mut W,
    disk: &mut D,
) -> Result<Status, AllocError>
where
    D::File: Send,
    requires { D.tells disk.old → (D.held disk.old).in_use ≡ set.empty }
{
    let words = words_of(alloc, words)?;
    Ok(poll_job(rt, alloc, &words, deck, out, disk))
}

/// What a deck comes to over a disk with no file: its answer, its output and the disk.
#[tactic(auto, using(fj_outside::proofs::HoldingLaws::free_of_empty))]
fn polled<Rt: Threads + Wait + Sync>(
    rt: &Rt,
    alloc: Global,
    words: &str,
    text: &[u8],
    out: &mut MemorySink,
) -> Result<(Status, MemoryDisk), AllocError> {
    let mut deck = MemorySource::new(alloc, text)?;
    let mut disk = MemoryDisk::new(alloc);
    let answer = poll_by(rt, alloc, words, &mut deck, out, &mut disk)?;
    Ok((answer, disk))
}

/// The same where each write to the file P waits for the first one to the file Q, but looks no more than so many times.
#[tactic(auto, using(fj_outside::proofs::HoldingLaws::free_of_empty))]
fn gated<Rt: Threads + Wait + Sync>(
    rt: &Rt,
    alloc: Global,
    words: &str,
    text: &[u8],
    turns: u64,
    out: &mut MemorySink,
) -> Result<(Status, GateDisk), AllocError> {
    let mut deck = MemorySource::new(alloc, text)?;
    let mut disk = GateDisk::new(alloc, "P", "Q", turns)?;
    let answer = poll_by(rt, alloc, words, &mut deck, out, &mut disk)?;
    Ok((answer, disk))
}

/// Whether a deck is answered so by these words, over a disk with no file, and the file P then holds these bytes.
fn is_answered<Rt: Threads + Wait + Sync>(
    rt: &Rt,
    alloc: Global,
    words: &str,
    text: &[u8],
    status: Status,
    output: &[u8],
    file: Option<&[u8]>,
) -> Result<bool, AllocError> {
    let mut out = MemorySink::new(alloc);
    let (answer, disk) = polled(rt, alloc, words, text, &mut out)?;
    Ok(answer == status && out.taken() == output && disk.bytes_of("P") == file)
}

/// A deck with a transfer that nobody has begun where it looks, if there is no worker.
static NOT_BEGUN: &[u8] =
    b"LOGICAL L\nOPEN(10,FILE='P',STATUS='REPLACE',ASYNCHRONOUS='YES')\nWRITE(10,'(I1)') 1\nWRITE(10,'(I1)',ASYNCHRONOUS='YES') 2\nINQUIRE(10,PENDING=L)\nEND\n";

/// A deck whose transfers are done where it looks, since it has waited for the second one.
static DONE: &[u8] =
    b"INTEGER A\nLOGICAL L\nA = 3\nOPEN(10,FILE='P',STATUS='REPLACE',ASYNCHRONOUS='YES')\nWRITE(10,'(I1)',ASYNCHRONOUS='YES') A\nWRITE(10,'(I1)',ASYNCHRONOUS='YES') 4\nWAIT(10,ID=2)\nINQUIRE(10,ID=1,PENDING=L)\nA = 5\nEND\n";

#[test]
fn a_transfer_that_was_not_begun_is_pending(rt: HostRuntime) -> Result<(), Fail> {
    let alloc = rt.alloc();
    let output = b"? 5 10 T 2\n= ended\nL = T\n".as_slice();
    let file = Some(b"1\n2\n".as_slice());
    assert!(rt;
        is_answered(
            &rt,
            alloc,
            "poll --workers 0",
            NOT_BEGUN,
            Status::Ended,
            output,
            file
        )?
    );
    Ok(())
}

#[test]
fn a_transfer_that_is_done_is_told(rt: HostRuntime) -> Result<(), Fail> {
    let alloc = rt.alloc();
    let output = b"? 8 10 F 3\n= ended\nA = 5\nL = F\n".as_slice();
    let file = Some(b"3\n4\n".as_slice());
    for words in [
        "poll --workers 0",
        "poll --workers 1",
        "poll --workers=4",
        "poll",
    ] {
        assert!(rt;
            is_answered(&rt, alloc, words, DONE, Status::Ended, output, file)?,
            "{words}"
        );
    }
    Ok(())
}

/// With workers either answer is right; the line says which one it was.
#[test]
fn workers_may_have_done_it(rt: HostRuntime) -> Result<(), Fail> {
    let alloc = rt.alloc();
    let mut out = MemorySink::new(alloc);
    let (answer, disk) = polled(&rt, alloc, "poll --workers 2", NOT_BEGUN, &mut out)?;
    let pending = b"? 5 10 T 2\n= ended\nL = T\n".as_slice();
    let told = b"? 5 10 F 3\n= ended\nL = F\n".as_slice();
    assert!(rt; answer == Status::Ended);
    assert!(rt; out.taken() == pending || out.taken() == told);
    assert_eq!(rt; disk.bytes_of("P"), Some(b"1\n2\n".as_slice()));
    Ok(())
}

/// A deck that looks at a transfer to P, and waits for it, but never writes to Q.
static HELD: &[u8] =
    b"LOGICAL L\nOPEN(10,FILE='P',STATUS='REPLACE',ASYNCHRONOUS='YES')\nWRITE(10,'(I1)',ASYNCHRONOUS='YES') 1\nINQUIRE(10,PENDING=L)\nWAIT(10)\nEND\n";

/// The transfer is held until the look was seen, by whomever it is performed: so it is pending there, and fails behind it.
#[test]
fn a_transfer_that_is_held_is_pending(rt: HostRuntime) -> Result<(), Fail> {
    let alloc = rt.alloc();
    for words in ["poll --workers 0", "poll --workers 1", "poll --workers 4"] {
        let mut out = MemorySink::new(alloc);
        let (answer, disk) = gated(&rt, alloc, words, HELD, 1000, &mut out)?;
        assert!(rt; answer == Status::DiskFault { stmt: 5 }, "{words}");
        assert!(rt;
            out.taken() == b"? 4 10 T 1\n= disk fault at 5\n".as_slice(),
            "{words}"
        );
        assert_eq!(rt; disk.bytes_of("Q"), None);
    }
    Ok(())
}

/// A deck that opens the gate, and asks for the bytes of P: so the transfer to P is done where it looks, and nobody has told it.
static LET_GO: &[u8] =
    b"INTEGER N\nLOGICAL L\nOPEN(10,FILE='P',STATUS='REPLACE',ASYNCHRONOUS='YES')\nOPEN(11,FILE='Q',STATUS='REPLACE')\nWRITE(10,'(I1)',ASYNCHRONOUS='YES') 1\nWRITE(11,'(I1)') 2\nINQUIRE(10,SIZE=N)\nINQUIRE(10,PENDING=L)\nINQUIRE(10,PENDING=L)\nEND\n";

/// What P and Q then hold.
static ONE: &[u8] = b"1\n";

static TWO: &[u8] = b"2\n";

/// Whether that deck is answered so by these words.
fn is_let_go<Rt: Threads + Wait + Sync>(
    rt: &Rt,
    alloc: Global,
    words: &str,
) -> Result<bool, AllocError> {
    let output = b"? 8 10 F 3\n= ended\nN = 2\nL = F\n".as_slice();
    let mut out = MemorySink::new(alloc);
    let (answer, disk) = gated(rt, alloc, words, LET_GO, 1_000_000_000, &mut out)?;
    let left = disk.bytes_of("P") == Some(ONE) && disk.bytes_of("Q") == Some(TWO);
    Ok(answer == Status::Ended && out.taken() == output && left)
}

#[test]
fn a_transfer_that_was_let_go_is_told(rt: HostRuntime) -> Result<(), Fail> {
    for words in ["poll --workers 0", "poll --workers 1", "poll --workers 4"] {
        assert!(rt; is_let_go(&rt, rt.alloc(), words)?, "{words}");
    }
    Ok(())
}

/// A deck that looks at two transfers, of which the first is done and nobody has begun the second, and then at the first alone.
static FIRST_DONE: &[u8] =
    b"LOGICAL L\nINTEGER N\nOPEN(10,FILE='P',STATUS='REPLACE',ASYNCHRONOUS='YES')\nWRITE(10,'(I1)',ASYNCHRONOUS='YES') 1\nINQUIRE(10,SIZE=N)\nWRITE(10,'(I1)',ASYNCHRONOUS='YES') 2\nINQUIRE(10,PENDING=L)\nINQUIRE(10,ID=1,PENDING=L)\nEND\n";

#[test]
fn all_that_are_asked_about_have_to_be_done(rt: HostRuntime) -> Result<(), Fail> {
    let alloc = rt.alloc();
    let output = b"? 7 10 T 3\n? 8 10 F 3\n= ended\nL = F\nN = 2\n".as_slice();
    let file = Some(b"1\n2\n".as_slice());
    assert!(rt;
        is_answered(
            &rt,
            alloc,
            "poll --workers 0",
            FIRST_DONE,
            Status::Ended,
            output,
            file
        )?
    );
    Ok(())
}

/// A deck that asks about a unit by the place of a pending input: it may not, and does not look.
static PROHIBITED: &[u8] =
    b"INTEGER U\nLOGICAL L\nU = 10\nOPEN(10,FILE='P',STATUS='REPLACE',ASYNCHRONOUS='YES')\nOPEN(11,FILE='Q',STATUS='REPLACE',ASYNCHRONOUS='YES')\nWRITE(11,'(I2)') 10\nREWIND 11\nWRITE(10,'(I1)',ASYNCHRONOUS='YES') 1\nREAD(11,'(I2)',ASYNCHRONOUS='YES') U\nINQUIRE(U,PENDING=L)\nEND\n";

#[test]
fn a_prohibited_inquire_does_not_look(rt: HostRuntime) -> Result<(), Fail> {
    let alloc = rt.alloc();
    let status = Status::Prohibited {
        stmt: 10,
        rule: Rule::P1,
    };
    let output = b"= prohibited at 10 by P1\nU = ?\nL = ?\n".as_slice();
    let file = Some(ONE);
    assert!(rt;
        is_answered(
            &rt,
            alloc,
            "poll --workers 0",
            PROHIBITED,
            status,
            output,
            file
        )?
    );
    Ok(())
}

/// A deck that reads behind the end: the look tells it.
static BEHIND: &[u8] =
    b"INTEGER A\nINTEGER N\nINTEGER S\nLOGICAL L\nN = 7\nOPEN(10,FILE='P',STATUS='REPLACE',ASYNCHRONOUS='YES')\nREAD(10,'(I1)',ASYNCHRONOUS='YES') A\nINQUIRE(10,SIZE=S)\nINQUIRE(10,PENDING=L,SIZE=N,IOSTAT=S)\nEND\n";

#[test]
fn a_look_tells_a_condition(rt: HostRuntime) -> Result<(), Fail> {
    let alloc = rt.alloc();
    let output = b"? 9 10 F 3\n= ended\nA = ?\nN = 7\nS = -1\nL = F\n".as_slice();
    let file = Some(b"".as_slice());
    for words in ["poll --workers 0", "poll --workers 3"] {
        assert!(rt;
            is_answered(&rt, alloc, words, BEHIND, Status::Ended, output, file)?,
            "{words}"
        );
    }
    Ok(())
}

#[test]
fn other_words_are_no_form(rt: HostRuntime) -> Result<(), Fail> {
    let alloc = rt.alloc();
    let usage = b"usage: fjob poll [--workers N]\n".as_slice();
    for words in ["poll --trace", "poll --workers 65", "run", "poll poll"] {
        assert!(rt;
            is_answered(&rt, alloc, words, DONE, Status::Usage, usage, None)?,
            "{words}"
        );
    }
    Ok(())
}

#[test]
fn what_is_no_deck_is_refused(rt: HostRuntime) -> Result<(), Fail> {
    let alloc = rt.alloc();
    let mut out = MemorySink::new(alloc);
    let (answer, _disk) = polled(&rt, alloc, "poll", b"K = 1\nEND\n", &mut out)?;
    assert!(rt; matches!(answer, Status::DeckRefused { line: 1, .. }));
    assert!(rt; out.taken() == b"= refused at 1: meaning\n".as_slice());
    Ok(())
}

#[test]
#[tactic(auto, using(fj_outside::proofs::HoldingLaws::free_of_empty))]
fn nothing_is_printed_where_the_source_fails(rt: HostRuntime) -> Result<(), Fail> {
    let alloc = rt.alloc();
    let source = MemorySource::new(alloc, DONE)?;
    let mut deck = FailingSource::new(alloc, source, &[1])?;
    let mut out = MemorySink::new(alloc);
    let mut disk = MemoryDisk::new(alloc);
    let answer = poll_by(&rt, alloc, "poll", &mut deck, &mut out, &mut disk)?;
    assert!(rt; answer == Status::ReadFault);
    assert!(rt; out.taken() == b"".as_slice());
    Ok(())
}

#[test]
#[tactic(auto, using(fj_outside::proofs::HoldingLaws::free_of_empty))]
fn the_sink_may_fail(rt: HostRuntime) -> Result<(), Fail> {
    let alloc = rt.alloc();
    let mut deck = MemorySource::new(alloc, DONE)?;
    let sink = MemorySink::new(alloc);
    let mut out = FailingSink::new(alloc, sink, &[1])?;
    let mut disk = MemoryDisk::new(alloc);
    let answer = poll_by(&rt, alloc, "poll", &mut deck, &mut out, &mut disk)?;
    assert!(rt; answer == Status::WriteFault);
    Ok(())
}
