// Batches of two decks that were worked by hand.
ghost use Rattle.std.specs.Prelude.{◌≡◌, IfOk};
ghost use Rattle.std.specs.FinSet as set;
ghost use Rattle.fj_outside.specs.FailingDisk.{disk_held};
ghost use Rattle.fj_batch.specs.Members.{IsNew};

use fj_batch::{BatchStatus, Member, MemberList, Unheard, member_names, run_batch};
use fj_job::{Reason, Status};
use fj_outside::{Disk, FailingDisk, GateDisk, MemoryDisk, MemorySink, MemorySource};
use fj_value::Text;
use std::alloc::{AllocError, Global};
use std::sync::Wait;
use std::test::Fail;
use std::thread::Threads;

/// Words that stand apart by blanks.
fn words_of(alloc: Global, words: &str) -> Result<Vec<String>, AllocError> {
    let mut list = Vec::new(alloc);
    for word in words.split(' ') {
        list.push(String::from_str(alloc, word)?)?;
    }
    Ok(list)
}

/// A member over a text in memory.
fn member_of<D: Disk + Drop>(
    alloc: Global,
    name: &[u8],
    text: &[u8],
    disk: D,
) -> Result<Member<MemorySource, D>, AllocError>
    requires { D.tells disk → (D.held disk).in_use ≡ set.empty }
    ensures { IfOk result (IsNew D.tells D.held) }
{
    let name = Text::from_bytes(alloc, name)?;
    let deck = MemorySource::new(alloc, text)?;
    Ok(Member::new(alloc, name, deck, disk))
}

/// What a batch of the members A and B comes to and leaves.
fn run_two<Rt: Threads + Wait + Sync, D: Disk + Send + Drop>(
    rt: &Rt,
    alloc: Global,
    words: &str,
    texts: (&[u8], &[u8]),
    disks: (D, D),
    out: &mut MemorySink,
) -> Result<(BatchStatus, MemberList<MemorySource, D>), AllocError>
where
    D::File: Send,
    requires first { D.tells disks.0 → (D.held disks.0).in_use ≡ set.empty }
    requires second { D.tells disks.1 → (D.held disks.1).in_use ≡ set.empty }
{
    let words = words_of(alloc, words)?;
    let (first, second) = disks;
    let mut members = MemberList::new(alloc);
    members.push(member_of(alloc, b"A", texts.0, first)?)?;
    members.push(member_of(alloc, b"B", texts.1, second)?)?;
    let answer = run_batch(rt, alloc, &words, &mut members, out, &Unheard);
    Ok((answer, members))
}

/// The status of the member of that number.
fn status_of<D>(members: &MemberList<MemorySource, D>, at: usize) -> Option<Status> {
    members.get(at)?.status
}

/// Two decks that open the same name and write a digit into it.
static ONE: &[u8] = b"OPEN(10,FILE='X',STATUS='REPLACE')\nWRITE(10,'(I1)') 1\nEND\n";

static TWO: &[u8] = b"OPEN(10,FILE='X',STATUS='REPLACE')\nWRITE(10,'(I1)') 2\nEND\n";

#[test]
fn prints_each_behind_its_name(rt: HostRuntime) -> Result<(), Fail> {
    let alloc = rt.alloc();
    for words in [
        "batch A B",
        "batch --workers 4 A B",
        "batch --workers=0 A B",
    ] {
        let mut out = MemorySink::new(alloc);
        let disks = (MemoryDisk::new(alloc), MemoryDisk::new(alloc));
        let (answer, members) = run_two(
            &rt,
            alloc,
            words,
            (b"END\n", b"A = 1\nEND\n"),
            disks,
            &mut out,
        )?;
        let refused = Status::DeckRefused {
            line: 1,
            reason: Reason::Meaning,
        };
        assert!(rt; answer == BatchStatus::Ran { exit: 4 });
        assert!(rt;
            out.taken()
                == b"% A\n= ended\n% B\n= refused at 1: meaning\n= batch 2 decks, 1 ended\n".as_slice()
        );
        assert!(rt; status_of(&members, 0) == Some(Status::Ended));
        assert!(rt; status_of(&members, 1) == Some(refused));
    }
    Ok(())
}

#[test]
fn each_has_its_own_files(rt: HostRuntime) -> Result<(), Fail> {
    let alloc = rt.alloc();
    let mut out = MemorySink::new(alloc);
    let disks = (MemoryDisk::new(alloc), MemoryDisk::new(alloc));
    let (answer, members) = run_two(&rt, alloc, "batch A B", (ONE, TWO), disks, &mut out)?;
    assert!(rt; answer == BatchStatus::Ran { exit: 0 });
    let first = members.get(0).and_then(|member| member.disk.bytes_of("X"));
    let second = members.get(1).and_then(|member| member.disk.bytes_of("X"));
    assert!(rt; first == Some(b"1\n".as_slice()));
    assert!(rt; second == Some(b"2\n".as_slice()));
    Ok(())
}

/// A disk of which calls fail.
fn failing(alloc: Global, fails: &[u64]) -> Result<FailingDisk, AllocError>
    ensures { IfOk result (λ disk. (disk_held disk).in_use ≡ set.empty) }
{
    FailingDisk::new(alloc, MemoryDisk::new(alloc), fails)
}

#[test]
fn a_fault_of_one_is_its_own(rt: HostRuntime) -> Result<(), Fail> {
    let alloc = rt.alloc();
    let mut out = MemorySink::new(alloc);
    let disks = (
        failing(alloc, &[])?,
        failing(alloc, &[1, 2, 3, 4, 5, 6, 7, 8])?,
    );
    let (answer, members) = run_two(&rt, alloc, "batch A B", (ONE, TWO), disks, &mut out)?;
    assert!(rt; answer == BatchStatus::Ran { exit: 8 });
    assert!(rt;
        out.taken()
            == b"% A\n= ended\n% B\n= disk fault at 1\n= batch 2 decks, 1 ended\n".as_slice()
    );
    assert!(rt; status_of(&members, 1) == Some(Status::DiskFault { stmt: 1 }));
    let left = members.get(0).and_then(|member| member.disk.bytes_of("X"));
    assert!(rt; left == Some(b"1\n".as_slice()));
    Ok(())
}

static INTO_H: &[u8] = b"OPEN(10,FILE='H',STATUS='REPLACE')\nWRITE(10,'(I1)') 1\nEND\n";

static INTO_J: &[u8] = b"OPEN(10,FILE='J',STATUS='REPLACE')\nWRITE(10,'(I1)') 2\nEND\n";

/// How many looks there are at the gate.
const TURNS: u64 = 1_000_000_000;

/// The write of one goes on behind the write of the other: members that are run one behind the other do not both end in both.
#[test]
fn members_overlap(rt: HostRuntime) -> Result<(), Fail> {
    let alloc = rt.alloc();
    let mut out = MemorySink::new(alloc);
    let disks = GateDisk::pair(alloc, "H", "J", TURNS)?;
    let (answer, _members) = run_two(
        &rt,
        alloc,
        "batch --workers 0 A B",
        (INTO_H, INTO_J),
        disks,
        &mut out,
    )?;
    assert!(rt; answer == BatchStatus::Ran { exit: 0 });
    let (waiting, opening) = GateDisk::pair(alloc, "H", "J", TURNS)?;
    let mut out = MemorySink::new(alloc);
    let (answer, members) = run_two(
        &rt,
        alloc,
        "batch --workers 0 A B",
        (INTO_J, INTO_H),
        (opening, waiting),
        &mut out,
    )?;
    assert!(rt; answer == BatchStatus::Ran { exit: 0 });
    assert!(rt;
        out.taken() == b"% A\n= ended\n% B\n= ended\n= batch 2 decks, 2 ended\n".as_slice()
    );
    let first = members.get(0).and_then(|member| member.disk.bytes_of("J"));
    let second = members.get(1).and_then(|member| member.disk.bytes_of("H"));
    assert!(rt; first == Some(b"2\n".as_slice()));
    assert!(rt; second == Some(b"1\n".as_slice()));
    Ok(())
}

/// Words that are no form, or do not name A and B in order.
static WRONG: [&str; 10] = [
    "batch",
    "run A B",
    "batch B A",
    "batch A",
    "batch A B C",
    "batch A B B",
    "batch --workers 5 A B",
    "batch --workers A B",
    "batch A B --workers 1",
    "batch --workers=1 --workers=1 A B",
];

#[test]
fn refuses_words(rt: HostRuntime) -> Result<(), Fail> {
    let alloc = rt.alloc();
    for words in &WRONG {
        let mut out = MemorySink::new(alloc);
        let disks = (MemoryDisk::new(alloc), MemoryDisk::new(alloc));
        let (answer, members) = run_two(&rt, alloc, words, (ONE, TWO), disks, &mut out)?;
        assert!(rt; answer == BatchStatus::Usage, "{words}");
        assert!(rt;
            out.taken() == b"usage: fjob batch [--workers N] NAME..\n".as_slice(),
            "{words}"
        );
        assert!(rt;
            status_of(&members, 0).is_none() && status_of(&members, 1).is_none(),
            "{words}"
        );
    }
    Ok(())
}

/// Words, and how many names are among them where they are a form.
static FORMS: [(&str, Option<usize>); 9] = [
    ("batch a", Some(1)),
    ("batch A a 0", Some(3)),
    ("batch abcdefghijklmnop", Some(1)),
    ("batch abcdefghijklmnopq", None),
    ("batch a_b", None),
    ("batch --workers=4 a", Some(1)),
    ("batch --workers 00000000004 a", None),
    ("batch --workers= a", None),
    ("batch --workers 2", None),
];

#[test]
fn names_are_found(rt: HostRuntime) -> Result<(), Fail> {
    for (words, count) in &FORMS {
        let list = words_of(rt.alloc(), words)?;
        assert!(rt;
            member_names(&list).map(|names| names.len()) == *count,
            "{words}"
        );
    }
    Ok(())
}
