// A file with a window beside the same file without one, with the calls that are made, and with each of these failing.
ghost use Rattle.std.specs.Prelude.{◌≡◌, ◌≤◌, ◌<◌, length, IsTrue, true, refl};
ghost use Rattle.fj_outside.specs.Faults.{Rose};

use fj_outside::{Buffered, Failed, FileStore, MemoryFile, Stop, WindowRoom};
use std::alloc::{AllocError, Global};
use std::test::*;

/// A file in memory that counts its reads, writes and cuts, of which one fails. A write that fails writes one byte.
#[derive(Drop)]
struct Counting {
    inner: MemoryFile,
    calls: u64,
    fails: u64,
    faults: u64,
}

impl Counting {
    /// Counts a call, and answers whether it is the one that fails.
    fn fails_now(&mut self) -> bool
        ensures same { self.new.inner ≡ self.old.inner }
        ensures later { self.old.faults ≤ self.new.faults }
        ensures failed { IsTrue result → Rose self.old.faults self.new.faults }
    {
        self.calls = self.calls.saturating_add(1);
        if self.calls == self.fails {
            self.faults = self.faults.saturating_add(1);
            return true;
        }
        false
    }
}

impl FileStore for Counting {
    ghost tells = { λ _. Unit {0} };

    ghost told = { λ _. true };

    ghost decided = { λ _. (λ _. tt, λ _. refl) };

    ghost bytes = { λ file. file.inner };

    ghost size = { λ file. length file.inner };

    ghost count = { λ file. file.faults };

    fn len(&self) -> u64 {
        self.inner.len()
    }

    fn read_at(&mut self, at: u64, buf: &mut [u8]) -> Result<usize, Failed> {
        if self.fails_now() {
            return Err(Failed);
        }
        self.inner.read_at(at, buf)
    }

    fn write_at(&mut self, at: u64, piece: &[u8]) -> Result<(), Stop> {
        if self.fails_now() {
            let part = piece.len().min(1);
            let _ = self.inner.write_at(at, &piece[..part]);
            return Err(Stop::Failed);
        }
        self.inner.write_at(at, piece)
    }

    fn cut(&mut self, len: u64) -> Result<(), Failed> {
        if self.fails_now() {
            return Err(Failed);
        }
        self.inner.cut(len)
    }

    fn faults(&self) -> u64 {
        self.faults
    }
}

/// What is done with a file.
#[derive(Clone, Copy)]
enum Act {
    /// So many bytes are read from a place on.
    Read(u64, usize),
    Write(u64, &'static [u8]),
    Cut(u64),
}

use Act::{Cut, Read, Write};

/// No byte is read by what is done, where it does not fail.
fn none_read(is_done: bool) -> Option<usize> {
    if is_done { Some(0) } else { None }
}

/// Does it, and answers how many bytes were read; nothing where it failed.
fn done<F: FileStore>(file: &mut F, act: Act, buf: &mut [u8]) -> Option<usize> {
    match act {
        Read(at, count) if count <= buf.len() => file.read_at(at, &mut buf[..count]).ok(),
        Write(at, piece) if at <= file.len() => none_read(file.write_at(at, piece).is_ok()),
        Cut(len) if len <= file.len() => none_read(file.cut(len).is_ok()),
        _ => None,
    }
}

/// Acts, each with the calls on the file up to it. The window is moved where a read finds too little in it.
static ACTS: [(Act, u64); 18] = [
    (Read(0, 100), 1),
    (Read(100, 100), 1),
    (Read(8000, 192), 1),
    (Read(8100, 100), 2),
    // A write in the middle of the window, and one behind it.
    (Write(8150, b"##"), 3),
    (Read(8100, 100), 4),
    (Write(19_990, b"end of it, and more"), 5),
    (Read(8120, 40), 6),
    // Over the end, and past it.
    (Read(19_000, 8000), 7),
    (Read(20_000, 100), 7),
    (Read(20_009, 5), 7),
    // A cut inside the window.
    (Cut(19_500), 8),
    (Read(19_400, 300), 9),
    // More than the window holds, which leaves the window as it is.
    (Read(0, 9000), 10),
    (Read(19_450, 50), 10),
    (Read(100, 8192), 11),
    (Read(8291, 1), 11),
    (Read(99, 1), 12),
];

/// 20,000 bytes, of which none stands twice in a row.
fn numbered(alloc: Global) -> Result<Vec<u8>, AllocError> {
    let mut bytes = Vec::new(alloc);
    for place in 0..20_000u32 {
        bytes.push((place % 251) as u8)?;
    }
    Ok(bytes)
}

fn buffered(alloc: Global, bytes: &[u8], fails: u64) -> Result<Buffered<Counting>, AllocError> {
    let inner = MemoryFile::from_bytes(alloc, bytes)?;
    let file = Counting {
        inner,
        calls: 0,
        fails,
        faults: 0,
    };
    Ok(Buffered::new(WindowRoom::new(alloc)?, file))
}

/// Takes only what may go to another thread.
fn sent<T: Send>(value: T) -> T {
    value
}

/// Whether both begin with the same bytes, so many.
fn same_front(one: &[u8], other: &[u8], count: usize) -> bool {
    match (one.get(..count), other.get(..count)) {
        (Some(one), Some(other)) => one == other,
        _ => false,
    }
}

/// Does it with both files, and answers whether they answered the same, but for what failed.
fn agree<F: FileStore>(
    file: &mut F,
    plain: &mut MemoryFile,
    act: Act,
    buf: &mut [u8],
    beside: &mut [u8],
) -> bool {
    match (done(file, act, buf), act) {
        (Some(count), _) => {
            done(plain, act, beside) == Some(count) && same_front(buf, beside, count)
        }
        (None, Write(at, piece)) => {
            let part = piece.len().min(1);
            done(plain, Write(at, &piece[..part]), beside).is_some()
        }
        (None, _) => true,
    }
}

/// Whether both files agree in all acts, and the calls that are made are those, if they are counted.
fn go(
    alloc: Global,
    file: &mut Buffered<Counting>,
    plain: &mut MemoryFile,
    are_counted: bool,
) -> Result<bool, AllocError> {
    let mut buf = vec![in alloc; 0; 9000]?;
    let mut beside = vec![in alloc; 0; 9000]?;
    let mut agreed = true;
    for (act, calls) in ACTS.iter() {
        agreed &= agree(file, plain, *act, &mut buf, &mut beside);
        agreed &= !are_counted || file.get_ref().calls == *calls;
    }
    Ok(agreed)
}

/// Whether both go through all acts with as many faults, and hold the same then.
fn go_both(alloc: Global, file: Buffered<Counting>, plain: MemoryFile, fails: u64) -> bool {
    let mut file = file;
    let mut plain = plain;
    let agreed = matches!(go(alloc, &mut file, &mut plain, fails == 0), Ok(true));
    let faults = file.faults();
    let file = file.into_inner();
    agreed && faults == fails.min(1) && file.inner.bytes() == plain.bytes()
}

/// Whether a file with a window goes through all acts as one without; the k-th call on it fails.
fn goes_through(alloc: Global, fails: u64) -> Result<bool, AllocError> {
    let bytes = numbered(alloc)?;
    let plain = MemoryFile::from_bytes(alloc, &bytes)?;
    match buffered(alloc, &bytes, fails) {
        Ok(file) => Ok(go_both(alloc, sent(file), plain, fails)),
        Err(error) => Err(error),
    }
}

// The k-th call fails, for each k; 0 for none.
#[test]
fn a_window_answers_as_the_file(rt: HostRuntime) {
    for fails in 0..13 {
        assert_eq!(rt; goes_through(rt.alloc(), fails), Ok(true), "{fails}");
    }
}

/// Fills at a place, and answers how many bytes are at hand there then.
fn filled(file: &mut Buffered<Counting>, at: u64) -> usize {
    let _ = file.fill(at);
    file.at_hand(at).len()
}

/// A place, how many bytes are at hand there once the window was filled, and the calls on the file up to it; the third call fails.
static FILLS: [(u64, usize, u64); 6] = [
    (0, 8192, 1),
    (8191, 1, 1),
    (8192, 8192, 2),
    (8000, 0, 3),
    (19_999, 1, 4),
    (20_000, 0, 4),
];

/// The number of the first of these that comes to something else.
fn other_fill(file: &mut Buffered<Counting>) -> Option<usize> {
    for (number, (at, held, calls)) in FILLS.iter().enumerate() {
        if filled(file, *at) != *held || file.get_ref().calls != *calls {
            return Some(number);
        }
    }
    None
}

/// Whether the last byte is at hand.
fn lends_the_last(file: &Buffered<Counting>) -> bool {
    file.at_hand(19_999).first() == Some(&170)
}

/// Whether nothing is at hand in the beginning, the first fill that comes to something else, whether the last byte is at hand, and
/// the number of faults.
fn lent(alloc: Global) -> Result<(bool, Option<usize>, bool, u64), AllocError> {
    let bytes = numbered(alloc)?;
    match buffered(alloc, &bytes, 3) {
        Ok(mut file) => {
            let is_empty = file.at_hand(0).is_empty();
            let other = other_fill(&mut file);
            Ok((is_empty, other, lends_the_last(&file), file.faults()))
        }
        Err(error) => Err(error),
    }
}

#[test]
fn a_window_lends_what_it_holds(rt: HostRuntime) {
    assert_eq!(rt; lent(rt.alloc()), Ok((true, None, true, 1)));
}
