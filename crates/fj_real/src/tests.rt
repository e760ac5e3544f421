// One run over a real file. The expected values are those of any file system.
use crate::{FileSource, Kept, PartDisk, RealDisk, RealSink, RealSource};
use fj_outside::{Disk, Failed, FileStore, Sink, Source, Stop};
use std::fs;
use std::os::unix::fs::symlink;
use std::test::Fail;

const NAME: &str = "fj_real-test-of-a-file.tmp";

const LINKED: &str = "fj_real-test-linked.tmp";

const SCRATCH: &str = "SCRATCH.fj_real-test";

/// Takes only what may go to another thread.
fn sent<T: Send>(value: T) -> T {
    value
}

/// Writes `help me` in two pieces.
fn write<F: FileStore>(file: &mut F) -> bool {
    file.len() == 0
        && file.write_at(0, b"hello").is_ok()
        && file.len() == 5
        && file.write_at(3, b"p me").is_ok()
        && file.len() == 7
}

/// Reads the end of `help me`, and cuts it to `help`.
fn read_and_cut<F: FileStore>(file: &mut F) -> bool {
    let mut buf = [b'.'; 8];
    file.len() == 7
        && file.read_at(2, &mut buf) == Ok(5)
        && buf == *b"lp me..."
        && file.cut(4).is_ok()
        && file.len() == 4
        && file.read_at(4, &mut buf) == Ok(0)
        && file.faults() == 0
}

/// Reads `help` from a source, to its end.
fn read_all<S: Source>(source: &mut S) -> bool {
    let mut buf = [b'.'; 8];
    source.read(&mut buf) == Ok(4)
        && buf == *b"help...."
        && source.read(&mut buf) == Ok(0)
        && source.faults() == 0
}

#[test]
fn keeps_what_is_written(rt: HostRuntime) -> Result<(), Fail> {
    let alloc = rt.alloc();
    let mut disk = sent(RealDisk::new(alloc, rt.clone()?));
    let mut file = sent(disk.create(alloc, NAME)?);
    let wrote = write(&mut file);
    disk.give(NAME, file);
    let mut file = disk.take(alloc, NAME)?.ok_or(Failed)?;
    let read = read_and_cut(&mut file);
    disk.give(NAME, file);
    assert!(rt; wrote && read);
    assert_eq!(rt; disk.exists(NAME)?, true);
    assert!(rt; read_all(&mut RealSource::new(fs::open(&rt, NAME)?)));
    assert_eq!(rt; RealSink::new(fs::create(&rt, NAME)?).write(b"ab")?, 2);
    assert_eq!(rt; fs::read_to_string(&rt, NAME)?.as_str(), "ab");
    disk.remove(NAME)?;
    assert_eq!(rt; disk.exists(NAME)?, false);
    assert_eq!(rt; disk.faults(), 0);
    Ok(())
}

#[test]
fn a_folder_is_no_file(rt: HostRuntime) -> Result<(), Fail> {
    let alloc = rt.alloc();
    let mut disk = RealDisk::new(alloc, rt.clone()?);
    assert!(rt; disk.take(alloc, "fj_real-test-absent.tmp")?.is_none());
    assert_eq!(rt; disk.faults(), 0);
    assert!(rt; disk.take(alloc, ".").is_err());
    assert!(rt; disk.create(alloc, ".").is_err());
    assert!(rt; disk.remove("fj_real-test-absent.tmp").is_err());
    assert_eq!(rt; disk.faults(), 3);
    assert_eq!(rt; disk.failures().len(), 2);
    Ok(())
}

// The program that runs may not be written; it begins as each program of this system does.
#[test]
fn a_file_that_may_only_be_read_is_read(rt: HostRuntime) -> Result<(), Fail> {
    let alloc = rt.alloc();
    let mut disk = RealDisk::new(alloc, rt.clone()?);
    let mut file = disk.take(alloc, "/proc/self/exe")?.ok_or(Failed)?;
    let mut front = [b'.'; 4];
    assert_eq!(rt; file.read_at(0, &mut front), Ok(4));
    assert_eq!(rt; front, *b"\x7fELF");
    assert_eq!(rt; file.faults(), 0);
    assert_eq!(rt; file.write_at(0, b"\x7f"), Err(Stop::Failed));
    assert_eq!(rt; file.faults(), 1);
    disk.give("/proc/self/exe", file);
    assert_eq!(rt; disk.faults(), 1);
    Ok(())
}

#[test]
fn a_scratch_file_follows_no_link(rt: HostRuntime) -> Result<(), Fail> {
    let alloc = rt.alloc();
    fs::write(&rt, LINKED, "kept")?;
    symlink(&rt, LINKED, SCRATCH)?;
    let mut disk = RealDisk::new(alloc, rt.clone()?);
    let mut file = disk.create(alloc, SCRATCH)?;
    file.write_at(0, b"scratch")?;
    disk.give(SCRATCH, file);
    disk.remove(SCRATCH)?;
    assert_eq!(rt; fs::read_to_string(&rt, LINKED)?.as_str(), "kept");
    disk.remove(LINKED)?;
    assert_eq!(rt; disk.faults(), 0);
    Ok(())
}

#[test]
fn a_source_keeps_what_it_gave(rt: HostRuntime) -> Result<(), Fail> {
    let mut source = Kept::new(rt.alloc(), RealSource::new(&b"help"[..]));
    assert!(rt; read_all(&mut source));
    assert!(rt; source.text() == Some(&b"help"[..]));
    Ok(())
}

// The file of a part is that whose name begins with the prefix.
#[test]
fn a_part_has_a_prefix(rt: HostRuntime) -> Result<(), Fail> {
    let alloc = rt.alloc();
    let mut part = sent(PartDisk::new(rt.clone()?, alloc, "fj_real-test-")?);
    let mut file = part.create(alloc, "part.tmp")?;
    file.write_at(0, b"help")?;
    part.give("part.tmp", file);
    assert_eq!(rt; part.exists("part.tmp")?, true);
    assert_eq!(rt; part.exists("")?, false);
    let name = String::from_str(alloc, "fj_real-test-part.tmp")?;
    let mut source = sent(FileSource::new(rt.clone()?, name));
    assert!(rt; read_all(&mut source));
    part.remove("part.tmp")?;
    assert_eq!(rt; part.exists("part.tmp")?, false);
    assert_eq!(rt; part.faults(), 0);
    let name = String::from_str(alloc, "fj_real-test-part.tmp")?;
    let mut absent = FileSource::new(rt.clone()?, name);
    assert_eq!(rt; absent.read(&mut [0; 4]), Err(Failed));
    assert_eq!(rt; absent.faults(), 1);
    Ok(())
}
