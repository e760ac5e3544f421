// A disk in memory that holds one file, or none, and one of which a call fails.
ghost use Rattle.std.specs.Prelude.{◌≡◌, IfOk};
ghost use Rattle.std.specs.FinSet as set;
ghost use Rattle.fj_outside.specs.FailingDisk.{disk_held};

use fj_outside::{FailingDisk, MemoryDisk, Stop};
use std::alloc::{AllocError, Global};

/// The name of the file of unit 10.
pub const NAME: &str = "fort.10";

/// A disk that holds that file with these bytes, or no file.
#[tactic(auto, using(fj_outside::proofs::HoldingLaws::free_of_empty))]
pub fn disk_of(alloc: Global, bytes: Option<&[u8]>) -> Result<MemoryDisk, AllocError>
    ensures { IfOk result (λ disk. disk.in_use ≡ set.empty) }
{
    let mut disk = MemoryDisk::new(alloc);
    if let Some(bytes) = bytes {
        disk.add_file(NAME, bytes)?;
    }
    Ok(disk)
}

/// A disk that holds the file of unit 10, if it is there; one call on the disk and one on the file fail, by their numbers.
pub fn failing(
    alloc: Global,
    there: Option<&[u8]>,
    disk_fails: u64,
    file_fails: u64,
) -> Result<FailingDisk, AllocError>
    ensures { IfOk result (λ disk. (disk_held disk).in_use ≡ set.empty) }
{
    let inner = disk_of(alloc, there)?;
    let mut disk = FailingDisk::new(alloc, inner, &[disk_fails])?;
    disk.fail_file(NAME, &[file_fails])?;
    Ok(disk)
}

/// Whether the file begins as it was, so many bytes.
pub fn begin_alike(bytes: Option<&[u8]>, old: &[u8], count: usize) -> bool {
    match (bytes, old.get(..count)) {
        (Some(bytes), Some(other)) => bytes.starts_with(other),
        _ => false,
    }
}

/// Whether the outside failed.
pub fn failed<T: Copy>(came: Result<T, Stop>) -> bool {
    match came {
        Err(Stop::Failed) => true,
        _ => false,
    }
}
