// Carrying out a case by its words.
ghost use Rattle.std.specs.Prelude.{◌≡◌, IfOk};
ghost use Rattle.std.specs.FinSet as set;
ghost use Rattle.fj_cases.specs.ListedDisk.{disk_held};

use crate::case::{Case, NamedFile};
use crate::difference::{Outcome, difference};
use crate::listed_disk::ListedDisk;
use fj_job::{Status, run_job};
use fj_outside::{MemorySink, MemorySource};
use std::alloc::{AllocError, Global};
use std::sync::Wait;
use std::thread::Threads;

/// A disk with these files.
#[tactic(auto, using(fj_outside::proofs::HoldingLaws::free_of_empty))]
fn disk_with(alloc: Global, files: &[NamedFile]) -> Result<ListedDisk, AllocError>
    ensures { IfOk result (λ disk. (disk_held disk).in_use ≡ set.empty) }
{
    let mut disk = ListedDisk::new(alloc);
    for file in files {
        disk.add_file(alloc, file.name.as_str(), &file.bytes)?;
    }
    Ok(disk)
}

/// Carries out a deck by words.
fn run_by<Rt: Threads + Wait + Sync>(
    rt: &Rt,
    alloc: Global,
    words: &[String],
    deck: &mut MemorySource,
    out: &mut MemorySink,
    disk: &mut ListedDisk,
) -> Status
    requires { (disk_held disk.old).in_use ≡ set.empty }
{
    run_job(rt, alloc, words, deck, out, disk)
}

/// What carrying out the deck of a case by these words comes to.
fn outcome<Rt: Threads + Wait + Sync>(
    rt: &Rt,
    alloc: Global,
    case: &Case,
    words: &[String],
) -> Result<Outcome, AllocError> {
    let mut deck = MemorySource::new(alloc, &case.deck)?;
    let mut out = MemorySink::new(alloc);
    let mut disk = disk_with(alloc, &case.files)?;
    let status = run_by(rt, alloc, words, &mut deck, &mut out, &mut disk);
    Ok(Outcome { status, out, disk })
}

/// The words that ask for so many workers in place of `alone`, the others behind.
fn with_workers(alloc: Global, words: &[String], workers: &str) -> Result<Vec<String>, AllocError> {
    let mut made = Vec::new(alloc);
    for word in ["run", "--workers", workers] {
        made.push(String::from_str(alloc, word)?)?;
    }
    for word in words.iter().skip(1) {
        made.push(word.clone()?)?;
    }
    Ok(made)
}

/// The words, with a blank between two.
fn joined(alloc: Global, words: &[String]) -> Result<String, AllocError> {
    let mut line = String::new(alloc);
    for word in words {
        if !line.is_empty() {
            line.push_str(" ")?;
        }
        line.push_str(word.as_str())?;
    }
    Ok(line)
}

/// The first difference of a run by these words, behind the words; none where all is as expected.
fn difference_by<Rt: Threads + Wait + Sync>(
    rt: &Rt,
    alloc: Global,
    case: &Case,
    words: &[String],
) -> Result<Option<String>, AllocError> {
    let outcome = outcome(rt, alloc, case, words)?;
    match difference(alloc, &outcome, &case.expected)? {
        Some(what) => {
            let by = joined(alloc, words)?;
            Ok(Some(format!(in alloc; "by `{}`: {}", by.as_str(), what.as_str())?))
        }
        None => Ok(None),
    }
}

/// Whether the words begin with `alone`.
fn begins_alone(words: &[String]) -> bool {
    match words.first() {
        Some(word) => word.as_str() == "alone",
        None => false,
    }
}

/// `as expected`, or the first difference of the first run that has one.
pub fn verdict<Rt: Threads + Wait + Sync>(
    rt: &Rt,
    alloc: Global,
    case: &Case,
) -> Result<String, AllocError> {
    if let Some(line) = difference_by(rt, alloc, case, &case.words)? {
        return Ok(line);
    }
    if begins_alone(&case.words) {
        for workers in ["0", "4"] {
            let words = with_workers(alloc, &case.words, workers)?;
            if let Some(line) = difference_by(rt, alloc, case, &words)? {
                return Ok(line);
            }
        }
    }
    String::from_str(alloc, "as expected")
}
