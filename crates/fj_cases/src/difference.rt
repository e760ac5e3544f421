// The first difference between what a run came to and what is expected.
use crate::case::{Expected, NamedFile};
use crate::escapes::escaped;
use crate::listed_disk::ListedDisk;
use fj_exit::exit_status;
use fj_job::Status;
use fj_outside::MemorySink;
use std::alloc::{AllocError, Global};

/// What a run answered, printed and left.
#[derive(Drop)]
pub struct Outcome {
    pub status: Status,
    pub out: MemorySink,
    pub disk: ListedDisk,
}

/// How many bytes are shown of what differs.
const SHOWN: usize = 40;

/// Where two texts begin to differ.
fn first_difference(one: &[u8], other: &[u8]) -> usize {
    for (at, (a, b)) in one.iter().zip(other.iter()).enumerate() {
        if a != b {
            return at;
        }
    }
    one.len().min(other.len())
}

/// How two texts of something differ.
fn contrast(
    alloc: Global,
    what: &str,
    due: &[u8],
    found: &[u8],
) -> Result<Option<String>, AllocError> {
    if due == found {
        return Ok(None);
    }
    let at = first_difference(due, found);
    let wanted = escaped(alloc, due, at, SHOWN)?;
    let got = escaped(alloc, found, at, SHOWN)?;
    Ok(Some(format!(in alloc;
        "{} differs at byte {}: '{}' is expected, '{}' is there",
        what,
        at,
        wanted.as_str(),
        got.as_str()
    )?))
}

/// How the exit status differs.
fn of_status(
    alloc: Global,
    status: Status,
    expected: &Expected,
) -> Result<Option<String>, AllocError> {
    let number = format!(in alloc; "{}", exit_status(status))?;
    let due = expected.status.as_str().trim();
    if number.as_str() == due {
        return Ok(None);
    }
    Ok(Some(format!(in alloc;
        "the exit status {} is expected, and it is {}",
        due,
        number.as_str()
    )?))
}

/// How a file that is to be left differs.
fn of_file(
    alloc: Global,
    disk: &ListedDisk,
    file: &NamedFile,
) -> Result<Option<String>, AllocError> {
    let name = file.name.as_str();
    let what = format!(in alloc; "the file {}", name)?;
    match disk.bytes_of(name) {
        Some(bytes) => contrast(alloc, what.as_str(), &file.bytes, bytes),
        None => Ok(Some(format!(in alloc; "{} is expected, and there is none", what.as_str())?)),
    }
}

/// Whether a file of that name is to be left.
fn is_due(files: &[NamedFile], name: &str) -> bool {
    for file in files {
        if file.name.as_str() == name {
            return true;
        }
    }
    false
}

/// How the files differ.
fn of_files(
    alloc: Global,
    disk: &ListedDisk,
    files: &[NamedFile],
) -> Result<Option<String>, AllocError> {
    for file in files {
        if let Some(line) = of_file(alloc, disk, file)? {
            return Ok(Some(line));
        }
    }
    for name in disk.names() {
        if disk.bytes_of(name.as_str()).is_some() && !is_due(files, name.as_str()) {
            return Ok(Some(format!(in alloc;
                "the file {} is left, and none is expected",
                name.as_str()
            )?));
        }
    }
    Ok(None)
}

/// The first difference of what was printed, the exit status and the files; none where all is as expected.
pub fn difference(
    alloc: Global,
    outcome: &Outcome,
    expected: &Expected,
) -> Result<Option<String>, AllocError> {
    if let Some(line) = contrast(alloc, "the output", &expected.output, outcome.out.taken())? {
        return Ok(Some(line));
    }
    if let Some(line) = of_status(alloc, outcome.status, expected)? {
        return Ok(Some(line));
    }
    of_files(alloc, &outcome.disk, &expected.files)
}
