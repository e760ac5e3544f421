// Regular files of the current folder, opened.
//
// What a name stands for is looked at before it is opened: opening a pipe waits for its other end, and opening a device may
// move it. A link is followed.
ghost use Rattle.std.specs.Prelude.{◌≡◌, IfOk};
ghost use Rattle.fj_real.specs.RealFile.{file_size, file_count};

use crate::file::RealFile;
use crate::why::Why;
use std::fs::{self, File, Metadata, OpenOptions};
use std::io::{self, ErrorKind};
use std::rt::Files;

/// What a name stands for, or an open file, has to be a regular file.
fn demand_file(about: &Metadata) -> Result<(), Why> {
    if about.is_file() {
        return Ok(());
    }
    Err(Why::NotAFile)
}

/// Whether a file could not be opened because it is to be written.
fn may_not_be_written(kind: ErrorKind) -> bool {
    matches!(
        kind,
        ErrorKind::PermissionDenied | ErrorKind::ReadOnlyFilesystem | ErrorKind::ExecutableFileBusy
    )
}

/// The file of that name: open for reading and writing, or for reading where it may not be written.
pub(crate) fn open_file<R: Files<File = File>>(
    rt: &R,
    name: &str,
    limit: u64,
) -> Result<RealFile, Why>
    ensures { IfOk result (λ file. file_count file ≡ 0) }
{
    demand_file(&fs::metadata(rt, name)?)?;
    let file = match OpenOptions::new().read(true).write(true).open(rt, name) {
        Err(e) if may_not_be_written(e.kind()) => OpenOptions::new().read(true).open(rt, name)?,
        opened => opened?,
    };
    let about = file.metadata()?;
    demand_file(&about)?;
    Ok(RealFile::new(file, about.len(), limit))
}

/// A file of that name that was not there.
fn new_file<R: Files<File = File>>(rt: &R, name: &str) -> io::Result<File> {
    OpenOptions::new()
        .read(true)
        .write(true)
        .create_new(true)
        .open(rt, name)
}

/// An empty scratch file. What lies in its place is removed, and a link there is not followed.
fn create_scratch<R: Files<File = File>>(rt: &R, name: &str) -> Result<File, Why> {
    match new_file(rt, name) {
        Err(e) if e.kind() == ErrorKind::AlreadyExists => {
            fs::remove_file(rt, name)?;
            Ok(new_file(rt, name)?)
        }
        made => Ok(made?),
    }
}

/// An empty file, in place of a regular one that is there.
fn create_or_empty<R: Files<File = File>>(rt: &R, name: &str) -> Result<File, Why> {
    match fs::metadata(rt, name) {
        Err(e) if e.kind() == ErrorKind::NotFound => {}
        about => demand_file(&about?)?,
    }
    let file = OpenOptions::new()
        .read(true)
        .write(true)
        .create(true)
        .truncate(true)
        .open(rt, name)?;
    Ok(file)
}

/// An empty file of that name, in place of one that is there. A name that begins with `SCRATCH.` is a scratch file's: no
/// deck spells one.
pub(crate) fn create_file<R: Files<File = File>>(
    rt: &R,
    name: &str,
    limit: u64,
) -> Result<RealFile, Why>
    ensures { IfOk result (λ file. (file_size file ≡ 0) × (file_count file ≡ 0)) }
{
    let file = if name.starts_with("SCRATCH.") {
        create_scratch(rt, name)?
    } else {
        create_or_empty(rt, name)?
    };
    Ok(RealFile::new(file, 0, limit))
}
