// OPEN makes a connection of what a file holds, and CLOSE gives back what it is to hold.
ghost use Rattle.std.specs.Prelude.{◌≡◌, Ok, Err, Some, None, [], if◌then◌else◌, IfOk, IfErr, true, option_map};
ghost use Rattle.std.specs.FinMap as map;
ghost use Rattle.std.specs.FinSet as set;
ghost use Rattle.fj_modes.specs.Modes.{settled};
ghost use Rattle.fj_connect.specs.Opening.{opened_file};
ghost use Rattle.fj_connect.specs.Linked.{connection_of};
ghost use Rattle.fj_connect.specs.Faults.{IfRefused};
ghost use Rattle.fj_unit.specs.Held.{bytes, task};
ghost use Rattle.fj_unit.specs.Statements.{bytes_out};

use fj_bay::Job;
use fj_connect::{Connection, OpenFault, open_file};
use fj_modes::{FileName, Modes, OpenSpec};
use fj_outside::{Disk, MemoryDisk, MemoryFile, Stop};
use std::alloc::{AllocError, Global};

/// A disk of one file, or of none.
#[tactic(auto, using(fj_outside::proofs::HoldingLaws::free_of_empty, crate::proofs::OneFile::none_there, crate::proofs::OneFile::holds_it))]
fn disk_of(
    alloc: Global,
    name: &FileName,
    found: &[u8],
    is_there: bool,
) -> Result<MemoryDisk, AllocError>
    ensures free { IfOk result (λ disk. disk.in_use ≡ set.empty) }
    ensures holds { IfOk result (λ disk. map.get disk.files name.now ≡ (if is_there then Some found.now else None)) }
{
    let mut disk = MemoryDisk::new(alloc);
    if !is_there {
        return Ok(disk);
    }
    disk.add_file(name.as_str(), found)?;
    Ok(disk)
}

/// The connection to a file of these bytes, or to one that is not there yet.
#[tactic(auto, using(fj_outside::proofs::HoldingLaws::free_of_empty, crate::proofs::OneFile::is_opened, crate::proofs::OneFile::is_refused))]
pub(crate) fn connection_to(
    alloc: Global,
    name: &FileName,
    spec: &OpenSpec,
    modes: Modes,
    found: &[u8],
    is_there: bool,
) -> Result<Connection<MemoryFile>, OpenFault>
    requires { settled spec.now ≡ Ok modes }
    ensures ok { IfOk result (λ c. opened_file (if is_there then Some found.now else None) name.now spec.now modes ≡ Ok (connection_of bytes c)) }
    ensures refused { IfErr result (λ fault. IfRefused fault (λ condition.
        opened_file (if is_there then Some found.now else None) name.now spec.now modes ≡ Err condition)) }
{
    let mut disk = disk_of(alloc, name, found, is_there)?;
    open_file(alloc, &mut disk, name, spec, modes)
}

/// A copy of the bytes of the file of a connection.
#[tactic(auto, using(fj_outside::proofs::HoldingLaws::free_of_empty, fj_outside::proofs::HoldingLaws::in_use_after, crate::proofs::OneFile::holds_it))]
pub(crate) fn bytes_of(alloc: Global, connection: Connection<MemoryFile>) -> Result<Vec<u8>, Stop>
    ensures { IfOk result (λ copy. copy.items ≡ connection.file) }
{
    let name = connection.name().try_clone()?;
    let mut disk = MemoryDisk::new(alloc);
    let _ = disk.create(alloc, name.as_str())?;
    match connection.close_file(&mut disk, true) {
        Ok(()) => {}
        Err(_) => return Err(Stop::Failed),
    }
    match disk.bytes_of(name.as_str()) {
        Some(held) => Ok(Vec::from_slice(alloc, held)?),
        None => Err(Stop::Failed),
    }
}

/// A copy of the bytes of the file of the connection that a job took out, if it took one out.
pub(crate) fn bytes_left(alloc: Global, job: Job<MemoryFile>) -> Result<Option<Vec<u8>>, Stop>
    ensures { IfOk result (λ left. option_map (λ copy. copy.items) left ≡ bytes_out (task job)) }
{
    let Job::Detach(place) = job else {
        return Ok(None);
    };
    match place.into_inner() {
        Some(connection) => Ok(Some(bytes_of(alloc, connection)?)),
        None => Ok(None),
    }
}
