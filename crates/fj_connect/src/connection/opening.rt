// OPEN of a unit that is not connected: a file comes out of the disk (ISO/IEC 1539-1:2004, 9.4.5).
ghost use Rattle.std.specs.Prelude.{IfSome, ◌≡◌, ◌⊎◌, ◌<◌, ◌≤◌, true, [], ◌↔◌, IfOk, IfErr, OnOk, OnErr, Ok, Err, unwrap_or, length, alloc_error};
ghost use Rattle.std.specs.FinMap as map;
ghost use Rattle.fj_outside.specs.Faults.{Rose};
ghost use Rattle.fj_outside.specs.Refusals.{CountsFailure};
ghost use Rattle.fj_outside.specs.Holdings.{IsFree, IsInUse, out_of, given, without};
ghost use Rattle.fj_modes.specs.Modes.{settled};
ghost use Rattle.fj_modes.specs.Limits.{longest_file};
ghost use Rattle.fj_connect.specs.Opening.{opened, first_spot, first_place};
ghost use Rattle.fj_outside.specs.Buffered.{file_in};
ghost use Rattle.fj_connect.specs.Linked.{connection_of, HasLength};
ghost use Rattle.fj_connect.specs.Faults.{has_failed, IfRefused, IfStopped, IsErrorOf, HoldsAsBefore, LeavesAtHome, GivesFound, GivesOpened};

use crate::connection::Connection;
use crate::spot::{Spot, Within};
use fj_modes::{FileName, FileStatus, LONGEST_FILE, Modes, OpenSpec, Start};
use fj_outside::{Buffered, Disk, FileStore, Stop, WindowRoom};
use fj_value::{Condition, Text};
use std::alloc::{AllocError, Global};

/// Why OPEN did not connect.
#[derive(Clone, Copy, Debug, PartialEq, Eq)]
pub enum OpenFault {
    /// The statement is in error.
    Refused(Condition),
    /// The outside failed, or memory was refused.
    Stop(Stop),
}

impl From<Stop> for OpenFault {
    ghost use Rattle.fj_connect.specs.declared.connection.opening.OpenFault.TheVariants.{Stop};

    ghost from_gives = { λ stop e. e ≡ Stop stop };

    fn from(stop: Stop) -> Self {
        OpenFault::Stop(stop)
    }
}

impl From<AllocError> for OpenFault {
    ghost use Rattle.fj_outside.specs.declared.errors.Stop.TheVariants.{Memory};
    ghost use Rattle.fj_connect.specs.declared.connection.opening.OpenFault.TheVariants.{Stop};

    ghost from_gives = { λ error e. e ≡ Stop (Memory error) };

    fn from(error: AllocError) -> Self {
        OpenFault::Stop(Stop::Memory(error))
    }
}

/// The file of that name, if there is one; one that is too long goes back.
fn found<D: Disk>(
    alloc: Global,
    disk: &mut D,
    name: &FileName,
) -> Result<Option<D::File>, OpenFault>
    requires { D.tells disk.old → IsFree (D.held disk.old) name.now }
    ensures telling { D.tells disk.old ↔ D.tells disk.new }
    ensures content { D.tells disk.old → GivesFound D.File.tells D.File.bytes (D.held disk.old) name.now (D.held disk.new) result }
    ensures sound { IfOk result (λ found. IfSome found (λ file. (D.File.size file ≤ longest_file) × (D.File.count file ≡ 0))) }
    ensures errors { IfErr result (λ fault. IfRefused fault (λ condition. condition ≡ Condition.Error 27)) }
    ensures own { D.tells disk.old → CountsFailure (has_failed result) (D.refusals disk.old) (D.refusals disk.new) }
    ensures later { D.count disk.old ≤ D.count disk.new }
    ensures failed { result ≡ Err (OpenFault.Stop Stop.Failed) → Rose (D.count disk.old) (D.count disk.new) }
{
    match disk.take(alloc, name.as_str()) {
        Ok(Some(file)) => {
            if file.len() > LONGEST_FILE {
                disk.give(name.as_str(), file);
                return Err(OpenFault::Refused(Condition::OPENED_TOO_LONG));
            }
            Ok(Some(file))
        }
        Ok(None) => Ok(None),
        Err(stop) => Err(OpenFault::Stop(stop)),
    }
}

/// An empty file of that name, new or in place of one.
fn replaced<D: Disk>(alloc: Global, disk: &mut D, name: &FileName) -> Result<D::File, OpenFault>
    requires { D.tells disk.old → IsFree (D.held disk.old) name.now }
    ensures telling { D.tells disk.old ↔ D.tells disk.new }
    ensures content { D.tells disk.old → GivesOpened D.File.tells D.File.bytes FileStatus.Replace (D.held disk.old) name.now (D.held disk.new) result }
    ensures sound { IfOk result (λ file. (D.File.size file ≤ longest_file) × (D.File.count file ≡ 0)) }
    ensures errors { IfErr result (λ fault. IfRefused fault (IsErrorOf FileStatus.Replace)) }
    ensures own { D.tells disk.old → CountsFailure (has_failed result) (D.refusals disk.old) (D.refusals disk.new) }
    ensures later { D.count disk.old ≤ D.count disk.new }
    ensures failed { result ≡ Err (OpenFault.Stop Stop.Failed) → Rose (D.count disk.old) (D.count disk.new) }
{
    match disk.create(alloc, name.as_str()) {
        Ok(file) => Ok(file),
        Err(stop) => Err(OpenFault::Stop(stop)),
    }
}

/// An old file.
fn old<D: Disk>(alloc: Global, disk: &mut D, name: &FileName) -> Result<D::File, OpenFault>
    requires { D.tells disk.old → IsFree (D.held disk.old) name.now }
    ensures telling { D.tells disk.old ↔ D.tells disk.new }
    ensures content { D.tells disk.old → GivesOpened D.File.tells D.File.bytes FileStatus.Old (D.held disk.old) name.now (D.held disk.new) result }
    ensures sound { IfOk result (λ file. (D.File.size file ≤ longest_file) × (D.File.count file ≡ 0)) }
    ensures errors { IfErr result (λ fault. IfRefused fault (IsErrorOf FileStatus.Old)) }
    ensures own { D.tells disk.old → CountsFailure (has_failed result) (D.refusals disk.old) (D.refusals disk.new) }
    ensures later { D.count disk.old ≤ D.count disk.new }
    ensures failed { result ≡ Err (OpenFault.Stop Stop.Failed) → Rose (D.count disk.old) (D.count disk.new) }
{
    match found(alloc, disk, name)? {
        Some(file) => Ok(file),
        None => Err(OpenFault::Refused(Condition::NO_SUCH_FILE)),
    }
}

/// A new file.
fn new<D: Disk>(alloc: Global, disk: &mut D, name: &FileName) -> Result<D::File, OpenFault>
    requires { D.tells disk.old → IsFree (D.held disk.old) name.now }
    ensures telling { D.tells disk.old ↔ D.tells disk.new }
    ensures content { D.tells disk.old → GivesOpened D.File.tells D.File.bytes FileStatus.New (D.held disk.old) name.now (D.held disk.new) result }
    ensures sound { IfOk result (λ file. (D.File.size file ≤ longest_file) × (D.File.count file ≡ 0)) }
    ensures errors { IfErr result (λ fault. IfRefused fault (IsErrorOf FileStatus.New)) }
    ensures own { D.tells disk.old → CountsFailure (has_failed result) (D.refusals disk.old) (D.refusals disk.new) }
    ensures later { D.count disk.old ≤ D.count disk.new }
    ensures failed { result ≡ Err (OpenFault.Stop Stop.Failed) → Rose (D.count disk.old) (D.count disk.new) }
{
    if disk.exists(name.as_str()).map_err(Stop::from)? {
        return Err(OpenFault::Refused(Condition::FILE_EXISTS));
    }
    replaced(alloc, disk, name)
}

/// An old file, or a new one where there is none.
fn old_or_new<D: Disk>(alloc: Global, disk: &mut D, name: &FileName) -> Result<D::File, OpenFault>
    requires { D.tells disk.old → IsFree (D.held disk.old) name.now }
    ensures telling { D.tells disk.old ↔ D.tells disk.new }
    ensures content { D.tells disk.old → GivesOpened D.File.tells D.File.bytes FileStatus.Unknown (D.held disk.old) name.now (D.held disk.new) result }
    ensures sound { IfOk result (λ file. (D.File.size file ≤ longest_file) × (D.File.count file ≡ 0)) }
    ensures errors { IfErr result (λ fault. IfRefused fault (IsErrorOf FileStatus.Unknown)) }
    ensures own { D.tells disk.old → CountsFailure (has_failed result) (D.refusals disk.old) (D.refusals disk.new) }
    ensures later { D.count disk.old ≤ D.count disk.new }
    ensures failed { result ≡ Err (OpenFault.Stop Stop.Failed) → Rose (D.count disk.old) (D.count disk.new) }
{
    match found(alloc, disk, name)? {
        Some(file) => Ok(file),
        None => replaced(alloc, disk, name),
    }
}

/// The file that a statement of this status connects to.
fn file_opened<D: Disk>(
    alloc: Global,
    disk: &mut D,
    name: &FileName,
    status: FileStatus,
) -> Result<D::File, OpenFault>
    requires { D.tells disk.old → IsFree (D.held disk.old) name.now }
    ensures telling { D.tells disk.old ↔ D.tells disk.new }
    ensures content { D.tells disk.old → GivesOpened D.File.tells D.File.bytes status (D.held disk.old) name.now (D.held disk.new) result }
    ensures sound { IfOk result (λ file. (D.File.size file ≤ longest_file) × (D.File.count file ≡ 0)) }
    ensures errors { IfErr result (λ fault. IfRefused fault (IsErrorOf status)) }
    ensures own { D.tells disk.old → CountsFailure (has_failed result) (D.refusals disk.old) (D.refusals disk.new) }
    ensures later { D.count disk.old ≤ D.count disk.new }
    ensures failed { result ≡ Err (OpenFault.Stop Stop.Failed) → Rose (D.count disk.old) (D.count disk.new) }
{
    match status {
        FileStatus::Old => old(alloc, disk, name),
        FileStatus::New => new(alloc, disk, name),
        FileStatus::Unknown => old_or_new(alloc, disk, name),
        FileStatus::Scratch | FileStatus::Replace => replaced(alloc, disk, name),
    }
}

/// Where POSITION= puts a new connection to a file.
fn first_place<F: FileStore>(start: Start, file: &F) -> u64
    ensures size { result ≡ first_place start (F.size file.now) }
    ensures told { F.tells file.now → result ≡ first_place start (length (F.bytes file.now)) }
{
    match start {
        Start::AsIs | Start::Rewind => 0,
        Start::Append => file.len(),
    }
}

/// A new connection to a file.
fn connected<F: FileStore>(
    alloc: Global,
    modes: Modes,
    name: FileName,
    file: Buffered<F>,
) -> Connection<F>
    requires short { F.size (file_in file) ≤ longest_file }
    requires length { HasLength modes }
    ensures modes { result.modes ≡ modes }
    ensures name { result.name ≡ name }
    ensures file { result.file ≡ file_in file }
    ensures spot { result.spot ≡ first_spot (first_place modes.start (F.size (file_in file))) }
    ensures told { F.tells (file_in file) → result.spot ≡ first_spot (first_place modes.start (length (F.bytes (file_in file)))) }
{
    let at = first_place(modes.start, &file);
    let spot = Spot {
        at,
        start: at,
        within: Within::Outside,
        after_end: false,
        next_number: 1,
    };
    Connection {
        modes,
        name,
        file,
        spot,
        hand: Text::new(alloc),
        looked: None,
    }
}

/// Connects to the file of a name, which is free, as a statement and the modes that it settles ask for (ISO/IEC 1539-1:2004,
/// 9.4.5). `NO_SUCH_FILE` (5), `FILE_EXISTS` (6) or `OPENED_TOO_LONG` (27) leaves what the disk holds; a stop leaves the file of
/// that name at home, or absent where it was to be made.
pub fn open_file<D: Disk>(
    alloc: Global,
    disk: &mut D,
    name: &FileName,
    spec: &OpenSpec,
    modes: Modes,
) -> Result<Connection<D::File>, OpenFault>
    requires free { D.tells disk.old → IsFree (D.held disk.old) name.now }
    requires modes { settled spec.now ≡ Ok modes }
    ensures telling { D.tells disk.old ↔ D.tells disk.new }
    ensures opened { D.tells disk.old → IfOk result (λ c. D.File.tells c.file
        × (opened (D.held disk.old).files name.now spec.now modes ≡ Ok (connection_of D.File.bytes c, (D.held disk.new).files))
        × (D.held disk.new ≡ out_of (D.held disk.old) name.now)) }
    ensures used { D.tells disk.old → IfOk result (λ c. IsInUse (D.held disk.new) c.name) }
    ensures refused { D.tells disk.old → IfErr result (λ fault. IfRefused fault (λ condition.
        (opened (D.held disk.old).files name.now spec.now modes ≡ Err condition)
        × HoldsAsBefore (D.held disk.old) name.now (D.held disk.new))) }
    ensures stopped { D.tells disk.old → IfErr result (λ fault. IfStopped fault
        (LeavesAtHome (unwrap_or spec.now.status FileStatus.Unknown) (D.held disk.old) name.now (D.held disk.new))) }

    // Told or not.
    ensures connected { IfOk result (λ c. (c.modes ≡ modes) × (c.name ≡ name.now)
        × (c.spot ≡ first_spot (first_place modes.start (D.File.size c.file))) × (D.File.count c.file ≡ 0)) }
    ensures errors { IfErr result (λ fault. IfRefused fault (IsErrorOf (unwrap_or spec.now.status FileStatus.Unknown))) }
    ensures own { D.tells disk.old → CountsFailure (has_failed result) (D.refusals disk.old) (D.refusals disk.new) }
    ensures later { D.count disk.old ≤ D.count disk.new }
    ensures failed { result ≡ Err (OpenFault.Stop Stop.Failed) → Rose (D.count disk.old) (D.count disk.new) }
{
    let kept = name.try_clone()?;
    let room = WindowRoom::new(alloc)?;
    let status = spec.status.unwrap_or(FileStatus::Unknown);
    let file = file_opened(alloc, disk, name, status)?;
    let windowed = Buffered::new(room, file);
    Ok(connected(alloc, modes, kept, windowed))
}
