// The file that OPEN asks for (ISO/IEC 1539-1:2004, 9.4.5.8).
ghost use Rattle.std.specs.Prelude.{◌≡◌, IfOk};
ghost use Rattle.fj_meaning.specs.Connecting.{file_due, keeps_name};

use fj_modes::{FileName, FileStatus, OpenSpec};
use fj_statement::unit_number;
use std::alloc::{AllocError, Global};

/// The name of a new connection's file: of a scratch file by the unit, that of FILE=, or by default by the unit.
pub(crate) fn file_due(alloc: Global, spec: &OpenSpec, number: u32) -> Result<FileName, AllocError>
    ensures { IfOk result (λ name. name ≡ file_due spec.now number) }
{
    if spec.status == Some(FileStatus::Scratch) {
        return FileName::scratch(alloc, unit_number(number));
    }
    match &spec.file {
        Some(name) => name.try_clone(),
        None => FileName::by_default(alloc, number),
    }
}

/// Whether the statement keeps the file of that name connected: it names none and asks for no scratch file, or it names this one.
pub(crate) fn keeps_name(connected: &FileName, spec: &OpenSpec) -> bool
    ensures { result ≡ keeps_name connected.now spec.now spec.now.file }
{
    match &spec.file {
        Some(name) => name.as_str() == connected.as_str(),
        None => spec.status != Some(FileStatus::Scratch),
    }
}
