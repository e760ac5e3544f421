// The modes that OPEN gives a new connection (ISO/IEC 1539-1:2004, 9.4.5).
ghost use Rattle.std.specs.Prelude.{◌≡◌, ◌↔◌, Err, IfOk};
ghost use Rattle.fj_modes.specs.OpenSpec.{access_asked, formatted_asked, record_limit, length_is_out_of_range, is_refused, IsRefused};
ghost use Rattle.fj_modes.specs.Modes.{modes_asked, settled, IsConsistent};
ghost use Rattle.fj_modes.specs.Words.{given_and, is_scratch};

use crate::edit::{edit_asked, names_edit_mode, usual_edit};
use crate::limits::{LONGEST_FORMATTED, LONGEST_UNFORMATTED};
use crate::modes::Modes;
use crate::specifiers::{Access, Action, FileStatus, OpenSpec, Start};
use fj_value::Condition;

fn access_asked(spec: &OpenSpec) -> Access
    ensures { result ≡ access_asked spec.now }
{
    spec.access.unwrap_or(Access::Sequential)
}

fn formatted_asked(spec: &OpenSpec) -> bool
    ensures { result ≡ formatted_asked spec.now }
{
    let by_default = access_asked(spec) == Access::Sequential;
    spec.formatted.unwrap_or(by_default)
}

fn record_limit(formatted: bool) -> u32
    ensures { result ≡ record_limit formatted }
{
    if formatted {
        LONGEST_FORMATTED
    } else {
        LONGEST_UNFORMATTED
    }
}

fn length_is_out_of_range(spec: &OpenSpec) -> bool
    ensures { result ≡ length_is_out_of_range spec.now }
{
    match spec.recl {
        Some(length) => length == 0 || length > record_limit(formatted_asked(spec)),
        None => false,
    }
}

fn is_scratch(spec: &OpenSpec) -> bool
    ensures { result ≡ given_and is_scratch spec.now.status }
{
    spec.status == Some(FileStatus::Scratch)
}

fn is_refused(spec: &OpenSpec) -> bool
    ensures { result ≡ is_refused spec.now }
{
    match access_asked(spec) {
        Access::Direct if spec.recl.is_none() || spec.position.is_some() => return true,
        Access::Stream if spec.recl.is_some() => return true,
        _ => {}
    }
    if length_is_out_of_range(spec) {
        return true;
    }
    if !formatted_asked(spec) && names_edit_mode(spec) {
        return true;
    }
    spec.file.is_some() && is_scratch(spec)
}

fn modes_asked(spec: &OpenSpec) -> Modes
    ensures { result ≡ modes_asked spec.now }
{
    let formatted = formatted_asked(spec);
    Modes {
        access: access_asked(spec),
        formatted,
        recl: spec.recl.unwrap_or(record_limit(formatted)),
        action: spec.action.unwrap_or(Action::ReadWrite),
        asynchronous: spec.asynchronous.unwrap_or(false),
        scratch: is_scratch(spec),
        start: spec.position.unwrap_or(Start::AsIs),
        edit: edit_asked(usual_edit(), spec),
    }
}

/// The modes of a new connection (ISO/IEC 1539-1:2004, 9.4.5): each as the statement gives it, else by default. A statement whose
/// specifiers do not go together is `BAD_SPECIFIERS` (3).
pub fn settle_open(spec: &OpenSpec) -> Result<Modes, Condition>
    ensures settled { result ≡ settled spec.now }
    ensures refused { (result ≡ Err (Condition.Error 3)) ↔ IsRefused spec.now }
    ensures consistent { IfOk result IsConsistent }
{
    if is_refused(spec) {
        return Err(Condition::BAD_SPECIFIERS);
    }
    Ok(modes_asked(spec))
}
