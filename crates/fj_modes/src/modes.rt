// The modes of a connection, and their change by a later OPEN.
ghost use Rattle.std.specs.Prelude.{◌≡◌, ◌↔◌, OnOk, OnErr, IfErr, Ok, Err};
ghost use Rattle.fj_modes.specs.Words.{differs};
ghost use Rattle.fj_modes.specs.Modes.{asks_for_new_connection};

use crate::edit::{edit_asked, names_edit_mode};
use crate::specifiers::{Access, Action, FileStatus, OpenSpec, Start};
use fj_value::{Condition, EditModes};

/// The modes of a connection (ISO/IEC 1539-1:2004, 9.4.1).
#[derive(Clone, Copy, Debug, PartialEq, Eq)]
pub struct Modes {
    pub access: Access,
    pub formatted: bool,
    /// The length of a direct record, or the limit of a sequential or stream record: in characters where the
    /// connection is formatted, else in bytes.
    pub recl: u32,
    pub action: Action,
    pub asynchronous: bool,
    pub scratch: bool,
    /// Where the connection stood at first (POSITION=).
    pub start: Start,
    pub edit: EditModes,
}

/// Whether a specifier stands with another value than this one.
fn differs<T: PartialEq + Copy>(given: Option<T>, value: T) -> bool
    ensures { result ≡ differs (T.eq value) given }
{
    match given {
        Some(other) => value != other,
        None => false,
    }
}

/// Whether STATUS= or POSITION= asks for a connection that does not stand yet.
fn asks_for_new_connection(spec: &OpenSpec) -> bool
    ensures { result ≡ asks_for_new_connection spec.now }
{
    differs(spec.status, FileStatus::Old) || differs(spec.position, Start::AsIs)
}

impl Modes {
    ghost use Rattle.fj_modes.specs.Modes.{changes_fixed_mode, is_conflict, IsConflict, IsConsistent, changed};

    fn changes_fixed_mode(&self, spec: &OpenSpec) -> bool
        ensures { result ≡ changes_fixed_mode self.now spec.now }
    {
        differs(spec.access, self.access)
            || differs(spec.formatted, self.formatted)
            || differs(spec.recl, self.recl)
            || differs(spec.action, self.action)
            || differs(spec.asynchronous, self.asynchronous)
    }

    fn is_conflict(&self, spec: &OpenSpec) -> bool
        ensures { result ≡ is_conflict self.now spec.now }
    {
        self.changes_fixed_mode(spec)
            || asks_for_new_connection(spec)
            || (!self.formatted && names_edit_mode(spec))
    }

    /// The change by an OPEN of the unit whose file stays connected (ISO/IEC 1539-1:2004, 9.4.5). FILE= is not looked at. What may
    /// not change, or does not belong to the connection, is `FIXED_MODE` (8), and nothing changes.
    pub fn change(&mut self, spec: &OpenSpec) -> Result<(), Condition>
        ensures ok { OnOk result (changed self.old spec.now ≡ Ok self.new) }
        ensures err { IfErr result (λ condition. changed self.old spec.now ≡ Err condition) }
        ensures refused { (result ≡ Err (Condition.Error 8)) ↔ IsConflict self.old spec.now }
        ensures consistent { IsConsistent self.old → IsConsistent self.new }
        ensures unchanged { OnErr result (self.new ≡ self.old) }
    {
        if self.is_conflict(spec) {
            return Err(Condition::FIXED_MODE);
        }
        self.edit = edit_asked(self.edit, spec);
        Ok(())
    }
}
