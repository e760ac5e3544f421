// INQUIRE by unit and by file (ISO/IEC 1539-1:2004, 9.9).
ghost use Rattle.std.specs.Prelude.{◌≡◌, ◌++◌, OnOk, Some, None};
ghost use Rattle.std.specs.Option.{option_copied, option_map};
ghost use Rattle.fj_inquire.specs.Inquiring.{inquired, about_unit, about_file};
ghost use Rattle.fj_inquire.specs.Asking.{seen};

use crate::about::About;
use crate::answers::answer;
use crate::connected::Connected;
use fj_connect::Look;
use fj_modes::{Asked, FileName};
use fj_moved::Cells;
use fj_value::Cell;
use std::alloc::{AllocError, Global};

/// Adds a cell for each question, in order.
fn inquire(alloc: Global, about: About, asked: &Asked, out: &mut Cells) -> Result<(), AllocError>
    ensures { OnOk result (out.new ≡ out.old ++ inquired (seen about.entry) asked.now) }
{
    for wanted in asked.as_slice() {
        out.push(Cell {
            place: wanted.place,
            kind: wanted.kind,
            value: answer(alloc, about, wanted.what, wanted.kind)?,
        })?;
    }
    Ok(())
}

/// Adds a cell with the answer to each question about a unit, in order (ISO/IEC 1539-1:2004, 9.9.1). The look at the connection,
/// which NEXTREC=, POS= and SIZE= are answered by, comes after all pending transfers of the unit; `pending` says whether the
/// transfer in question is one of them. No condition comes. After want of memory `out` is of no account.
pub fn inquire_unit(
    alloc: Global,
    unit: i64,
    connected: Option<&Connected>,
    look: Option<Look>,
    pending: bool,
    asked: &Asked,
    out: &mut Cells,
) -> Result<(), AllocError>
    ensures { OnOk result (out.new ≡ out.old ++ inquired (about_unit unit (option_copied connected.entry) look pending) asked.now) }
{
    match connected {
        Some(connected) => {
            let about = About::Connection(unit, connected, look, pending);
            inquire(alloc, about, asked, out)
        }
        None => inquire(alloc, About::Unit, asked, out),
    }
}

/// The same about a file (ISO/IEC 1539-1:2004, 9.9.1), which exists or not, and may be connected to a unit.
pub fn inquire_file(
    alloc: Global,
    name: &FileName,
    exists: bool,
    connected: Option<(i64, &Connected)>,
    look: Option<Look>,
    pending: bool,
    asked: &Asked,
    out: &mut Cells,
) -> Result<(), AllocError>
    ensures { OnOk result (out.new ≡ out.old ++ inquired (about_file name.now exists
        (option_map (λ c. (c.0, c.1.now)) connected.entry) look pending) asked.now) }
{
    match connected {
        Some((unit, connected)) => {
            let about = About::Connection(unit, connected, look, pending);
            inquire(alloc, about, asked, out)
        }
        None => inquire(alloc, About::File(name, exists), asked, out),
    }
}
