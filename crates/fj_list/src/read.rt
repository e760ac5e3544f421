// List-directed input.
ghost use Rattle.std.specs.Prelude.{◌≡◌, ◌<◌, ◌≤◌, ◌↔◌, length, All, IfOk, true};
ghost use Rattle.fj_outside.specs.Faults.{Rose};
ghost use Rattle.fj_moved.specs.Moved.{IsOrdered};
ghost use Rattle.fj_list.specs.Constant.{read_as};
ghost use Rattle.fj_list.specs.ListInput.{condition_of, items_read, list_input};
ghost use Rattle.fj_moved.specs.Cells.{kind_at, places_of};
ghost use Rattle.fj_list.specs.Scan.{IsSound, ahead, constant_of, Serves, IsOutcome};

use crate::constant::{Read, read_as};
use crate::records::Records;
use crate::scan::Scan;
use crate::split::{advance, supply};
use fj_moved::{Cells, Moved, define};
use fj_outside::Stop;
use fj_value::{Condition, EditModes, Kind};
use std::alloc::{AllocError, Global};

fn kind_at(cells: &Cells, at: u32) -> Kind
    requires { at < length cells.now }
    ensures { result ≡ kind_at cells.now at }
{
    cells.as_slice()[at as usize].kind
}

/// Serves the constant at hand to an item, or answers the condition where its characters are no value of the item's
/// kind.
pub fn serve(
    alloc: Global,
    scan: &Scan,
    cells: &mut Cells,
    at: u32,
) -> Result<Option<Condition>, AllocError>
    requires sound { IsSound scan.now }
    requires there { at < length cells.old }
    ensures served { IfOk result (λ end. Serves end
        (read_as (kind_at cells.old at) scan.now.form (constant_of scan.now.form scan.now)) cells.old at cells.new) }
    ensures places { places_of cells.new ≡ places_of cells.old }
{
    match read_as(alloc, kind_at(cells, at), scan.form, scan.constant())? {
        Read::Null => Ok(None),
        Read::Wrong(condition) => Ok(Some(condition)),
        Read::Defined(value) => {
            define(cells, at as usize, value);
            Ok(None)
        }
    }
}

/// Reads the items, from the first record on, which is at hand.
fn read_items<R: Records>(
    alloc: Global,
    records: &mut R,
    scan: &mut Scan,
    cells: &mut Cells,
    order: &[u32],
    comma: bool,
) -> Result<Condition, Stop>
    requires sound { IsSound scan.old }
    requires ordered { All (λ at. at < length cells.old) order.now }
    ensures places { places_of cells.new ≡ places_of cells.old }
    ensures telling { R.tells records.old ↔ R.tells records.new }
    ensures contents { R.tells records.old → IfOk result (λ condition. IsOutcome condition
        (items_read comma (condition_of (R.ending records.old)) order.now cells.old true scan.old.count scan.old.form
        (constant_of scan.old.form scan.old) (ahead scan.old (R.to_come records.old)))
        cells.new (R.to_come records.new)) }
    ensures source { R.source records.new ≡ R.source records.old }
    ensures later { R.count records.old ≤ R.count records.new }
    ensures failed { result ≡ Err Stop.Failed → Rose (R.count records.old) (R.count records.new) }
{
    let mut first = true;
    for at in order {
        if let Some(condition) = supply(records, scan, comma, first)? {
            return Ok(condition);
        }
        if let Some(condition) = serve(alloc, scan, cells, *at)? {
            return Ok(condition);
        }
        scan.count = scan.count.saturating_sub(1);
        first = false;
    }
    Ok(Condition::Fine)
}

/// Reads values for the items from the next record on (ISO/IEC 1539-1:2004, 10.9.1). The condition is `Fine`; or of the first
/// constant that is none for its item `NO_VALUE` (13) or `OUT_OF_RANGE` (14); or, where the records end before all items have
/// values, the one in which they end, mostly `EndOfFile`. `next` is called for no more records than are looked at: the others are
/// left. After a `Stop` nothing is said of the values.
pub fn read_list<R: Records>(
    alloc: Global,
    records: &mut R,
    moved: &mut Moved,
    modes: EditModes,
) -> Result<Condition, Stop>
    requires { IsOrdered moved.old }
    ensures order { moved.new.order ≡ moved.old.order }
    ensures places { places_of moved.new.cells ≡ places_of moved.old.cells }
    ensures telling { R.tells records.old ↔ R.tells records.new }
    ensures contents { R.tells records.old → IfOk result (λ condition. IsOutcome condition
        (list_input modes.comma (R.to_come records.old) (condition_of (R.ending records.old))
        moved.old.cells moved.old.order)
        moved.new.cells (R.to_come records.new)) }
    ensures source { R.source records.new ≡ R.source records.old }
    ensures later { R.count records.old ≤ R.count records.new }
    ensures failed { result ≡ Err Stop.Failed → Rose (R.count records.old) (R.count records.new) }
{
    let mut scan = Scan::new(alloc);
    if let Some(condition) = advance(records, &mut scan)? {
        return Ok(condition);
    }
    read_items(
        alloc,
        records,
        &mut scan,
        &mut moved.cells,
        moved.order.as_slice(),
        modes.comma,
    )
}
