// READ and WRITE on an internal file, which the statement itself carries out (ISO/IEC 1539-1:2004, 9.3).
ghost use Rattle.std.specs.Prelude.{◌≡◌, ◌≢◌, ◌↔◌, true, false, None, Some, Err, IsTrue, IfOk};
ghost use Rattle.fj_internal.specs.Internal.{IsInput, IsOutput};
ghost use Rattle.fj_meaning.specs.Items.{file_places};
ghost use Rattle.fj_meaning.specs.Statement.{control_by};
ghost use Rattle.fj_meaning.specs.Transfers.{file_cells, inside, moved_in};
ghost use Rattle.fj_statement.specs.Sound.{IsTransfer};
ghost use Rattle.fj_statement.specs.Units.{internal_of};
ghost use Rattle.fj_statement.specs.declared.statement.Statement.TheVariants as statement;
ghost use Rattle.fj_store.specs.Places.{places_of};
ghost use Rattle.fj_store.specs.Storage.{values_of};
ghost use Rattle.fj_run_items.specs.Inside.{IsPlain, read_by, written_by};
ghost use Rattle.fj_run_items.specs.Kinds.{kinds_of};
ghost use Rattle.fj_run_items.specs.Shown.{IsOfItems};

use crate::collection::whole;
use crate::element::{read_element, write_element};
use crate::job::moving;
use crate::lost::Lost;
use crate::results::{give_back, give_cells};
use crate::star::is_of_items;
use fj_internal::{read_internal, write_internal};
use fj_moved::Cells;
use fj_statement::{InternalFile, Transfer, Variables};
use fj_store::{Run, Store};
use fj_transfer::Transfer as Moving;
use fj_value::{Condition, Place, Tag};
use std::alloc::{AllocError, Global};

/// The places of its elements.
fn run_of(variables: &Variables, file: InternalFile) -> Run
    ensures { places_of result ≡ file_places variables.now file }
{
    match file {
        InternalFile::One(place) => Run::of_place(place),
        InternalFile::Whole { var } => whole(variables, var),
    }
}

/// Its elements, copied. It changes nothing.
fn elements_of(
    alloc: Global,
    variables: &Variables,
    store: &mut Store,
    file: InternalFile,
) -> Result<Cells, AllocError>
    requires { store.old.kinds ≡ kinds_of variables.now }
    ensures cells { IfOk result (λ cells. cells ≡ file_cells variables.now (values_of store.old) file) }
    ensures same { store.new ≡ store.old }
{
    let mut load = store.copy_of_run(alloc, run_of(variables, file))?;
    let moved = load.take(alloc)?;
    Ok(moved.cells)
}

/// Whether a READ or WRITE is formatted and of items, and names neither a record nor a position.
fn is_of_records(t: &Transfer) -> bool
    ensures { IsTrue result ↔ (t.now.rec ≡ None) × (t.now.pos ≡ None) × IsOfItems t.now.control }
{
    t.rec.is_none() && t.pos.is_none() && is_of_items(&t.control)
}

/// A READ of elements. The items, which were moved out, have their values or are undefined, and SIZE= gets its count.
fn read_from(
    alloc: Global,
    variables: &Variables,
    store: &mut Store,
    size: Option<Place>,
    elements: &Cells,
    mut job: Moving,
) -> Result<Condition, AllocError>
    requires kinds { store.old.kinds ≡ kinds_of variables.now }
    requires input { IsInput job.spec }
    ensures done { IfOk result (λ condition. (values_of store.new, condition) ≡ read_by variables.now size elements.now job (values_of store.old)) }
    ensures kinds { store.new.kinds ≡ store.old.kinds }
{
    let condition = read_internal(alloc, elements, &mut job)?;
    let Moving { moved, count, .. } = job;
    give_cells(variables, store, true, size, Some(moved), count);
    Ok(condition)
}

/// A WRITE of elements, which have their values then.
fn write_to(
    alloc: Global,
    variables: &Variables,
    store: &mut Store,
    mut elements: Cells,
    mut job: Moving,
) -> Result<Condition, AllocError>
    requires kinds { store.old.kinds ≡ kinds_of variables.now }
    requires output { IsOutput job.spec }
    ensures done { IfOk result (λ condition. (values_of store.new, condition) ≡ written_by variables.now elements job (values_of store.old)) }
    ensures kinds { store.new.kinds ≡ store.old.kinds }
{
    let condition = write_internal(alloc, &mut elements, &mut job)?;
    give_back(variables, store, elements);
    Ok(condition)
}

/// A READ on an internal file that names neither a record nor a position.
fn read_file(
    alloc: Global,
    variables: &Variables,
    store: &mut Store,
    t: &Transfer,
    file: InternalFile,
) -> Result<Condition, Lost>
    requires kinds { store.old.kinds ≡ kinds_of variables.now }
    requires input { t.now.input ≡ true }
    requires numbers { (t.now.rec ≡ None) × (t.now.pos ≡ None) }
    ensures done { IfOk result (λ condition. (values_of store.new, condition)
        ≡ inside (control_by (statement.Transfer t.now)) variables.now (values_of store.old) t.now (moved_in variables.now (values_of store.old) t.now) file) }
    ensures kinds { store.new.kinds ≡ store.old.kinds }
    ensures fits { IsTransfer variables.now t.now → result ≢ Err Lost.Unfit }
    ensures causes { (result ≢ Err Lost.Disk) × (result ≢ Err Lost.Sink) }
{
    let elements = elements_of(alloc, variables, store, file)?;
    let job = moving(alloc, variables, store, 0, Tag(0), t)?.into_inner();
    let condition = read_from(alloc, variables, store, t.size, &elements, job)?;
    Ok(condition)
}

/// The same of a formatted WRITE of items.
fn write_file(
    alloc: Global,
    variables: &Variables,
    store: &mut Store,
    t: &Transfer,
    file: InternalFile,
) -> Result<Condition, Lost>
    requires kinds { store.old.kinds ≡ kinds_of variables.now }
    requires output { t.now.input ≡ false }
    requires plain { IsPlain t.now }
    ensures done { IfOk result (λ condition. (values_of store.new, condition)
        ≡ inside (control_by (statement.Transfer t.now)) variables.now (values_of store.old) t.now (moved_in variables.now (values_of store.old) t.now) file) }
    ensures kinds { store.new.kinds ≡ store.old.kinds }
    ensures fits { IsTransfer variables.now t.now → result ≢ Err Lost.Unfit }
    ensures causes { (result ≢ Err Lost.Disk) × (result ≢ Err Lost.Sink) }
{
    let elements = elements_of(alloc, variables, store, file)?;
    let job = moving(alloc, variables, store, 0, Tag(0), t)?.into_inner();
    let condition = write_to(alloc, variables, store, elements, job)?;
    Ok(condition)
}

/// A READ or WRITE on an internal file. The items of a READ have their values or are undefined, and the elements of a WRITE theirs;
/// answers its condition. `Unfit`: it is not formatted, or of a group, it names a record or a position, or the items are too many.
/// After an `Err` the variables have their kinds, and nothing is said of their values.
pub fn transfer_inside(
    alloc: Global,
    variables: &Variables,
    store: &mut Store,
    t: &Transfer,
    file: InternalFile,
) -> Result<Condition, Lost>
    requires { store.old.kinds ≡ kinds_of variables.now }
    ensures done { IfOk result (λ condition. (values_of store.new, condition)
        ≡ inside (control_by (statement.Transfer t.now)) variables.now (values_of store.old) t.now (moved_in variables.now (values_of store.old) t.now) file) }
    ensures kinds { store.new.kinds ≡ store.old.kinds }
    ensures fits { IsTransfer variables.now t.now → internal_of t.now.unit ≡ Some file → result ≢ Err Lost.Unfit }
    ensures causes { (result ≢ Err Lost.Disk) × (result ≢ Err Lost.Sink) }
{
    if !is_of_records(t) {
        return Err(Lost::Unfit);
    }
    match file {
        InternalFile::One(place) if t.input => read_element(alloc, variables, store, t, place),
        InternalFile::One(place) => write_element(alloc, variables, store, t, place),
        InternalFile::Whole { var: _ } if t.input => read_file(alloc, variables, store, t, file),
        InternalFile::Whole { var: _ } => write_file(alloc, variables, store, t, file),
    }
}
