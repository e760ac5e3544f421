// The items of a WRITE, and SIZE=, copied out of the variables.
ghost use Rattle.std.specs.Prelude.{◌≡◌, ◌≢◌, ◌∷◌, [], Err, option_map, IfOk};
ghost use Rattle.fj_meaning.specs.Items.{cell_at as plain_cell};
ghost use Rattle.fj_store.specs.Variables.{moved_of};
ghost use Rattle.fj_meaning.specs.Transfers.{moved_in};
ghost use Rattle.fj_statement.specs.Sound.{IsTransfer};
ghost use Rattle.fj_store.specs.Storage.{values_of};
ghost use Rattle.fj_run_items.specs.Gathering.{IsNumbered};
ghost use Rattle.fj_run_items.specs.Kinds.{kinds_of};

use crate::collection::{gather, only_run};
use crate::lost::Lost;
use fj_moved::{Load, Moved};
use fj_statement::{Transfer, Variables};
use fj_store::{Run, Store};
use fj_value::Place;
use std::alloc::{AllocError, Global};

/// The values of the items, copied. `Unfit`: they are too many. It changes nothing.
#[inline(always)]
pub(crate) fn copied(
    alloc: Global,
    variables: &Variables,
    store: &mut Store,
    t: &Transfer,
) -> Result<Load, Lost>
    requires { store.old.kinds ≡ kinds_of variables.now }
    ensures moved { IfOk result (λ moved. moved ≡ moved_in variables.now (values_of store.old) t.now) }
    ensures numbered { IfOk result IsNumbered }
    ensures same { store.new ≡ store.old }
    ensures fits { IsTransfer variables.now t.now → result ≢ Err Lost.Unfit }
    ensures causes { (result ≢ Err Lost.Disk) × (result ≢ Err Lost.Sink) }
{
    if let Some(run) = only_run(variables, t) {
        return Ok(store.copy_of_run(alloc, run)?);
    }
    let gathered = gather(alloc, variables, t)?;
    let moved = store.copy_of(alloc, gathered.pieces, gathered.size)?;
    Ok(moved)
}

/// SIZE=, copied as one cell. It changes nothing.
pub(crate) fn size_copied(
    alloc: Global,
    variables: &Variables,
    store: &mut Store,
    size: Option<Place>,
) -> Result<Option<Moved>, AllocError>
    requires { store.old.kinds ≡ kinds_of variables.now }
    ensures moved { IfOk result (λ moved. moved ≡ option_map (λ place. moved_of (plain_cell variables.now (values_of store.old) place ∷ [])) size) }
    ensures same { store.new ≡ store.old }
{
    let _ = variables;
    let Some(place) = size else {
        return Ok(None);
    };
    let mut load = store.copy_of_run(alloc, Run::of_place(place))?;
    let moved = load.take(alloc)?;
    Ok(Some(moved))
}
