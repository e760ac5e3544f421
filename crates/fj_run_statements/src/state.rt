// What a run holds above its connections.
use fj_run_items::Output;
use fj_run_pending::{Pendings, Tell};
use fj_run_units::{Names, Units};
use fj_store::Store;
use fj_value::Items;

/// What a run holds above its connections.
#[derive(Drop)]
pub struct Core {
    pub store: Store,
    pub pending: Pendings,
    pub units: Units,
    pub output: Output,
    /// The next identifier.
    pub next: u32,
    /// The code of the number that NEWUNIT= gives next.
    pub new_unit: u32,
    pub tells: Items<Tell>,
    /// The names whose files are out of the disk.
    pub names: Names,
}
