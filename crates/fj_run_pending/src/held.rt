// A pending transfer, with what its job brought once that was told.

use fj_moved::Load;
use fj_store::Runs;
use fj_value::{Condition, Place, Tag};

/// What the job of a transfer brought: its items with their values, none where the job was no transfer, a count of characters, and
/// its condition.
#[derive(Drop)]
pub struct Told {
    pub moved: Option<Load>,
    pub count: Option<u64>,
    pub condition: Condition,
}

/// A transfer that is pending on a unit.
#[derive(Drop)]
pub struct Held {
    pub tag: Tag,
    pub unit: u32,
    /// READ.
    pub input: bool,
    /// The places of its items or its group, each as often as it stands there, and of an input SIZE=.
    pub runs: Runs,
    pub size: Option<Place>,
    pub slot: u32,
    /// The number of its job among those of the slot.
    pub number: u64,
    pub answer: Option<Told>,
}
