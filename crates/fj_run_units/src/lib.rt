//! The connected units of a run, in ascending order of their numbers, and the names of the files that are out of the disk.
#![tactic(auto)]

mod connected;
mod names;
mod units;

pub use connected::Connected;
pub use names::Names;
pub use units::Units;
