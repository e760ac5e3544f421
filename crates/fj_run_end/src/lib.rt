//! What becomes of slots and of files when a deck has ended or a run was given up: the jobs that are left are performed, open
//! records are ended, and the files go back to the disk. Laws say that at each end of a run the slots hold the connections of units.
#![tactic(auto)]

mod closing;
mod completion;
mod jobs;
mod laws;
mod loss;
mod remains;

pub use closing::give_back;
pub use completion::finish;
pub use laws::{
    ended_decks_hold_units, stops_hold_units, stops_spare_names, submits_hold_units,
    turns_hold_units,
};
pub use remains::{Remains, room_for};
