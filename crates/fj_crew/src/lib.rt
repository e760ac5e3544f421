//! A script served over queues, on which other threads work.
#![tactic(auto)]

mod crew;
mod floor;
mod queues;
mod seats;
mod serve;
mod signals;
mod with_workers;
mod workers;

pub use crew::{CrewLost, run_crew};
pub use with_workers::serve_with;
