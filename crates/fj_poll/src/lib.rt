//! Runs in which INQUIRE with PENDING= is answered by what the workers have done.
#![tactic(auto)]

mod execution;
mod poll;
mod stretches;
mod usage;

pub use fj_job::{Reason, Status, run_job};
pub use poll::poll_job;
