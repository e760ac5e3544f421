//! The exit status of each answer.
#![tactic(auto)]

mod status;

pub use status::exit_status;
