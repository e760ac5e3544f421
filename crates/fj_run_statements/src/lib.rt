//! What each kind of statement does itself, once the transfers that it waits for are told: what it gives to slots, and how it goes
//! on from there.
#![tactic(auto)]

mod beginning;
mod brought;
mod closing;
mod doing;
mod file_names;
mod inquiry;
mod lost;
mod numbers;
mod opening;
mod places;
mod state;
mod steps;
mod transfers;

pub use beginning::begin;
pub use brought::told_by;
pub use doing::{After, Doing, Given, Then};
pub use numbers::{define_unit, number_due};
pub use state::Core;
pub use steps::{answered, given};
