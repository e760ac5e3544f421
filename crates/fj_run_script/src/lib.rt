//! The runner of a deck: what it holds between two asks, statement by statement, and a script over slots of bays.
#![tactic(auto)]

mod answer;
mod ask;
mod beginning;
mod ending;
mod halted;
mod hand;
mod handover;
mod inquiry;
mod left;
mod looking;
mod machine;
mod progress;
mod script;
mod service;
mod stage;
mod start;
mod state;
mod stretch;
mod tally;
mod turned;
mod turns;

pub use ending::Ending;
pub use left::Left;
pub use looking::{Inquired, Look};
pub use machine::Machine;
pub use script::Runner;
pub use stretch::Stretch;
