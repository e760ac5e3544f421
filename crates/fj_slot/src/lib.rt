//! Jobs over one engine, served in order: a slot, which hands out one job at a time and tells what became of each.
#![tactic(auto)]

mod engine;
mod laws;
mod slot;
mod stop;
mod told;

pub use engine::Engine;
pub use laws::{begins_exactly, jobs_are_served_in_order, stops_have_causes, tells_exactly};
pub use slot::Slot;
pub use stop::Halt;
pub use told::{Out, Refused, Told};
