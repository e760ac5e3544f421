//! A script over many slots, served in any order of events.
#![tactic(auto)]

mod alone;
mod ask;
mod busy;
mod event;
mod laws;
mod script;
mod slots;
mod world;

pub use alone::run_alone;
pub use ask::Ask;
pub use busy::Busy;
pub use event::Event;
pub use laws::{
    events_are_enabled_as_sketched, neighbours_commute, scripts_have_one_end,
    worlds_are_never_stuck,
};
pub use script::Script;
pub use slots::Slots;
pub use world::{Unmade, World};
