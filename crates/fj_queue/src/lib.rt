//! A slot that several threads work on: a turn, three counts, a stop, and a cell that holds the slot.
#![tactic(auto)]

mod asks;
mod cell;
mod jobs;
mod law;
mod laws;
mod named;
mod plays;
mod queue;
mod seats;
mod stops;
mod turns;
mod view;

pub use laws::{shows_nothing_to_begin, tells_stops_apart};
pub use queue::{Lost, LostSlot};
pub use seats::{Hand, HandOf, Queue, QueueOf, Submitter, SubmitterOf};
pub use view::Agenda;
