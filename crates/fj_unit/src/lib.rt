//! One external unit that is held in memory: its jobs are given in the order of a program's statements, carried out by whoever lends a
//! thread, and told in their order. Contracts see what carrying all of them out, at once, has come to.
#![tactic(auto)]

mod files;
mod refusal;
mod session;
mod transfer;
mod unit;
mod waits;

pub use session::{Session, layout_of};
pub use transfer::copy_read;
pub use unit::{Outcome, Unit};
