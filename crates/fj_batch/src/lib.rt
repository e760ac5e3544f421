//! Runs many decks, each with its own part of the disk.
#![tactic(auto)]

mod batch;
mod hearer;
mod laws;
mod member;
mod report;
mod runs;
mod words;

pub use batch::{BatchStatus, run_batch};
pub use hearer::{Hears, Unheard};
pub use laws::batches_agree;
pub use member::{Member, MemberList};
pub use words::member_names;
