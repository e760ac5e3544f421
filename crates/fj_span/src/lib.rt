//! Runs of bytes: put into a file or a buffer, and read from a file.
#![tactic(auto)]

mod buffer;
mod laws;
mod read;
mod write;

pub use buffer::put;
pub use laws::{stopped_changes_keep_what_was_to_stay, writes_in_turn_keep_what_was_to_stay};
pub use read::read_span;
pub use write::{GATHERED, write_span};
