//! Jobs on a connection: a bay holds one connection or none, and the halt that an error or the end of the file sets (own). The
//! definitions stand in specs/: `Serving` has what each job does, `Spoilt` which bays a stop may leave.
#![tactic(auto)]

mod bay;
mod cases;
mod job;
mod laws;
mod plain;

pub use bay::Bay;
pub use cases::{
    first_changes, on_a_full_bay, on_a_halted_bay, on_an_empty_bay, open_record_goes_out_ended,
};
pub use job::{Answer, Job};
pub use laws::{
    detaches_ended, finds_first_difference, halts_by_transfers, halts_until_resumed,
    is_empty_or_takes, keeps_its_connection, leaves_bytes, moves_on, resumes_alone, skips_in_halts,
    stops_where_bytes_change, transfers_else,
};
pub use plain::{PlainAnswer, PlainBay, PlainJob};
