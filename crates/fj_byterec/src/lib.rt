//! Direct and stream access to files: bytes as equal records, and as they stand (ISO/IEC 1539-1:2004, 9.2.2.2 and 9.2.2.3).
#![tactic(auto)]

mod direct;
mod fill;
mod laws;
mod run;
mod stream;

pub use direct::{read_direct, write_direct};
pub use laws::{gaps_are_filled, records_stand_apart};
pub use run::write_run;
pub use stream::{read_stream, write_stream};
