//! Connections of a unit to a file: opening, the position, the record at hand, closing (ISO/IEC 1539-1:2004, 9.4 and 9.7).
#![tactic(auto)]

mod connection;
mod laws;
mod spot;

pub use connection::{Connection, OpenFault, open_file};
pub use laws::{
    ended_files_have_their_length, ends_open_records, frames_are_put, motions_err_exactly,
    motions_go_by_records, motions_stay_in_the_file, opens_by_status,
    output_is_put_at_the_position, records_are_fed_once, records_are_read_on, records_have_rests,
    status_decides,
};
pub use spot::{Look, Positioning, Spot, Within};
