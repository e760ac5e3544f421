//! One whole transfer: what a READ or WRITE transfers, and the records that it writes (ISO/IEC 1539-1:2004, 9.5 and 10.1).
#![tactic(auto)]

mod ahead;
mod change;
mod explicit;
mod fields;
mod formatted;
mod group;
mod hand;
mod input;
mod laws;
mod listed;
mod look;
mod numbered;
mod pieces;
mod print;
mod reached;
mod reader;
mod room;
mod run;
mod stored;
mod transfer;
mod unformatted;
mod writer;

pub use change::EditChange;
pub use explicit::Performed;
pub use formatted::write_lines;
pub use input::read_lines;
pub use laws::{
    direct_records_stand_apart, errors_leave_the_connection, items_are_in_order,
    stream_output_keeps_the_others, unformatted_records_come_back,
};
pub use listed::{read_grouped, read_listed};
pub use numbered::read_numbered;
pub use pieces::write_numbered;
pub use print::{print_explicit, print_items_onto, print_onto, print_records};
pub use stored::{body_of, frame_of};
pub use transfer::{Layout, Members, Transfer, TransferSpec};
pub use unformatted::{
    read_direct, read_sequential, read_stream, write_direct, write_sequential, write_stream,
};
