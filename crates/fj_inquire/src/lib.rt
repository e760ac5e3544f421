//! The answers of INQUIRE (ISO/IEC 1539-1:2004, 9.9): by unit and by file, of a connection and of none.
#![tactic(auto)]

mod about;
mod answers;
mod connected;
mod inquire;
mod laws;
mod values;

pub use connected::Connected;
pub use inquire::{inquire_file, inquire_unit};
pub use laws::words_are_read;
