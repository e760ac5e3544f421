//! READ and WRITE on internal files, whose records are the elements of a character variable (ISO/IEC 1539-1:2004, 9.3).
#![tactic(auto)]

mod ahead;
mod elements;
mod fields;
mod laws;
mod lines;
mod one;
mod read;
mod reader;
mod take;
#[cfg(test)]
mod tests;
mod write;

pub use laws::{
    elements_keep_their_kinds, ends_of_lines_are_refused, no_record_is_longer, reads_like_a_file,
    writes_like_a_file,
};
pub use one::{One, write_one};
pub use read::read_internal;
pub use take::read_one;
pub use write::write_internal;
