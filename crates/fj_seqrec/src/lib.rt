//! Formatted records in files: bytes as a list of lines (ISO/IEC 1539-1:2004, 9.1.1).
#![tactic(auto)]

mod append;
mod backspace;
mod laws;
mod read;

pub use append::append_records;
pub use backspace::backspace_line;
pub use laws::{
    lines_begin_with_the_first, lines_end_with_the_last, lines_put_together,
    records_are_the_lines_behind,
};
pub use read::{RecordRead, read_record};
