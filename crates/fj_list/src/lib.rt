//! List-directed text, both ways (ISO/IEC 1539-1:2004, 10.9): records of values, and values read from records.
#![tactic(auto)]

mod constant;
mod laws;
mod memory_records;
mod read;
mod records;
mod row;
mod scan;
mod shown;
mod split;
mod write;

pub use constant::{Form, Read, number, read_as};
pub use laws::{
    cells_keep_kinds, constants_are_of_kind, constants_may_be_cut, integers_are_read,
    records_are_listed, records_are_looked_at_as_needed, records_are_unique,
    records_break_where_full, text_has_a_meaning, text_has_one_meaning, text_is_read_as_its_values,
    values_are_read_again,
};
pub use memory_records::MemoryRecords;
pub use read::read_list;
pub use records::{More, Records, next_line};
pub use scan::{
    blanks_width, digits_width, ends_constant, is_blank, is_mark, is_separator, text_width,
    width_before,
};
pub use shown::push_value;
pub use write::{COLUMNS, put_list, write_list};
