//! Namelist text, both ways (ISO/IEC 1539-1:2004, 10.10): the records of a group, and a group read from records.
#![tactic(auto)]

mod heading;
mod laws;
mod lexer;
mod member;
mod names;
mod place;
mod read;
mod token;
mod write;

pub use fj_moved::GroupMember;
pub use laws::{
    elements_are_named, group_text_has_one_meaning, group_text_is_read, groups_are_read_again,
    groups_need_headings, members_break_where_full,
};
pub use read::read_group;
pub use write::write_group;
