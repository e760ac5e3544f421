//! Format control, and the lines that it writes (ISO/IEC 1539-1:2004, 10.3).
#![tactic(auto)]

mod again;
mod cursor;
mod modes;
mod step;
mod walker;

pub use cursor::{Cursor, gives_the_steps, goes_on_in_the_record, reverts_to_the_last_group};
pub use fj_line::{Line, Move};
pub use modes::modes_behind;
pub use step::Step;
