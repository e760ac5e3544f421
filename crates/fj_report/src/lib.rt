//! The words of a run, and the lines of its report.
#![tactic(auto)]

mod command;
mod form;
mod given;
mod line;
mod pieces;
mod polled;
mod status;
mod summary;
mod trace;
mod variable;

pub use form::{Form, read_words};
pub use line::{check_line, look_line, status_line, trace_line, usage, usage_line};
pub use polled::read_poll;
pub use status::Status;
pub use summary::{Summary, summary_line};
pub use trace::{Tell, trace_lines};
pub use variable::variable_line;
