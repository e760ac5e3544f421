//! Runs decks: from the words and the text of a deck to its report and its files.
#![tactic(auto)]

mod asked;
mod ending;
mod execution;
mod job;
mod laws;
mod made;
mod middle;
mod ready;
mod report;
mod streams;
mod task;
mod text;
mod workers;
mod writing;

pub use asked::{Asked, answer};
pub use ending::{Carried, conclude, settle};
pub use fj_report::Status;
pub use fj_statement::Reason;
pub use job::{alone_job, run_job};
pub use laws::{
    lines_name_statements, one_reply, one_write_fault, others_leave_files, some_learn_nothing,
    some_reply, write_faults_are_first,
};
pub use middle::Middle;
pub use ready::{Ready, ready_for};
pub use task::Task;
pub use workers::workers_for;
pub use writing::write_text;
