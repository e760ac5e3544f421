//! The runner of a deck as plain data: what it asks of its slots next, turn by turn, and what it is after each answer. The definitions
//! stand in specs/: `Run` and `Turns` have the machine, `Serving` puts it over slots of bays; `Whole`, `Executing` and `Cutting` say
//! what it comes to, served alone or in any order of events, and where a run is cut that was told a stop; `Passing` says where it stands
//! before each ask and behind each statement that it then passes.
#![tactic(auto)]

mod cases;
mod laws;

pub use cases::{fine_ends_no_halt_alone, skipped_tell_their_cause_alone};
pub use laws::{
    asks_end, asks_keep_to_slots, asks_stand, cuts_agree, ends_are_met, entries_stand,
    gives_few_jobs, jobs_are_awaited, pending_awaits_nothing, runners_are_plain, runs_execute,
    runs_leave_results, runs_stand, stops_cut, worlds_are_cut,
};
