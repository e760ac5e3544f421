//! Where a run is cut: what the statement that it is cut at left of the files. Each file that this statement is not about is as closing
//! all units just before it leaves it. The definitions stand in specs/: `Others` names the file that a statement is about, and says so
//! after any number of its jobs, and where a stop was told; `Turning` says so of each turn of a runner, in which a call on the disk may
//! fail; `Stopping` says which statement gives each job of a slot, and so what is found of a file in which a job was stopped; `Awaiting`
//! names the units at which a statement waits, of which the slot of a told stop is one.
#![tactic(auto)]

mod cases;
mod laws;

pub use cases::{
    end_leaves_others, is_about_one_file, is_at_its_slot, open_leaves_others, write_leaves_others,
};
pub use laws::{
    cut_runs_leave_others, ends_are_given, others_stay, stops_are_awaited, stops_are_given,
    stops_leave_others, submits_leave_others, turns_are_given, turns_do, turns_leave_others,
    units_keep_desks, waits_as_wait, waits_at_one_unit,
};
