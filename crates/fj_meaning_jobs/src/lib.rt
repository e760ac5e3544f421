//! The execution of a deck over desks: a bay and a log of jobs at each slot. It is no definition of what a deck means, which stands in
//! `fj_meaning`; it says by which jobs, given to which slot in which order, a deck comes to that.
#![tactic(auto)]

mod cases;
mod laws;

pub use cases::{
    changes_and_looks, ends_its_halt, lowest_free_slots, reads_past_the_end, skips_behind_the_end,
    stops_with_pending,
};
pub use laws::{end_ascends, jobs_are_given, results_agree, slots_forgotten};
