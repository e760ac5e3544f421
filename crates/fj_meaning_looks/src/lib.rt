//! A run in stretches: each goes up to a statement that looks at what was done so far, another statement is put in its place, and the
//! next stretch goes on over the same slots. The definitions stand in specs/: `Looking` has the runner that stops at a look, `Meeting`
//! says that it stops at each, once, and `Stretches` that all of them are one run of the deck as it is put by then; `Worlds` and
//! `Losing` say so of real slots, and of a script that gave up.
#![tactic(auto)]

mod laws;

pub use laws::{
    looks_are_met, looks_are_met_once, looks_are_put, losses_follow, scripts_ask_again,
    stretches_are_one, stretches_begin, stretches_follow, stretches_go_on, stretches_leave_results,
    worlds_are_served,
};
