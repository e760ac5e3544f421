//! What a deck means: executing its statements one after another, on variables, pending transfers, connected units, files and
//! the output of unit `*` (ISO/IEC 1539-1:2004, clause 9). The definitions stand in specs/: `Statement` has one step and a whole
//! deck; `Telling`, `Transfers`, `Connecting` and `Inquiring` have its parts in the order in which a statement goes.
#![tactic(auto)]

mod cases;
mod cut_laws;
mod halt_laws;
mod pending_laws;
mod telling_laws;
mod unit_laws;
mod variable_laws;

pub use cases::{
    close_that_errs, definitions_come_first, done_are_told, elements_are_left,
    end_of_record_halts_nothing, nothing_is_read, open_tests_are_in_order, prohibitions_come_first,
    refused_reads_nothing, skipped_tell_their_cause, tells_come_before_tests, tests_are_in_order,
    told_before_answers, written_and_read_inside,
};
pub use cut_laws::{cut_is_before, execution_goes_on};
pub use halt_laws::{
    halts_are_caused, halts_begin_and_end, skipped_changes_no_file, skipped_tell_the_cause,
};
pub use pending_laws::{
    identifiers_rise, nothing_is_told, pending_turns, places_are_apart, prohibited_does_nothing,
};
pub use telling_laws::gravest_is_told;
pub use unit_laws::{
    assignment_changes_variables, closing_leaves_each, files_are_apart,
    internal_transfers_change_variables, later_is_as_at_once, pending_are_connected,
    telling_changes_no_file, units_ascend,
};
pub use variable_laws::variables_are_as_declared;
