//! What the meaning of a deck is held by: laws in the words of the standard, which a wrong rule breaks where it stands in a definition and in
//! what carries it out alike (ISO/IEC 1539-1:2004, clause 9).
#![tactic(auto)]

mod concluding_laws;
mod connection_laws;
mod mode_laws;
mod naming_laws;
mod waiting_laws;

pub use concluding_laws::conditions_conclude;
pub use connection_laws::{
    close_closes_anyway, close_leaves_file, motions_move_units, open_leaves_position,
    opens_in_order,
};
pub use mode_laws::{star_prints_under_modes, transfers_under_modes};
pub use naming_laws::{named_places_are_needed, needs_are_named};
pub use waiting_laws::{awaits_exactly, later_is_as_at_once, none_stays_pending};
