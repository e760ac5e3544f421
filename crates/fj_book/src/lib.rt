//! The book of pending transfers: which are pending, what they hold, and what a statement may not do beside them
//! (ISO/IEC 1539-1:2004, 9.5.1.4, 9.6, clause 16).
#![tactic(auto)]

mod book;
mod counts;
mod laws;
mod need;
mod pending;
mod place_test;
mod row;

pub use book::Book;
pub use laws::{
    all_is_held, decks_are_told, each_is_told, first_is_least, lowest_is_broken, lowest_is_told,
    parts_meet, places_are_held_until_told, places_meet, specifiers_meet, statements_are_told,
};
pub use need::{Need, Needs};
pub use pending::{Pending, Places};
pub use place_test::RunTest;
