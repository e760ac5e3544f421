//! Decks that are made from a seed: transfers on two units, with values that are drawn.
#![tactic(auto)]

mod deck;
mod draws;
mod laws;
mod sum;

pub use deck::generate;
pub use laws::{cases_are_right, draws_are_in_range};
pub use sum::byte_sum;
