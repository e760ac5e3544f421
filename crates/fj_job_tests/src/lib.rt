//! Tests of whole decks, alone and with workers.
#![tactic(auto)]

#[cfg(test)]
mod job;
