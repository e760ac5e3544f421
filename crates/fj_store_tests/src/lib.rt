//! Tests of variables and of the book of pending transfers.
#![tactic(auto)]

#[cfg(test)]
mod book;
#[cfg(test)]
mod store;
