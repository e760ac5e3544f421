//! Tests of the answers of INQUIRE.
#![tactic(auto)]

#[cfg(test)]
mod inquire;
