//! Tests of batches.
#![tactic(auto)]

#[cfg(test)]
mod rows;
