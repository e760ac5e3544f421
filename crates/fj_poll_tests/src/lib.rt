//! Tests of runs with looks.
#![tactic(auto)]

#[cfg(test)]
mod rows;
