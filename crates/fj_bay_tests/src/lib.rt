//! Tests of jobs on a connection: what each does, and which ones a halt skips.
#![tactic(auto)]

#[cfg(test)]
mod bay;
