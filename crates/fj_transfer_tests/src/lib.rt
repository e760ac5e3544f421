//! Tests of transfers over files, each call of which fails once.
#![tactic(auto)]

#[cfg(test)]
mod perform;
#[cfg(test)]
mod transfer;
