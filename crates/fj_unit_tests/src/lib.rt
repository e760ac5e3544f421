//! A program's calls on a unit in memory, one after another.
#![tactic(auto)]

#[cfg(test)]
mod session;
