//! Tests of what a running deck holds: pending transfers, units and their end.
#![tactic(auto)]

#[cfg(test)]
mod closing;
#[cfg(test)]
mod pending;
#[cfg(test)]
mod units;
