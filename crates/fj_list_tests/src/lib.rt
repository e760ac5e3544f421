//! Tests of list-directed text and namelist groups.
#![tactic(auto)]

#[cfg(test)]
mod given;
#[cfg(test)]
mod list;
#[cfg(test)]
mod namelist;
