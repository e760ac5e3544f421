//! Tests of modes, formats and the fields of edit descriptors.
#![tactic(auto)]

#[cfg(test)]
mod control;
#[cfg(test)]
mod edit_in;
#[cfg(test)]
mod edit_out;
#[cfg(test)]
mod format;
#[cfg(test)]
mod generated;
#[cfg(test)]
mod line;
#[cfg(test)]
mod modes;
