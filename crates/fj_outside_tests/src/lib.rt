//! Tests of sources, sinks, disks and buffered files, each call of which fails once.
#![tactic(auto)]

#[cfg(test)]
mod buffered;
#[cfg(test)]
mod outside;
