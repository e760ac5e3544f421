//! Tests of slots, queues and workers.
#![tactic(auto)]

#[cfg(test)]
mod asking;
#[cfg(test)]
mod behind;
#[cfg(test)]
mod crew;
#[cfg(test)]
mod meeting;
#[cfg(test)]
mod overlap;
#[cfg(test)]
mod queue;
#[cfg(test)]
mod slot;
#[cfg(test)]
mod world;
