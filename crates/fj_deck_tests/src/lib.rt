//! Tests of what a deck is read as, and of the words and reports of a run.
#![tactic(auto)]

#[cfg(test)]
mod deck;
#[cfg(test)]
mod meaning;
#[cfg(test)]
mod report;
#[cfg(test)]
mod syntax;
