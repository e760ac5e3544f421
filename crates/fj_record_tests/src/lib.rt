//! Tests of records and connections, over a file of which a call fails and through a window.
#![tactic(auto)]

#[cfg(test)]
mod byterec;
#[cfg(test)]
mod connect;
#[cfg(test)]
mod disks;
#[cfg(test)]
mod records;
#[cfg(test)]
mod seqrec;
#[cfg(test)]
mod unfrec;
#[cfg(test)]
mod windows;
