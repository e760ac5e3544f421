//! Standard input, standard output and the files of the current folder as sources, sinks and disks. They count their
//! faults, and tell nothing of what they hold: no contract can say what a file or a terminal gives or takes. Each keeps why
//! the last call that failed did, for a person to read.
#![tactic(auto)]

mod blocks;
mod disk;
mod file;
mod kept;
mod late;
mod limit;
mod numbers;
mod opening;
mod output;
mod part;
mod sink;
mod source;
mod why;

pub use disk::{Failure, RealDisk};
pub use file::RealFile;
pub use kept::Kept;
pub use late::FileSource;
pub use numbers::hold_standard_numbers;
pub use output::RealOutput;
pub use part::PartDisk;
pub use sink::RealSink;
pub use source::RealSource;
pub use why::Why;

#[cfg(test)]
mod tests;
