//! The outside of a run: sources, sinks, files and disks, each with a count of its faults, and those in memory.
#![tactic(auto)]

mod buffered;
mod by_name;
mod errors;
mod failing_disk;
mod failing_file;
mod failing_sink;
mod failing_source;
mod gate;
mod gate_disk;
mod gate_file;
mod laws;
mod memory_disk;
mod memory_file;
mod memory_sink;
mod memory_source;
mod outside;
mod overwrite;
mod plan;
mod plans;
mod table;
mod window;

pub use buffered::{Buffered, WindowRoom};
pub use errors::{Failed, Stop};
pub use failing_disk::FailingDisk;
pub use failing_file::FailingFile;
pub use failing_sink::FailingSink;
pub use failing_source::FailingSource;
pub use gate::Gate;
pub use gate_disk::GateDisk;
pub use gate_file::GateFile;
pub use laws::{
    reads_answer_as_the_file, rises_to_more_or_the_end, steps_change_one_name, written_by_place,
};
pub use memory_disk::MemoryDisk;
pub use memory_file::MemoryFile;
pub use memory_sink::MemorySink;
pub use memory_source::MemorySource;
pub use outside::{Disk, FileStore, Sink, Source};
pub use window::WINDOW;
