//! Files of a folder as a source, and standard output as a sink, and how the failures of a device are counted.
//! That the files and the output are as the system tells is trusted; the calls are proved to keep the clauses of the traits
//! on counts and on lengths.
#![tactic(auto)]

mod fault_count;
mod folder_source;
mod std_sink;

pub use fault_count::FaultCount;
pub use folder_source::FolderSource;
pub use std_sink::StdSink;
