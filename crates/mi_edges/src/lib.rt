//! The edges to the system: a folder as a volume, and what `mi_feeds` has: files as a source, standard output as a sink.
//! That a real folder behaves as the model of a volume says is trusted; the calls are proved to keep the
//! clauses of the traits on counts, on names and on lengths.
#![tactic(auto)]

mod folder_files;
mod folder_volume;

pub use folder_files::EdgeFault;
pub use folder_volume::FolderVolume;
pub use mi_disk::Lockable;
pub use mi_feeds::{FolderSource, StdSink};
