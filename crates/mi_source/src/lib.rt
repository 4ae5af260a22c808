//! What a run reads and what it writes its log to: the trait of a source, which is a map from paths to
//! bytes, the trait of a sink, which takes bytes one after the other, and both in memory.
#![tactic(auto)]

mod fault;
mod mem_sink;
mod mem_source;
mod meter;
mod sink;
mod source;

pub use fault::{Failed, SrcFault};
pub use mem_sink::MemSink;
pub use mem_source::MemSource;
pub use sink::Sink;
pub use source::{PIECE, Source};
