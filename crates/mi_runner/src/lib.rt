//! Carrying out a segment: the records of a script over an open rollback area and a source.
#![tactic(auto)]

mod bytes;
mod carry;
mod fault;
mod files;
mod head;
mod piece;
mod segments;

pub use fault::RunFault;
pub use segments::segment;
