//! How an entry of a machine is printed, in lines of its own form (this project's own) and as an exported .reg file has it.
//!
//! Each call adds bytes behind those that `out` has. Its one error is want of memory, and what `out` has then isn't said.
#![tactic(auto)]

mod entry;
mod laws;
mod lines;
mod registry;
mod texts;
mod trees;

pub use entry::push_other;
pub use laws::lines_are_exact;
pub use lines::push_details;
pub use registry::{push_exported, push_key_line, push_stray};
pub use texts::{push_field, push_word};
pub use trees::push_path;
