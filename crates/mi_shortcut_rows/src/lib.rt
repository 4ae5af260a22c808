//! What a row of Shortcut says of its shortcut: what it is, and whose path it starts (Shortcut table).
#![tactic(auto)]

mod entry;
mod target;

pub use entry::shortcut_entry;
pub use target::component_to_start;
