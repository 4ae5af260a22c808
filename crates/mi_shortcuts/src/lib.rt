//! Shortcuts as plan calls: CreateShortcuts and RemoveShortcuts (Shortcut table).
#![tactic(auto)]

mod create;
mod shortcut;
mod shortcut_rows;
mod target;
mod uncreate;

pub use create::plan_create_shortcuts;
pub use uncreate::plan_remove_shortcuts;
