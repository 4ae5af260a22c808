//! Environment variables as plan calls: WriteEnvironmentStrings and RemoveEnvironmentStrings (Environment table).
#![tactic(auto)]

mod guards;
mod remove;
mod rows;
mod take;
mod value;
mod variable;
mod write;

pub use remove::plan_remove_environment;
pub use write::plan_write_environment;
