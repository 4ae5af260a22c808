//! Which file is replaced by which (File Versioning Rules), and the letters of REINSTALLMODE.
#![tactic(auto)]

mod languages;
mod laws;
mod mode;
mod new_file;
mod rules;

pub use laws::{replaced_always_or_never, user_changes_stay, versions_stay};
pub use mode::{BadMode, Mode};
pub use new_file::NewFile;
pub use rules::replaces;
