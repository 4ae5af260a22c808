//! Which files an installation writes, and InstallFiles as a plan call (File table; File Versioning Rules; InstallFiles action).
#![tactic(auto)]

mod copying;
mod deciding;
mod error;
mod hashes;
mod heads;
mod install;
mod leaders;
mod placed;
mod sources;
mod targets;
mod writing;

pub use error::InstallError;
pub use install::plan_install_files;
