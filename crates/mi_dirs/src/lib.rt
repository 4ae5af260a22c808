//! Directories: where the rows of the Directory table lie on the machine and in the source (Windows Installer
//! reference: Directory Table, Using the Directory Table, Changing the Target Location for a Directory).
#![tactic(auto)]

mod dir;
mod dirs;
mod fault;
mod index;
mod order;
mod own;
mod placing;
mod rows;
mod sources;
mod targets;

pub use dirs::{Dirs, resolve};
pub use fault::{DirError, DirFault};
pub use order::order_of;
pub use rows::DirRow;
