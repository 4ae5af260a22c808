//! The print of a machine, and what differs between two.
#![tactic(auto)]

mod differences;
mod entries;
mod fault;
mod files;
mod kinds;
mod laws;
mod lines_of;
mod whole;

pub use differences::diff;
pub use fault::{DiffError, ShowError};
pub use laws::{nothing_differs_in_one, prints_are_exact};
pub use mi_print::lines_are_exact;
pub use mi_print_looks::is_waiting;
pub use whole::show;
