//! The names that a folder holds, as its listing and the changes since tell them, and what is known of each; and what a
//! volume answers where a call of the system has failed.
#![tactic(auto)]

mod fault;
mod held;

pub use fault::fault_of;
pub use held::{Held, Written};
