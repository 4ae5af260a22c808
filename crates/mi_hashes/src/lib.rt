//! Hashes of files that an image names (MsiFileHash table).
#![tactic(auto)]

mod add;
mod fault;
mod hash;
mod pieces;

pub use fault::HashError;
pub use hash::hash_of;
