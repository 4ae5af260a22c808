//! What becomes of the clients of a component in a plan (ProcessComponents Action; Component Table, Attributes).
#![tactic(auto)]

mod clients;

pub use clients::{put_clients, take_client};
