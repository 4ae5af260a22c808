//! ProcessComponents as a plan call: the clients of components, and the counts of shared files (ProcessComponents Action; Component
//! Table).
#![tactic(auto)]

mod clients;
mod counts;

pub use clients::plan_process_components;
