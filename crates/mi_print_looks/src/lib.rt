//! What a print of a machine looks up: whether a run was stopped on a volume, the names of two images, and whether the key of a
//! value is recorded.
#![tactic(auto)]

mod name_set;
mod strays;
mod waiting;

pub use name_set::NameSet;
pub use strays::push_if_stray;
pub use waiting::is_waiting;
