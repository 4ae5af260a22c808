//! The calls of the system by which a folder is a volume or a source: looks, lists, reads, writes and syncs.
//! What the system does is trusted; few of these calls have clauses, on lengths.
#![tactic(auto)]

mod changes;
mod disk;
mod found;
mod levels;
mod listing;
mod names;
mod order;
mod reading;
mod replacing;
mod trouble;
mod walk;
mod writing;

pub use disk::Disk;
pub use found::{Found, Lockable, Plain, look_through};
pub use listing::{Folders, Listed};
pub use names::LONGEST_NAME;
pub use order::sort_names;
pub use reading::read_at;
pub use trouble::Trouble;
pub use walk::{Visit, path_in, visit_all};
pub use writing::sync_open;
