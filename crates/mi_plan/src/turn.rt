//! What a turn of the loop over the walk has come to.

use mi_base::Cause;

/// What a turn has come to.
#[derive(Drop)]
pub enum Turn {
    /// A row was begun, and the walk goes on.
    Went,
    /// The walk ends, and this refused it.
    Ended(Option<Cause>),
}
