//! What a text makes of an old value.

use mi_base::RegValue;

/// What a text of the Registry table makes of the value that stood before.
#[derive(Drop)]
pub enum Change {
    /// The old value, a list, stays as it is.
    Unchanged,
    /// This value takes its place.
    Value(RegValue),
}
