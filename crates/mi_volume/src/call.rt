//! The calls that a volume in memory lists.

use mi_text::Name;

/// Whether a call put or appended (this project's own).
#[derive(Clone, Copy)]
pub enum CallKind {
    Put,
    Append,
}

/// A put or an append that was made (this project's own).
#[derive(Drop)]
pub struct Call {
    /// Whether it put or appended.
    pub kind: CallKind,
    /// The name that it wrote.
    pub name: Name,
}
