//! The state of the scan.

use crate::part::Kept;
use crate::token::Kind;

/// An open mark, and what stands before it.
#[derive(Drop)]
pub(crate) struct OpenMark {
    pub kind: Kind,
    pub before: Kept,
}

/// The open marks, the innermost last, and what stands behind it.
#[derive(Drop)]
pub(crate) struct Scan {
    pub marks: Vec<OpenMark>,
    pub current: Kept,
}
