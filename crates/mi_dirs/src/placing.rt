//! Rows that are placed so far.

/// Rows in the order in which they were placed, and which rows these are.
#[derive(Drop)]
pub(crate) struct Placing {
    pub order: Vec<usize>,
    pub placed: Vec<bool>,
}
