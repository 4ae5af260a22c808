//! An order of the rows of a sequence.

/// The rows of a sequence in their order, as places in the file order of their table, from 0.
#[derive(Drop)]
pub struct Order {
    pub(crate) places: Vec<usize>,
}
