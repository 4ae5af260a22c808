//! What is planned.

use crate::script::Records;
use mi_image::Overlay;

/// A plan: the machine as it will be, beside the one that it was, and the records that a segment carries out for it
/// (this project's own).
#[derive(Drop)]
pub struct Plan {
    pub overlay: Overlay,
    pub script: Records,
}
