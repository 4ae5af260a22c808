//! What the walk plans.

use crate::segment::Segment;
use mi_base::{Cause, Text};
use mi_image::Overlay;

/// What the walk over the sequence plans: the actions that it begins, in order, the segments that have ended, why it was refused, if it
/// was, and the machine as it will be beside the former one (InstallExecuteSequence table).
#[derive(Drop)]
pub struct WalkPlan {
    pub begun: Vec<Text>,
    pub segments: Vec<Segment>,
    pub refusal: Option<Cause>,
    pub overlay: Overlay,
}
